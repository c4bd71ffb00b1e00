// Reads each file that its arguments name as a list, and prints the name and what comes of it: the list of the part that was read and a
// line with the levels of its records in use, or one line with minus the number of the refusal, 0 and the line.
#![tactic(auto)]

ghost use Rattle.std.specs.Prelude.{◌<◌};

use input_reader::read_file;
use list_reader::read_list;
use list_reading::ListAnswer;
use part::Part;
use printing::print_refusal;
use std::rt::Files;
use std::{env, io};

fn main(rt: HostRuntime) -> io::Result<()> {
    for name in env::args(&rt)?.skip(1) {
        print_case(&rt, name.as_str())?;
    }
    Ok(())
}

fn print_case(rt: &(impl Files + Print), name: &str) -> io::Result<()> {
    print(rt, name.as_bytes())?;
    print(rt, b"\n")?;
    let mut text = [0u8; 65536];
    let got = read_file(rt, name, &mut text)?;
    print_read(rt, &text[..got])
}

fn print_read(rt: &impl Print, text: &[u8]) -> io::Result<()> {
    let read = read_list(text);
    let answer = read.answer;
    let part = read.part;
    match answer {
        ListAnswer::Accepted => print_part(rt, part),
        ListAnswer::KOutOfRange => print_refused(rt, 2, 0),
        ListAnswer::CapacityOutOfRange => print_refused(rt, 3, 0),
        ListAnswer::NotLaidOut(line) => print_refused(rt, 31, line),
        ListAnswer::RuleBroken(line) => print_refused(rt, 32, line),
    }
}

// The line of a refusal.
fn print_refused(rt: &impl Print, number: u8, line: u16) -> io::Result<()>
    requires { 0 < number }
{
    let mut output = [0u8; 19];
    let _ = print_refusal(&mut output, number, 0, line);
    print(rt, &output)
}

// The list of the part that was read, and its levels.
fn print_part(rt: &impl Print, part: Part) -> io::Result<()> {
    print_list(rt, part)?;
    print_levels(rt, part)
}

fn print_list(rt: &impl Print, part: Part) -> io::Result<()> {
    let mut output = [0u8; 65536];
    if let Ok(count) = listing::write_list(part, &mut output, 0) {
        print_front(rt, &output, count)?;
    }
    Ok(())
}

// How many records are in use, 800 at most.
fn in_use(part: Part) -> usize {
    let used = part.used as usize;
    if used < 800 { used } else { 800 }
}

// The level of a record, counted from 0; 0 where there is no such record.
fn level_at(part: Part, at: usize) -> u16 {
    if at >= 800 {
        return 0;
    }
    let r = part.tables[at];
    r.level
}

// The levels of the records in use, on a line of their own.
fn print_levels(rt: &impl Print, part: Part) -> io::Result<()> {
    let many = in_use(part);
    for at in 0..many {
        print_level(rt, level_at(part, at))?;
    }
    print(rt, b"\n")
}

// A level in six columns.
fn print_level(rt: &impl Print, level: u16) -> io::Result<()> {
    let mut b = [b' '; 6];
    let _ = decimal_writer::write(&mut b, level as u64);
    print(rt, &b)
}

fn print_front(rt: &impl Print, s: &[u8], count: usize) -> io::Result<()> {
    if count <= s.len() {
        print(rt, &s[..count])?;
    }
    Ok(())
}

fn print(rt: &impl Print, s: &[u8]) -> io::Result<()> {
    rt.write_all(s)
}
