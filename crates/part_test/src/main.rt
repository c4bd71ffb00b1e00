// Runs a script of steps on one part, and prints what each step answers. A line of the script is twelve fields: the step, then its
// numbers.
//    0 K capacity                              open the part                       prints 0 or minus the refusal's number
//    1 K · 2 capacity · 3 used                 set a field of the part
//    4 t net count input .. input truth level  set record t
//    5 t                                       set the truth table of record t to 2^64 - 1
//    6 n                                       set the records 1 to n to a table of nets 1 and 2
//    7                                         prints 1 where the part is sound, else 0
//    8 line length place                       write a line into a buffer          prints the count or minus the number, and the buffer
//    9 length place                            write the list into a buffer        the same
//   10 n                                       add the sheet in a file             prints 0 or minus the number, and the place; then
//                                              that argument n names               the list, where the part is sound
//   11                                         prints the levels of the records in use, in one line
//   12 t level                                 set the level of record t
//   13 times low high                          collect so many lengths for the next set, low + 65536 x high each; there is room for 20
//   14 n                                       add the set in a file that          prints 0 or minus the number, the place and the
//                                              argument n names, with the          position; then the list, where the part is sound
//                                              lengths collected, and drop them
//   15 count · 16 net                          set the number set aside · set the net of the reservation
//   17 n                                       reserve for the sheet in a file     prints 0 or minus the number, and the place; the
//                                              that argument n names               number set aside and the net; then the list, where
//                                                                                  the part is sound
//   18 n                                       commit the sheet in a file          the same
//                                              that argument n names
//   19                                         withdraw                            the same
//   20                                         prints the reservation: the number set aside and the net, in one line
//   21 n                                       add the sheet in a file             prints what step 10 prints
//                                              that argument n names, by
//                                              the fewest levels
#![tactic(auto)]

ghost use Rattle.std.specs.Prelude.{◌≡◌, ◌≤◌, ◌<◌, IfSome, length};
ghost use Rattle.std.specs.Io.{ReadsAtMost};

use input_reader::{read_file, read_full};
use listing::WriteError;
use part::{Added, NumberedRefusal, Part};
use std::env::Env;
use std::rt::{Files, Runtime};
use std::{env, io};
use table::Table;

const FIELDS: usize = 12;

const LINE: usize = 73;

// The bytes that a script has room in.
const SCRIPT: usize = 131072;

// The most lengths that are collected for a set.
const LENGTHS: usize = 20;

// The part, and the lengths collected for the next set.
#[derive(Clone, Copy)]
struct State {
    part: Part,
    lengths: [u32; 20],
    count: u32,
}

// The number in a field of a line, 0 where there is none.
fn field(s: &[u8], i: usize) -> u32 {
    if i >= FIELDS {
        return 0;
    }
    let start = 6 * i;
    let end = start + 6;
    if s.len() < end {
        return 0;
    }
    decimal_reader::read(&s[start..end]).map_or(0, decimal::magnitude)
}

fn low16(x: u32) -> u16 {
    (x % 65536) as u16
}

fn low8(x: u32) -> u8 {
    (x % 256) as u8
}

// A number in six columns.
fn put(rt: &impl Print, v: i32) -> io::Result<()> {
    let mut b = [b' '; 6];
    let _ = decimal_writer::write_signed(&mut b, v);
    rt.write_all(&b)
}

// A number on a line of its own.
fn say(rt: &impl Print, v: i32) -> io::Result<()> {
    put(rt, v)?;
    rt.write_all(b"\n")
}

// 0, or minus the refusal's number; the place, and in a set the position.
#[derive(Clone, Copy)]
struct Answer {
    number: i32,
    place: u16,
    position: u16,
}

const ACCEPTED: Answer = Answer {
    number: 0,
    place: 0,
    position: 0,
};

fn refused(why: NumberedRefusal) -> Answer {
    Answer {
        number: -(why.number as i32),
        place: why.line,
        position: why.sheet,
    }
}

// The count, which is below 100,000, or minus the refusal's number.
fn written(a: Result<usize, WriteError>) -> i32 {
    match a {
        Ok(n) => (n % 100000) as i32,
        Err(WriteError::NotSound) => -20,
        Err(WriteError::NoLine) => -15,
        Err(WriteError::NoRoom) => -14,
    }
}

// The count, 0 for a refusal.
fn count(a: Result<usize, WriteError>) -> u32 {
    match a {
        Ok(n) => (n % 100000) as u32,
        Err(_) => 0,
    }
}

fn record(s: &[u8]) -> Table {
    Table {
        net: low16(field(s, 2)),
        count: low8(field(s, 3)),
        inputs: [
            low16(field(s, 4)),
            low16(field(s, 5)),
            low16(field(s, 6)),
            low16(field(s, 7)),
            low16(field(s, 8)),
            low16(field(s, 9)),
        ],
        truth: field(s, 10) as u64,
        level: low16(field(s, 11)),
    }
}

// The place of the record t, counted from 1, where there is such a record.
fn place_of(t: u32) -> Option<usize>
    ensures { IfSome result (λ at. at < 800) }
{
    if (1..=800).contains(&t) {
        Some((t - 1) as usize)
    } else {
        None
    }
}

// Sets the record t, where there is one.
fn set_record(p: &mut Part, t: u32, r: Table) {
    if let Some(at) = place_of(t) {
        p.tables[at] = r;
    }
}

fn set_full_truth(p: &mut Part, t: u32) {
    if let Some(at) = place_of(t) {
        p.tables[at].truth = u64::MAX;
    }
}

fn set_level(p: &mut Part, t: u32, level: u16) {
    if let Some(at) = place_of(t) {
        p.tables[at].level = level;
    }
}

// Sets the part's first n records to the AND of the nets 1 and 2, which drive no net and have level 1.
fn fill(p: &mut Part, n: u32) {
    let r = Table {
        net: 0,
        count: 2,
        inputs: [1, 2, 0, 0, 0, 0],
        truth: 8,
        level: 1,
    };
    let many = room(n, 800);
    p.tables[..many].fill(r);
}

// Sets the field that a step names.
fn set_field(p: &mut Part, which: u32, x: u32) {
    match which {
        1 => p.k = low8(x),
        2 => p.capacity = low16(x),
        3 => p.used = low16(x),
        15 => p.reservation.count = low16(x),
        _ => p.reservation.net = low16(x),
    }
}

// The answer, and the buffer's first bytes.
fn show(rt: &impl Print, a: Result<usize, WriteError>, buf: &[u8]) -> io::Result<()> {
    say(rt, written(a))?;
    rt.write_all(buf)?;
    rt.write_all(b"\n")
}

// As many bytes as asked for, if the buffer has them.
fn room(n: u32, len: usize) -> usize
    ensures { result ≤ len }
{
    len.min(n as usize)
}

fn line_into(rt: &impl Print, p: Part, s: &[u8], buf: &mut [u8]) -> io::Result<()> {
    let a = listing::write_line(p, field(s, 1), &mut *buf, field(s, 3) as usize);
    show(rt, a, buf)
}

fn list_into(rt: &impl Print, p: Part, s: &[u8], buf: &mut [u8]) -> io::Result<()> {
    let a = listing::write_list(p, &mut *buf, field(s, 2) as usize);
    show(rt, a, buf)
}

fn write_line(rt: &impl Print, p: Part, s: &[u8], buf: &mut [u8]) -> io::Result<()> {
    let n = room(field(s, 2), buf.len());
    line_into(rt, p, s, &mut buf[..n])
}

fn write_list(rt: &impl Print, p: Part, s: &[u8], buf: &mut [u8]) -> io::Result<()> {
    let n = room(field(s, 1), buf.len());
    list_into(rt, p, s, &mut buf[..n])
}

// Opens the part.
fn open(rt: &impl Print, s: &[u8]) -> io::Result<Part> {
    let opened = Part::open(field(s, 1), field(s, 2));
    let answer = match opened.answer {
        Ok(()) => ACCEPTED,
        Err(why) => refused(why.numbered()),
    };
    say(rt, answer.number)?;
    Ok(opened.part)
}

// Reads the file that an argument names into the buffer, and gives its length. No argument names no file. An error is that of the arguments'
// memory or of the file, and leaves any bytes in the buffer.
fn read_sheet(rt: &(impl Env + Files + Alloc), argument: usize, buf: &mut [u8]) -> io::Result<usize>
    ensures bound { ReadsAtMost result buf.new }
    ensures length { length buf.new ≡ length buf.old }
{
    match env::args(rt)?.nth(argument) {
        Some(name) => read_file(rt, name.as_str(), buf),
        None => read_file(rt, "", buf),
    }
}

// The list, where the part is sound.
fn print_list(rt: &impl Print, p: &Part) -> io::Result<()> {
    let mut buf = [0u8; 65536];
    let a = listing::write_list(*p, &mut buf, 0);
    let n = room(count(a), buf.len());
    rt.write_all(&buf[..n])
}

// The levels of the records in use, on a line of their own.
fn print_levels(rt: &impl Print, p: &Part) -> io::Result<()> {
    let many = room(p.used as u32, 800);
    for i in 0..many {
        put(rt, p.tables[i].level as i32)?;
    }
    rt.write_all(b"\n")
}

// The number set aside and the net, on a line of their own.
fn print_reservation(rt: &impl Print, p: &Part) -> io::Result<()> {
    put(rt, p.reservation.count as i32)?;
    say(rt, p.reservation.net as i32)
}

// The sheet in a file added, by the fewest tables or the fewest levels, reserved for or committed, by the step.
fn offer(rt: &(impl Env + Files + Alloc), p: Part, s: &[u8]) -> io::Result<Added> {
    let mut text = [0u8; 65536];
    let n = read_sheet(rt, field(s, 1) as usize, &mut text)?;
    Ok(match field(s, 0) {
        10 => p.add(&text[..n]),
        17 => p.reserve(&text[..n]),
        21 => p.add_fast(&text[..n]),
        _ => p.commit(&text[..n]),
    })
}

// Prints what a call answered, the reservation where it is asked for, and the list, where the part is sound.
fn print_answer(rt: &impl Print, called: &Added, reserving: bool) -> io::Result<()> {
    let answer = match called.answer {
        Ok(()) => ACCEPTED,
        Err(why) => refused(why.numbered(0)),
    };
    put(rt, answer.number)?;
    say(rt, answer.place as i32)?;
    if reserving {
        print_reservation(rt, &called.part)?;
    }
    print_list(rt, &called.part)
}

// The length of step 13.
fn length(s: &[u8]) -> u32 {
    low16(field(s, 2)) as u32 + 65536 * low16(field(s, 3)) as u32
}

// Collects so many lengths more; those past the room are left out.
fn collect(state: &mut State, times: u32, length: u32) {
    let from = room(state.count, LENGTHS);
    let to = from + room(times, LENGTHS - from);
    state.lengths[from..to].fill(length);
    state.count = to as u32;
}

// Adds the set in a file, with the lengths collected, and drops them.
fn add_set(rt: &impl Runtime, state: &mut State, s: &[u8]) -> io::Result<()> {
    let mut text = [0u8; 65536];
    let n = read_sheet(rt, field(s, 1) as usize, &mut text)?;
    let many = room(state.count, LENGTHS);
    let added = state.part.add_set(&text[..n], &state.lengths[..many]);
    state.part = added.part;
    let answer = match added.answer {
        Ok(()) => ACCEPTED,
        Err(why) => refused(why.numbered()),
    };
    state.count = 0;
    put(rt, answer.number)?;
    put(rt, answer.place as i32)?;
    say(rt, answer.position as i32)?;
    print_list(rt, &state.part)
}

// A step on the part alone.
fn step(rt: &impl Runtime, p: &mut Part, s: &[u8]) -> io::Result<()> {
    match field(s, 0) {
        0 => *p = open(rt, s)?,
        1 | 2 | 3 | 15 | 16 => set_field(p, field(s, 0), field(s, 1)),
        4 => set_record(p, field(s, 1), record(s)),
        5 => set_full_truth(p, field(s, 1)),
        6 => fill(p, field(s, 1)),
        10 | 21 => {
            let called = offer(rt, *p, s)?;
            print_answer(rt, &called, false)?;
            *p = called.part;
        }
        12 => set_level(p, field(s, 1), low16(field(s, 2))),
        17 | 18 => {
            let called = offer(rt, *p, s)?;
            print_answer(rt, &called, true)?;
            *p = called.part;
        }
        19 => {
            let called = p.withdraw();
            print_answer(rt, &called, true)?;
            *p = called.part;
        }
        _ => show_part(rt, p, s)?,
    }
    Ok(())
}

// A step that only prints.
fn show_part(rt: &impl Print, p: &Part, s: &[u8]) -> io::Result<()> {
    let mut buf = [b'.'; 4096];
    match field(s, 0) {
        7 => say(rt, p.sound() as i32),
        8 => write_line(rt, *p, s, &mut buf),
        11 => print_levels(rt, p),
        20 => print_reservation(rt, p),
        _ => write_list(rt, *p, s, &mut buf),
    }
}

// One step of the script.
fn next(rt: &impl Runtime, state: &mut State, s: &[u8]) -> io::Result<()> {
    match field(s, 0) {
        13 => {
            collect(state, field(s, 1), length(s));
            Ok(())
        }
        14 => add_set(rt, state, s),
        _ => step(rt, &mut state.part, s),
    }
}

// The lines of the script, one after another, from a part of all zeros.
fn run(rt: &impl Runtime, script: &[u8]) -> io::Result<()> {
    let mut state = State {
        part: part::empty(0, 0),
        lengths: [0; 20],
        count: 0,
    };
    let mut at: usize = 0;
    while LINE <= script.len() - at {
        let end = at + LINE;
        next(rt, &mut state, &script[at..end])?;
        at = end;
    }
    Ok(())
}

fn main(rt: HostRuntime) -> io::Result<()> {
    let mut script = [0u8; SCRIPT];
    let n = read_full(&mut rt.stdin(), &mut script)?;
    run(&rt, &script[..n])
}
