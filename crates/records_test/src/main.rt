// Reads each file that its arguments name as a run of records, and prints the name and what the test of the run finds: 0 for no bad
// record, the first bad one counted from 1, or minus the number of a refusal.
// A file is a line with K and the capacity, then one line for each of at most 16 records: net, input count, six inputs, truth table and
// level.
#![tactic(auto)]

use input_reader::read_file;
use records::RunError;
use std::rt::Files;
use std::{env, io};
use table::Table;

// The bytes of the first line, and of a record's.
const HEAD: usize = 13;

const LINE: usize = 61;

fn main(rt: HostRuntime) -> io::Result<()> {
    for name in env::args(&rt)?.skip(1) {
        print_case(&rt, name.as_str())?;
    }
    Ok(())
}

fn print_case(rt: &(impl Files + Print), name: &str) -> io::Result<()> {
    rt.println(name)?;
    let mut text = [0u8; 4096];
    let got = read_file(rt, name, &mut text)?;
    print_found(rt, test(&text[..got]))
}

// The test of the run that a text holds.
fn test(text: &[u8]) -> Result<(), RunError> {
    let mut records = [table::blank(); 16];
    for (i, record) in records.iter_mut().enumerate() {
        *record = record_at(text, i);
    }
    records::first_bad_of(records, count(text), field(text, 0, 0), field(text, 0, 1))
}

// How many records the text holds.
fn count(text: &[u8]) -> usize {
    let n = text.len();
    if n < HEAD {
        return 0;
    }
    (n - HEAD) / LINE
}

fn record_at(text: &[u8], i: usize) -> Table {
    if i >= 16 {
        return table::blank();
    }
    let start = HEAD + LINE * i;
    Table {
        net: low16(field(text, start, 0)),
        count: low8(field(text, start, 1)),
        inputs: [
            low16(field(text, start, 2)),
            low16(field(text, start, 3)),
            low16(field(text, start, 4)),
            low16(field(text, start, 5)),
            low16(field(text, start, 6)),
            low16(field(text, start, 7)),
        ],
        truth: field(text, start, 8) as u64,
        level: low16(field(text, start, 9)),
    }
}

// The number in field i of the line that begins at start, 0 where there is none.
fn field(text: &[u8], start: usize, i: usize) -> u32 {
    if i >= 10 {
        return 0;
    }
    if start > text.len() {
        return 0;
    }
    let from = 6 * i;
    if text.len() - start < from + 6 {
        return 0;
    }
    let at = start + from;
    let end = at + 6;
    decimal_reader::read(&text[at..end]).map_or(0, decimal::magnitude)
}

fn low16(x: u32) -> u16 {
    (x % 65536) as u16
}

fn low8(x: u32) -> u8 {
    (x % 256) as u8
}

fn print_found(rt: &impl Print, found: Result<(), RunError>) -> io::Result<()> {
    let number = match found {
        Ok(()) => 0,
        Err(RunError::BadRecord(n)) => (n % 100000) as i32,
        Err(RunError::KOutOfRange) => -2,
        Err(RunError::CapacityOutOfRange) => -3,
    };
    print_number(rt, number)
}

// A number on a line of its own.
fn print_number(rt: &impl Print, v: i32) -> io::Result<()> {
    let mut b = [b' '; 6];
    let _ = decimal_writer::write_signed(&mut b, v);
    rt.write_all(&b)?;
    rt.write_all(b"\n")
}
