// Reads each line of a file as a field and as a number without a minus sign, and prints what it holds. Then writes numbers into a field of a line of dots, from the
// second byte on, and prints the line and the answer.
#![tactic(auto)]

use decimal::TooWide;
use input_reader::read_file;
use std::io;

fn main(rt: HostRuntime) -> io::Result<()> {
    let mut text = [0u8; 4096];
    let n = read_file(&rt, "fields", &mut text)?;
    print_fields(&rt, &text[..n])?;

    print_number(&rt, 6, 0)?;
    print_number(&rt, 6, 7)?;
    print_number(&rt, 6, 999999)?;
    print_number(&rt, 6, 1000000)?;
    print_number(&rt, 21, 18446744073709551615)?;
    print_number(&rt, 20, 18446744073709551615)?;
    print_number(&rt, 19, 18446744073709551615)?;
    print_number(&rt, 0, 0)?;
    print_number(&rt, 23, 5)?;
    print_number(&rt, 24, 5)?;

    print_signed(&rt, 6, -1)?;
    print_signed(&rt, 6, 0)?;
    print_signed(&rt, 6, 5)?;
    print_signed(&rt, 6, -99999)?;
    print_signed(&rt, 6, -100000)?;
    print_signed(&rt, 11, -2147483648)?;
    print_signed(&rt, 1, -1)?;
    print_signed(&rt, 24, -1)
}

// Prints what each line of a text holds.
fn print_fields(rt: &impl Print, text: &[u8]) -> io::Result<()> {
    for line in text.split_inclusive(|&b| b == b'\n') {
        if let Some(s) = line.strip_suffix(b"\n") {
            print_field(rt, s)?;
        }
    }
    Ok(())
}

fn print_field(rt: &impl Print, s: &[u8]) -> io::Result<()> {
    print(rt, b"[")?;
    print(rt, s)?;
    print(rt, b"] ")?;
    match decimal_reader::read(s) {
        Some(v) => {
            if decimal::negative(v) {
                print(rt, b"minus ")?;
            }
            rt.print(decimal::magnitude(v))?;
        }
        None => print(rt, b"no number")?,
    }
    match decimal_reader::read_word(s) {
        Some(n) => println!(rt; ", word {n}"),
        None => print(rt, b", no word\n"),
    }
}

fn print_number(rt: &impl Print, width: usize, n: u64) -> io::Result<()> {
    let mut line = [b'.'; 24];
    let answer = decimal_writer::write_at(&mut line, 1, width, n);
    print(rt, &line)?;
    print_answer(rt, answer)
}

fn print_signed(rt: &impl Print, width: usize, v: i32) -> io::Result<()> {
    let mut line = [b'.'; 24];
    let answer = decimal_writer::write_signed_at(&mut line, 1, width, v);
    print(rt, &line)?;
    print_answer(rt, answer)
}

fn print_answer(rt: &impl Print, answer: Result<(), TooWide>) -> io::Result<()> {
    match answer {
        Ok(()) => print(rt, b" done\n"),
        Err(TooWide) => print(rt, b" too wide\n"),
    }
}

fn print(rt: &impl Print, s: &[u8]) -> io::Result<()> {
    rt.write_all(s)
}
