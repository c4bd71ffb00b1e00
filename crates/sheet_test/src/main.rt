// Reads each file that its arguments name as a sheet, and prints the name and what comes of it: the sheet that was read, in the form
// of a sheet, or one line with minus the number of the refusal and the line. A file whose name begins with "+" has two sheets, read
// one after the other. Each number has a column for its sign, and six for its digits.
#![tactic(auto)]

use input_reader::read_file;
use sheet::{Edge, Gate, Sheet, SheetError, Source};
use std::rt::Files;
use std::{env, io};
use tree::Kind;

fn main(rt: HostRuntime) -> io::Result<()> {
    for name in env::args(&rt)?.skip(1) {
        print_case(&rt, name.as_str())?;
    }
    Ok(())
}

fn print_case(rt: &(impl Files + Print), name: &str) -> io::Result<()> {
    print(rt, name.as_bytes())?;
    end_line(rt)?;
    let mut text = [0u8; 65536];
    let got = read_file(rt, name, &mut text)?;
    if name.starts_with('+') {
        print_two(rt, &text[..got])
    } else {
        print_one(rt, &text[..got])
    }
}

fn print_one(rt: &impl Print, text: &[u8]) -> io::Result<()> {
    match sheet_reader::read(text) {
        Ok(sheet) => print_sheet(rt, &sheet),
        Err(e) => print_refusal(rt, e),
    }
}

fn print_two(rt: &impl Print, text: &[u8]) -> io::Result<()> {
    let first = print_next(rt, text, 0)?;
    print_next(rt, text, first)?;
    Ok(())
}

// The place after the sheet, and 0 where it is refused.
fn print_next(rt: &impl Print, text: &[u8], start: usize) -> io::Result<usize> {
    match sheet_reader::read_next(text, start) {
        Ok(next) => {
            print_sheet(rt, &next.sheet)?;
            Ok(next.end)
        }
        Err(e) => {
            print_refusal(rt, e)?;
            Ok(0)
        }
    }
}

fn print_refusal(rt: &impl Print, e: SheetError) -> io::Result<()> {
    print_signed(rt, true, sheet::number(e.why) as u32)?;
    print_number(rt, e.line as u32)?;
    end_line(rt)
}

fn print_sheet(rt: &impl Print, sheet: &Sheet) -> io::Result<()> {
    print_signed(rt, sheet.inverted, sheet.out as u32)?;
    print_number(rt, sheet.count as u32)?;
    end_line(rt)?;
    for gate in &sheet.gates[..sheet.count as usize] {
        print_gate(rt, gate, &sheet.fanins)?;
    }
    Ok(())
}

fn print_gate(rt: &impl Print, gate: &Gate, fanins: &[Edge]) -> io::Result<()> {
    match gate.kind {
        Kind::And => print_number(rt, 1)?,
        Kind::Or => print_number(rt, 2)?,
    }
    print_number(rt, gate.count as u32)?;
    let first = gate.first as usize;
    for fanin in fanins.iter().skip(first).take(gate.count as usize) {
        print_fanin(rt, *fanin)?;
    }
    end_line(rt)
}

fn print_fanin(rt: &impl Print, fanin: Edge) -> io::Result<()> {
    match fanin.source {
        Source::Net(n) => print_signed(rt, fanin.inverted, n as u32),
        Source::Gate(g) => print_signed(rt, fanin.inverted, tree::CODE_BASE as u32 + g as u32),
    }
}

// The sign in a column of its own, and the number in six.
fn print_signed(rt: &impl Print, negative: bool, n: u32) -> io::Result<()> {
    print(rt, if negative { b"-" } else { b" " })?;
    let mut field = [b' '; 6];
    let _ = decimal_writer::write(&mut field, n as u64);
    print(rt, &field)
}

fn print_number(rt: &impl Print, n: u32) -> io::Result<()> {
    print_signed(rt, false, n)
}

fn end_line(rt: &impl Print) -> io::Result<()> {
    print(rt, b"\n")
}

fn print(rt: &impl Print, s: &[u8]) -> io::Result<()> {
    rt.write_all(s)
}
