// Runs the mapping program on each file that its arguments name, and prints the name and what the program prints. Of a file whose name
// begins with "+" only the first line, K, capacity and used count: its list is long, or its covers are free.
#![tactic(auto)]

use input_reader::read_file;
use program::LONGEST;
use std::rt::Files;
use std::{env, io};

// The bytes of a list's first line.
const FIRST: usize = 19;

fn main(rt: HostRuntime) -> io::Result<()> {
    for name in env::args(&rt)?.skip(1) {
        print_case(&rt, name.as_str())?;
    }
    Ok(())
}

fn print_case(rt: &(impl Files + Print), name: &str) -> io::Result<()> {
    print(rt, name.as_bytes())?;
    print(rt, b"\n")?;
    let mut text = [0u8; 65536];
    let got = read_file(rt, name, &mut text)?;
    print_mapped(rt, &text[..got], name.starts_with('+'))
}

fn print_mapped(rt: &impl Print, text: &[u8], short: bool) -> io::Result<()> {
    let mut output = [0u8; LONGEST];
    let n = program::print(text, &mut output);
    if short {
        if n > FIRST {
            return print(rt, &output[..FIRST]);
        }
    }
    print(rt, &output[..n])
}

fn print(rt: &impl Print, s: &[u8]) -> io::Result<()> {
    rt.write_all(s)
}
