// Runs the mapping program for the fewest levels on each file that its arguments name, and prints the name and what the program prints. Of each
// file only one output is right.
#![tactic(auto)]

use fast_program::LONGEST_FAST;
use input_reader::read_file;
use std::rt::Files;
use std::{env, io};

fn main(rt: HostRuntime) -> io::Result<()> {
    for name in env::args(&rt)?.skip(1) {
        print_case(&rt, name.as_str())?;
    }
    Ok(())
}

fn print_case(rt: &(impl Files + Print), name: &str) -> io::Result<()> {
    print(rt, name.as_bytes())?;
    print(rt, b"\n")?;
    let mut text = [0u8; 65536];
    let got = read_file(rt, name, &mut text)?;
    print_mapped(rt, &text[..got])
}

fn print_mapped(rt: &impl Print, text: &[u8]) -> io::Result<()> {
    let mut output = [0u8; LONGEST_FAST];
    let n = fast_program::print(text, &mut output);
    print(rt, &output[..n])
}

fn print(rt: &impl Print, s: &[u8]) -> io::Result<()> {
    rt.write_all(s)
}
