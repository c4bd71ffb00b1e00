// Prints the number of each refusal in six columns, a blank and its sentence: a line for each number below 100 that has one.
// bin/map takes its words from the file `stdout` here.
#![tactic(auto)]

use std::io;

// The number in six columns, and a blank.
fn say_number(rt: &impl Print, number: u32) -> io::Result<()> {
    let mut columns = [b' '; 6];
    let _ = decimal_writer::write(&mut columns, number as u64);
    rt.write_all(&columns)?;
    rt.write_all(b" ")
}

// The line of a number, where it has a sentence.
fn say(rt: &impl Print, number: u32) -> io::Result<()> {
    let mut text = [0u8; 4096];
    let n = refusals::write(number, &mut text);
    if n == 0 {
        return Ok(());
    }
    say_number(rt, number)?;
    rt.write_all(&text[..n])?;
    rt.write_all(b"\n")
}

fn main(rt: HostRuntime) -> io::Result<()> {
    for number in 0..100 {
        say(&rt, number)?;
    }
    Ok(())
}
