// The mapping program: standard input is a line with K and the capacity, then sheets; it prints the part's list, or one line for the first
// refusal. What it prints is what `program::print` gives for the bytes read, which are the whole input, or as much of it as decides what is
// printed.
#![tactic(auto)]

ghost use Rattle.std.specs.Prelude.{◌≡◌, length};
ghost use Rattle.std.specs.Io.{ReadsAtMost};
ghost use Rattle.program_laws.specs.Front.{front_bytes};

use input_reader::read_full;
use program::LONGEST;
use std::io;
use std::io::Read;

// So many bytes of an input decide what is printed for it: `front_decides` in program_laws/proofs/FrontLaws. No more are read.
const ROOM: usize = 131072;

fn say(rt: &impl Eprint, s: &str) {
    let _ = rt.eprint(s);
}

// Reads until the buffer, which has room for all the bytes that decide, is full or the input ends.
fn read_deciding(from: &mut impl Read, buf: &mut [u8]) -> io::Result<usize>
    requires { length buf.old ≡ front_bytes }
    ensures { ReadsAtMost result buf.new }
{
    read_full(from, buf)
}

fn print(rt: &(impl Print + Eprint), input: &[u8]) {
    let mut output = [0u8; LONGEST];
    let n = program::print(input, &mut output);
    if rt.write_all(&output[..n]).is_err() {
        say(rt, "map: standard output cannot be written\n");
    }
}

fn main(rt: HostRuntime) {
    let mut input = [0u8; ROOM];
    match read_deciding(&mut rt.stdin(), &mut input) {
        Ok(n) => print(&rt, &input[..n]),
        Err(_) => say(&rt, "map: standard input cannot be read\n"),
    }
}
