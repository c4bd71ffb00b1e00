// What the program for the fewest levels prints for an input: the list of the part that its sheets make and after it the slacks of its nets, or the
// line of the first refusal.
#![tactic(auto)]

ghost use Rattle.std.specs.Prelude.{◌≡◌, ◌≤◌, length};
ghost use Rattle.part.specs.Trusted.Sound.{Sound};
ghost use Rattle.listing.specs.Lines.{table_lines};
ghost use Rattle.printing.specs.Promises.{WrittenAs};
ghost use Rattle.fast_program.specs.Trusted.FastProgram.{fast_list};
ghost use Rattle.fast_program.specs.Promises.{FastAnswered, FastAtFront};

use fast_opening::FAST_OPENING;
use list_line::table_width;
use part::Part;
use printing::NoRoom;

// The most bytes that are printed: the longest list, and a line of 13 bytes for each of 800 tables (`fast_longest` in specs/FastLongest,
// `fast_prints_short` in proofs/FastRoomLaws).
pub const LONGEST_FAST: usize = 71219;

// The bytes of a list's line 0.
const TOP: usize = 19;

// The bytes of the lines of the part's tables in its list.
fn lines_width(p: Part) -> usize
    requires { p.used ≤ 800 }
    ensures { (result ≡ length (table_lines p p.used)) × (result ≤ 60800) }
{
    let used = p.used as usize;
    let mut width: usize = 0;
    let mut t = 0;
    while t < used {
        let r = p.tables[t];
        width += table_width(r);
        t += 1;
    }
    width
}

// The list of a sound part and after it the slacks of its nets. The slacks are written first, behind where the list will end: where there is
// room for them, there is room for the list.
fn print_fast_list(output: &mut [u8], part: Part, wanted: u16) -> Result<usize, NoRoom>
    requires { Sound part }
    ensures { WrittenAs (fast_list wanted part) result output.new output.old }
{
    let width = TOP + lines_width(part);
    let slacks = slacks::print_slacks(output, width, part, wanted)?;
    let _ = printing::print_list(output, part);
    Ok(width + slacks)
}

// Maps the input and prints into the buffer: the list and the slacks, or one line for the first refusal.
// `FastAnswered`: what is printed for the input stands at the buffer's front, the bytes after it are as they were, and `Ok` has its length;
// or it is longer than the buffer, which is as it was, and the answer is `Err(NoRoom)`.
pub fn run(input: &[u8], output: &mut [u8]) -> Result<usize, NoRoom>
    ensures { FastAnswered input.now result output.new output.old }
{
    let start = fast_opening::read_fast_opening(input);
    let told = start.told;
    if told.number != 0 {
        return printing::print_refusal(output, told.number, 0, told.line);
    }
    let mut part = start.part;
    match fast_sheets::add_sheets_fast(&mut part, input, FAST_OPENING) {
        Ok(()) => print_fast_list(output, part, start.wanted),
        Err(why) => printing::print_refusal(output, why.number, why.sheet, why.line),
    }
}

// Maps the input and prints into the buffer, which has room for all that can be printed, and gives how many bytes it printed.
// `FastAtFront`: so many bytes at the buffer's front are what is printed for the input, and the bytes after them are as they were.
pub fn print(input: &[u8], output: &mut [u8; LONGEST_FAST]) -> usize
    ensures { FastAtFront input.now result output.new output.old }
{
    match run(input, output) {
        Ok(n) => n,
        Err(NoRoom) => 0,
    }
}
