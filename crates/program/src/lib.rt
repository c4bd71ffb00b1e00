// What the mapping program prints for an input: the list of the part that its sheets make, or the line of the first refusal.
#![tactic(auto)]

ghost use Rattle.program.specs.Promises.{Answered, AtFront};

use opening::OPENING;
use printing::NoRoom;

// The bytes of the longest list: no input has more printed (`longest` in listing/specs/Lines, `prints_short` in specs/RoomLaws).
pub const LONGEST: usize = 60819;

// Maps the input and prints into the buffer: the list, or one line for the first refusal.
// `Answered`: what is printed for the input stands at the buffer's front, the bytes after it are as they were, and `Ok` has its length;
// or it is longer than the buffer, which is as it was, and the answer is `Err(NoRoom)`.
pub fn run(input: &[u8], output: &mut [u8]) -> Result<usize, NoRoom>
    ensures { Answered input.now result output.new output.old }
{
    let start = opening::read_opening(input);
    let told = start.told;
    if told.number != 0 {
        return printing::print_refusal(output, told.number, 0, told.line);
    }
    let mut part = start.part;
    match sheets::add_sheets(&mut part, input, OPENING) {
        Ok(()) => printing::print_list(output, part),
        Err(why) => printing::print_refusal(output, why.number, why.sheet, why.line),
    }
}

// Maps the input and prints into the buffer, which has room for all that can be printed, and gives how many bytes it printed.
// `AtFront`: so many bytes at the buffer's front are what is printed for the input, and the bytes after them are as they were.
pub fn print(input: &[u8], output: &mut [u8; LONGEST]) -> usize
    ensures { AtFront input.now result output.new output.old }
{
    match run(input, output) {
        Ok(n) => n,
        Err(NoRoom) => 0,
    }
}
