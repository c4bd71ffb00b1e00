// Prints at the front of a buffer: the line of a refusal, or the list of a sound part.
// `program` alone calls these, and proves what they ask for.
#![tactic(auto)]

ghost use Rattle.std.specs.Prelude.{◌<◌};
ghost use Rattle.part.specs.Trusted.Sound.{Sound};
ghost use Rattle.listing.specs.Trusted.Listing.{list_of};
ghost use Rattle.printing.specs.Trusted.RefusalLine.{refusal_line};
ghost use Rattle.printing.specs.Promises.{WrittenAs};

use part::Part;

// The bytes of a field.
const FIELD: usize = 6;

// The bytes of a refusal's line: three fields and the line feed.
const REFUSAL: usize = 19;

// Why nothing was printed: the buffer is too short for it.
#[derive(Clone, Copy, Debug, PartialEq, Eq)]
pub struct NoRoom;

// The line of a refusal, and how many bytes it has.
pub fn print_refusal(output: &mut [u8], number: u8, sheet: u16, place: u16) -> Result<usize, NoRoom>
    requires { 0 < number }
    ensures { WrittenAs (refusal_line number sheet place) result output.new output.old }
{
    if output.len() < REFUSAL {
        return Err(NoRoom);
    }
    let _ = decimal_writer::write_signed_at(output, 0, FIELD, -(number as i32));
    let _ = decimal_writer::write_at(output, 6, FIELD, sheet as u64);
    let _ = decimal_writer::write_at(output, 12, FIELD, place as u64);
    output[18] = b'\n';
    Ok(REFUSAL)
}

// The list of a sound part, and how many bytes it has. For want of room is the only way in which it is refused.
pub fn print_list(output: &mut [u8], part: Part) -> Result<usize, NoRoom>
    requires { Sound part }
    ensures { WrittenAs (list_of part) result output.new output.old }
{
    match listing::write_sound_list(part, output, 0) {
        Ok(n) => Ok(n),
        Err(_) => Err(NoRoom),
    }
}
