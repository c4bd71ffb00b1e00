// A set of sheets added to the text of a list: the list is read, the set is added to its part, and the new part's list is written. A list
// does not show what is reserved, so the reservation is handed over beside it.
#![tactic(auto)]

ghost use Rattle.std.specs.Prelude.{◌≡◌, Ok, Err};
ghost use Rattle.part.specs.Trusted.Sound.{Sound};
ghost use Rattle.part.specs.Trusted.AddAnswers.{adding_answer};
ghost use Rattle.part.specs.Trusted.SetAnswers.{set_answer, set_position};
ghost use Rattle.listing.specs.Trusted.Listing.{list_of};
ghost use Rattle.list_reading.specs.Trusted.ReadList.{read_list};
ghost use Rattle.list_reading.specs.Trusted.ListAnswers.{list_answer};
ghost use Rattle.list_numbers.specs.Answered.{answer_code};
ghost use Rattle.list_sets.specs.Trusted.ListSets.{set_code, PutInFront, AddedToList};
ghost use Rattle.list_sets.specs.Told.{ReadBeside, told_of, PutOutcome};

use list_numbers::answer_code;
use list_reader::read_list;
use list_reading::ListRead;
use part::{AddError, Part, SetError};
use printing::{NoRoom, print_list};

// A refusal's code is so many times the sheet's position in the set, so many times its number, and the place.
const POSITION: u64 = 4294967296;

const NUMBER: u64 = 65536;

// A buffer that is too short is refused with 14.
const NO_ROOM: u8 = 14;

// Reads a list, and gives its part the reservation: the number of tables set aside, and the net that they are for.
pub fn read_reserved(list: &[u8], reserved: u16, net: u16) -> ListRead
    ensures { ReadBeside (read_list list.now) (record { count = reserved; net = net }) result.part (answer_code (list_answer result.answer)) }
{
    let mut read = read_list(list);
    read.part.reservation.count = reserved;
    read.part.reservation.net = net;
    read
}

// The code of a refusal.
fn refusal_code(position: u8, number: u8, place: u16) -> u64
    ensures { result ≡ set_code position number place }
{
    POSITION * position as u64 + NUMBER * number as u64 + place as u64
}

// A refusal, by its code.
fn refused(position: u8, number: u8, place: u16) -> Result<(), u64>
    ensures { result ≡ Err (set_code position number place) }
{
    Err(refusal_code(position, number, place))
}

// What the answer for a sheet says, a refusal by its code with the sheet's position in the set, 0 where it is in none.
pub fn tell_sheet(answer: Result<(), AddError>, position: u8) -> Result<(), u64>
    ensures { result ≡ told_of position (adding_answer answer) }
{
    match answer {
        Ok(()) => Ok(()),
        Err(why) => {
            let told = why.numbered(0);
            refused(position, told.number, told.line)
        }
    }
}

// What the answer for a set says.
fn tell_set(answer: Result<(), SetError>) -> Result<(), u64>
    ensures { result ≡ told_of (set_position answer) (set_answer answer) }
{
    match answer {
        Ok(()) => Ok(()),
        Err(SetError::Unsound) => refused(0, 20, 0),
        Err(SetError::LengthsUnfit) => refused(0, 33, 0),
        Err(SetError::SheetRefused(why, position)) => tell_sheet(Err(why), position),
    }
}

// The list of a sound part at the front of the buffer, and its count of bytes; where it does not fit, the code of 14, with the buffer as it
// was.
fn put_list(p: Part, output: &mut [u8]) -> u64
    requires { Sound p }
    ensures { PutInFront (list_of p) output.old result output.new }
{
    match print_list(output, p) {
        Ok(n) => n as u64,
        Err(NoRoom) => refusal_code(0, NO_ROOM, 0),
    }
}

// What comes of a call that adds sheets: where it is accepted, the list of its part as above, else its refusal's code, with the buffer as it
// was.
pub fn put_outcome(told: Result<(), u64>, p: Part, output: &mut [u8]) -> u64
    requires { told ≡ Ok tt → Sound p }
    ensures { PutOutcome told p output.old result output.new }
{
    match told {
        Ok(()) => put_list(p, output),
        Err(code) => code,
    }
}

// Adds a set of sheets, their text one after the other with the length of each, to the part of a list with its reservation. Where all are
// added the new list stands at the front of the buffer, and the result is its count of bytes, 19 to 60,819. Else the result is the refusal's
// code, and the buffer is as it was: the list's refusals come first, then those of the set, then 14 for a buffer that is too short.
pub fn add_to_list(
    list: &[u8],
    reserved: u16,
    net: u16,
    text: &[u8],
    lengths: &[u32],
    output: &mut [u8],
) -> u64
    ensures { AddedToList list.now (record { count = reserved; net = net }) lengths.now text.now output.old result output.new }
{
    let read = read_reserved(list, reserved, net);
    let answer = read.answer;
    let code = answer_code(answer);
    if code != 0 {
        return code as u64;
    }
    let added = read.part.add_set(text, lengths);
    let told = tell_set(added.answer);
    put_outcome(told, added.part, output)
}
