// The mapper, the reader of its lists, and sets and reservations on them, for programs in other languages: `rt lib` writes the archive, out/libpailinstant.a.
#![tactic(auto)]

ghost use Rattle.std.specs.Prelude.{◌≡◌};
ghost use Rattle.refusals.specs.Trusted.Sentences.{refusal_text, front_write};
ghost use Rattle.part_records.specs.Trusted.Reservations.{unreserved};
ghost use Rattle.list_reading.specs.Trusted.ReadList.{read_list};
ghost use Rattle.list_numbers.specs.Trusted.Numbers.{list_code, numbers_read};
ghost use Rattle.list_sets.specs.Trusted.ListSets.{AddedToList};
ghost use Rattle.list_reservations.specs.Trusted.ListReservations.{ReservedOnList, CommittedToList, WithdrawnFromList};
ghost use Rattle.pailinstant.specs.Calls.{printed_bytes, PrintedInto, FastPrintedInto};

use list_numbers::{answer_code, hand_over};
use list_reader::read_list;
use list_reservations::{commit_to_list, reserve_on_list, withdraw_from_list};
use list_sets::add_to_list;
use printing::NoRoom;
use program::run;

// How many bytes were printed: none where the buffer is too short.
fn printed_bytes(outcome: Result<usize, NoRoom>) -> usize
    ensures { result ≡ printed_bytes outcome }
{
    match outcome {
        Ok(n) => n,
        Err(NoRoom) => 0,
    }
}

// Maps a whole input, as the mapping program does, and gives how many bytes it printed into the buffer: the list, or the line of the
// first refusal. A buffer that is too short is left as it is, and gives 0; one with `program::LONGEST` bytes is never too short.
#[unsafe(no_mangle)]
pub extern "C" fn pailinstant_map(input: &[u8], output: &mut [u8]) -> usize
    ensures { PrintedInto input.now result output.new output.old }
{
    let outcome = run(input, output);
    printed_bytes(outcome)
}

// Maps a whole input to the fewest levels, as the program `map_fast` does; otherwise as `pailinstant_map`. A buffer with
// `fast_program::LONGEST_FAST` bytes is never too short.
#[unsafe(no_mangle)]
pub extern "C" fn pailinstant_map_fast(input: &[u8], output: &mut [u8]) -> usize
    ensures { FastPrintedInto input.now result output.new output.old }
{
    let outcome = fast_program::run(input, output);
    printed_bytes(outcome)
}

// The list of refusals: writes what a refusal's number means, as a plain sentence, into the buffer, and gives how many bytes that is. A
// buffer that is too short, or a number that is no refusal, leaves the buffer as it is and gives 0.
#[unsafe(no_mangle)]
pub extern "C" fn pailinstant_refusal(number: u32, output: &mut [u8]) -> usize
    ensures { record { count = result; bytes = output.new } ≡ front_write (refusal_text number) output.old }
{
    refusals::write(number, output)
}

// Tests a list: 0 where it is that of a sound part, byte for byte. Else the refusal's code, 65536 times its number, and the line.
#[unsafe(no_mangle)]
pub extern "C" fn pailinstant_check_list(text: &[u8]) -> u32
    ensures { result ≡ list_code (read_list text.now) }
{
    let read = read_list(text);
    let answer = read.answer;
    answer_code(answer)
}

// Reads a list back: gives 0, with the part at the front of the buffer as K, the capacity, the used count, and ten numbers for each table,
// the net, u, the six inputs, the truth table and the level. Else gives the refusal's code and leaves the buffer as it is; 14 is for a
// buffer that is too short. 8003 numbers are enough for each list.
#[unsafe(no_mangle)]
pub extern "C" fn pailinstant_read_list(text: &[u8], numbers: &mut [u64]) -> u32
    ensures { record { code = result; numbers = numbers.new } ≡ numbers_read (read_list text.now) numbers.old }
{
    hand_over(read_list(text), numbers)
}

// Adds a set of sheets to the part of a list, all or none: their text one after the other, with the length of each. Gives the new list at
// the front of the buffer, and its count of bytes, 19 to 60,819. Else gives the refusal's code and leaves the buffer as it is: 2^32 times the
// sheet's position in the set, from 1, or 0, then 65536 times its number, and the place. 14 is for a buffer that is too short.
#[unsafe(no_mangle)]
pub extern "C" fn pailinstant_add_set(
    list: &[u8],
    text: &[u8],
    lengths: &[u32],
    output: &mut [u8],
) -> u64
    ensures { AddedToList list.now unreserved lengths.now text.now output.old result output.new }
{
    add_to_list(list, 0, 0, text, lengths, output)
}

// The same, beside a reservation: the number of tables set aside and the net that they are for, which a list does not show, both 0 where
// nothing is reserved. The sheets find only the tables that are neither used nor set aside.
#[unsafe(no_mangle)]
pub extern "C" fn pailinstant_add_set_beside(
    list: &[u8],
    reserved: u16,
    net: u16,
    text: &[u8],
    lengths: &[u32],
    output: &mut [u8],
) -> u64
    ensures { AddedToList list.now (record { count = reserved; net = net }) lengths.now text.now output.old result output.new }
{
    add_to_list(list, reserved, net, text, lengths, output)
}

// Sets tables of the part of a list aside for a sheet, and takes none. Gives 2^48 times their number, and the sheet's output net. Else gives
// the refusal's code, 65536 times its number, and the place; 35 is for a reservation that is open.
#[unsafe(no_mangle)]
pub extern "C" fn pailinstant_reserve(list: &[u8], reserved: u16, net: u16, text: &[u8]) -> u64
    ensures { ReservedOnList list.now (record { count = reserved; net = net }) text.now result }
{
    reserve_on_list(list, reserved, net, text)
}

// Adds the sheet that tables are set aside for to the part of a list, and closes the reservation. Gives the new list at the front of the
// buffer, and its count of bytes. Else gives the refusal's code, as above, and leaves the buffer as it is; 36 is for no reservation, or
// another output net, and 14 for a buffer that is too short.
#[unsafe(no_mangle)]
pub extern "C" fn pailinstant_commit(
    list: &[u8],
    reserved: u16,
    net: u16,
    text: &[u8],
    output: &mut [u8],
) -> u64
    ensures { CommittedToList list.now (record { count = reserved; net = net }) text.now output.old result output.new }
{
    commit_to_list(list, reserved, net, text, output)
}

// Closes the reservation, and gives 0. Else gives the refusal's code, as above; 36 is for no reservation.
#[unsafe(no_mangle)]
pub extern "C" fn pailinstant_withdraw(list: &[u8], reserved: u16, net: u16) -> u64
    ensures { WithdrawnFromList list.now (record { count = reserved; net = net }) result }
{
    withdraw_from_list(list, reserved, net)
}
