// Reservations on the text of a list: tables set aside for a sheet, and the reservation closed by a commit or a withdrawal. A list does not
// show what is reserved, so each function is handed the reservation beside it: the number of tables set aside, and the net that they are for,
// both 0 where nothing is reserved.
#![tactic(auto)]

ghost use Rattle.std.specs.Prelude.{◌≡◌};
ghost use Rattle.part.specs.Trusted.AddAnswers.{adding_answer};
ghost use Rattle.list_reservations.specs.Trusted.ListReservations.{outcome_code, ReservedOnList, CommittedToList, WithdrawnFromList};

use list_numbers::answer_code;
use list_sets::{put_outcome, read_reserved, tell_sheet};
use part::{AddError, Part};

// The code of a reservation is so many times the number of tables set aside, and the net.
const RESERVED: u64 = 281474976710656;

// The code of what reserving or withdrawing gave: of its refusal, or of the reservation that the part has then, 0 where that is none.
fn outcome_code(answer: Result<(), AddError>, part: &Part) -> u64
    ensures { result ≡ outcome_code (adding_answer answer) part.now }
{
    match tell_sheet(answer, 0) {
        Ok(()) => {
            let reservation = part.reservation;
            RESERVED * reservation.count as u64 + reservation.net as u64
        }
        Err(code) => code,
    }
}

// Sets tables of a list's part aside for a sheet. The result is the code of the reservation that the part has then, or that of the refusal:
// the list's come first, then 20, 35 where a reservation is open, and those of an add.
pub fn reserve_on_list(list: &[u8], reserved: u16, net: u16, text: &[u8]) -> u64
    ensures { ReservedOnList list.now (record { count = reserved; net = net }) text.now result }
{
    let read = read_reserved(list, reserved, net);
    let answer = read.answer;
    let code = answer_code(answer);
    if code != 0 {
        return code as u64;
    }
    let answered = read.part.reserve(text);
    outcome_code(answered.answer, &answered.part)
}

// Adds the sheet that tables of a list's part are set aside for, and closes the reservation. The new list stands at the front of the buffer,
// and the result is its count of bytes. Else the result is the refusal's code, and the buffer is as it was: the list's refusals come first,
// then 20, 36 where no reservation is open, the sheet's own, 36 for another output net, 21, 22 and 23, then 14 for a buffer that is too short.
pub fn commit_to_list(list: &[u8], reserved: u16, net: u16, text: &[u8], output: &mut [u8]) -> u64
    ensures { CommittedToList list.now (record { count = reserved; net = net }) text.now output.old result output.new }
{
    let read = read_reserved(list, reserved, net);
    let answer = read.answer;
    let code = answer_code(answer);
    if code != 0 {
        return code as u64;
    }
    let committed = read.part.commit(text);
    let told = tell_sheet(committed.answer, 0);
    put_outcome(told, committed.part, output)
}

// Closes the reservation. The result is 0, or the refusal's code: the list's come first, then 20, and 36 where no reservation is open.
pub fn withdraw_from_list(list: &[u8], reserved: u16, net: u16) -> u64
    ensures { WithdrawnFromList list.now (record { count = reserved; net = net }) result }
{
    let read = read_reserved(list, reserved, net);
    let answer = read.answer;
    let code = answer_code(answer);
    if code != 0 {
        return code as u64;
    }
    let answered = read.part.withdraw();
    outcome_code(answered.answer, &answered.part)
}
