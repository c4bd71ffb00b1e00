// What a program in C is handed of a list that was read back: the part as a run of numbers, and the answer as one number.
#![tactic(auto)]

ghost use Rattle.std.specs.Prelude.{◌≡◌, [], ◌∷◌, ◌+◌, ◌*◌, ◌≤◌, length};
ghost use Rattle.lists.specs.Trusted.Lists.{gather};
ghost use Rattle.lists.specs.Trusted.Checked.{passed};
ghost use Rattle.part.specs.Trusted.Parts.{in_use};
ghost use Rattle.list_line.specs.Trusted.Writes.{pasted};
ghost use Rattle.list_reading.specs.Trusted.ListAnswers.{list_answer};
ghost use Rattle.list_numbers.specs.Trusted.Numbers.{record_numbers, numbers_read};
ghost use Rattle.list_numbers.specs.Answered.{answer_code, came_of};

use list_reading::{ListAnswer, ListRead};
use part::Part;
use table::Table;

// The numbers before those of the tables, and the numbers of a table.
const TOP: usize = 3;

const RECORD: usize = 10;

// A refusal's code is so many times its number, and the line. A buffer that is too short is refused with 14.
const NUMBER: u32 = 65536;

const NO_ROOM: u32 = 14;

// A number at the place.
fn put_number(numbers: &mut [u64], at: usize, n: u16)
    requires { at + 1 ≤ length numbers.old }
    ensures { numbers.new ≡ pasted numbers.old at (n ∷ []) }
{
    numbers[at] = n as u64;
}

// The six inputs, from the place on.
fn put_inputs(numbers: &mut [u64], at: usize, inputs: [u16; 6])
    requires { at + 6 ≤ length numbers.old }
    ensures { numbers.new ≡ pasted numbers.old at inputs }
{
    for i in 0..6 {
        put_number(numbers, at + i, inputs[i]);
    }
}

// The ten numbers of a table, from the place on.
fn put_record(numbers: &mut [u64], at: usize, r: Table)
    requires { at + 10 ≤ length numbers.old }
    ensures { numbers.new ≡ pasted numbers.old at (record_numbers r) }
{
    let inputs = r.inputs;
    put_number(numbers, at, r.net);
    put_number(numbers, at + 1, r.count as u16);
    put_inputs(numbers, at + 2, inputs);
    numbers[at + 8] = r.truth;
    put_number(numbers, at + 9, r.level);
}

// The numbers of the tables in use, from the place on.
fn put_records(numbers: &mut [u64], at: usize, p: Part)
    requires { (p.used ≤ 800) × (at + 10 * p.used ≤ length numbers.old) }
    ensures { numbers.new ≡ pasted numbers.old at (gather record_numbers (in_use p)) }
{
    let used = p.used as usize;
    for t in 0..used {
        let r = p.tables[t];
        put_record(numbers, at + RECORD * t, r);
    }
}

// K, the capacity and the used count, at the front of the buffer.
fn put_top(numbers: &mut [u64], k: u8, capacity: u16, used: u16)
    requires { 3 ≤ length numbers.old }
    ensures { numbers.new ≡ pasted numbers.old 0 (k ∷ capacity ∷ used ∷ []) }
{
    put_number(numbers, 0, k as u16);
    put_number(numbers, 1, capacity);
    put_number(numbers, 2, used);
}

// A part's numbers at the front of the buffer, and 0; where they do not fit, the code of 14, with the buffer as it was.
fn put_part(p: Part, numbers: &mut [u64]) -> u32
    requires { p.used ≤ 800 }
    ensures { record { code = result; numbers = numbers.new } ≡ numbers_read (passed p) numbers.old }
{
    if numbers.len() < TOP + RECORD * (p.used as usize) {
        return NUMBER * NO_ROOM;
    }
    put_top(numbers, p.k, p.capacity, p.used);
    put_records(numbers, TOP, p);
    0
}

// The code of an answer: 0 where the list is accepted.
pub fn answer_code(answer: ListAnswer) -> u32
    ensures { result ≡ answer_code (list_answer answer) }
{
    match answer {
        ListAnswer::Accepted => 0,
        ListAnswer::KOutOfRange => NUMBER * 2,
        ListAnswer::CapacityOutOfRange => NUMBER * 3,
        ListAnswer::NotLaidOut(line) => NUMBER * 31 + line as u32,
        ListAnswer::RuleBroken(line) => NUMBER * 32 + line as u32,
    }
}

// Hands over what a reading handed back: the numbers of the part where it is accepted, and the code.
pub fn hand_over(read: ListRead, numbers: &mut [u64]) -> u32
    requires { read.part.used ≤ 800 }
    ensures { record { code = result; numbers = numbers.new } ≡ numbers_read (came_of read.part (list_answer read.answer)) numbers.old }
{
    let answer = read.answer;
    let code = answer_code(answer);
    if code != 0 {
        return code;
    }
    let part = read.part;
    put_part(part, numbers)
}
