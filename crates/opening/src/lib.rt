// The opening line of an input: K and the capacity in two fields, and the part that they open.
#![tactic(auto)]

ghost use Rattle.std.specs.Prelude.{◌≡◌};
ghost use Rattle.std.proofs.Math.Option.{none};
ghost use Rattle.decimal.specs.Trusted.Reading.{number_of_int};
ghost use Rattle.part.specs.Trusted.Add.{opened};
ghost use Rattle.part.specs.Trusted.OpenAnswers.{open_refusal};
ghost use Rattle.opening.specs.Trusted.Opening.{count as count_of, opening_numbers, opened_by};
ghost use Rattle.opening.specs.Promises.{told as told_answer, start_result};

use part::{OpenError, Part};

// The bytes of the opening line with its line feed.
pub const OPENING: usize = 13;

// A refusal's number and place; the number 0 stands for acceptance.
#[derive(Clone, Copy)]
pub struct Told {
    pub number: u8,
    pub line: u16,
}

// The part that the opening line gives.
#[derive(Clone, Copy)]
pub struct Start {
    pub part: Part,
    pub told: Told,
}

fn tell_opening(why: OpenError) -> Told
    ensures { told_answer result ≡ open_refusal why }
{
    match why {
        OpenError::KOutOfRange => Told { number: 2, line: 0 },
        OpenError::CapacityOutOfRange => Told { number: 3, line: 0 },
    }
}

// The number, or 0 for one with a minus sign.
pub fn count(v: i32) -> u32
    ensures { result ≡ count_of (number_of_int v) }
{
    if decimal::negative(v) {
        return 0;
    }
    decimal::magnitude(v)
}

fn open(k: u32, capacity: u32) -> Start
    ensures { start_result result ≡ opened k capacity }
{
    let opened = Part::open(k, capacity);
    let told = match opened.answer {
        Ok(()) => Told { number: 0, line: 0 },
        Err(why) => tell_opening(why),
    };
    Start {
        part: opened.part,
        told,
    }
}

// An opening line that is not laid out as such.
fn no_opening() -> Start
    ensures { start_result result ≡ opened_by none }
{
    Start {
        part: part::empty(0, 0),
        told: Told { number: 1, line: 0 },
    }
}

// The part that the input's opening line opens.
pub fn read_opening(input: &[u8]) -> Start
    ensures { start_result result ≡ opened_by (opening_numbers input.now) }
{
    if input.len() < OPENING {
        return no_opening();
    }
    if input[12] != b'\n' {
        return no_opening();
    }
    let first = decimal_reader::read(&input[0..6]);
    let second = decimal_reader::read(&input[6..12]);
    let Some(k) = first else {
        return no_opening();
    };
    let Some(capacity) = second else {
        return no_opening();
    };
    let most = count(k);
    let tables = count(capacity);
    open(most, tables)
}
