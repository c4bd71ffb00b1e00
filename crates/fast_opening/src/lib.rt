// The opening line of an input with a wanted level: K, the capacity and the wanted level in three fields, and the part that they open.
#![tactic(auto)]

ghost use Rattle.std.specs.Prelude.{◌≡◌, ◌<◌};
ghost use Rattle.decimal.specs.Trusted.Reading.{number_of_int};
ghost use Rattle.part.specs.Trusted.Add.{opened};
ghost use Rattle.part.specs.Trusted.Answers.{accepted};
ghost use Rattle.fast_opening.specs.Trusted.FastOpening.{fast_numbers, unopened, wanted_after, fast_opened_by};
ghost use Rattle.fast_opening.specs.Promises.{fast_start};

use opening::{Told, count};
use part::{OpenError, Part};

// The bytes of the opening line with its line feed.
pub const FAST_OPENING: usize = 19;

// The greatest wanted level.
pub const MOST_WANTED: u32 = 1024;

// The part that the opening line gives, the answer and the wanted level, which is 0 where the line is refused.
#[derive(Clone, Copy)]
pub struct FastOpening {
    pub part: Part,
    pub told: Told,
    pub wanted: u16,
}

// A refusal with a part of zeros.
fn refuse(number: u8) -> FastOpening
    requires { 0 < number }
    ensures { fast_start result ≡ unopened number }
{
    FastOpening {
        part: part::empty(0, 0),
        told: Told { number, line: 0 },
        wanted: 0,
    }
}

// The wanted level of a part that is opened.
fn want(part: Part, v: i32) -> FastOpening
    ensures { fast_start result ≡ wanted_after accepted part (number_of_int v) }
{
    if decimal::negative(v) {
        return refuse(34);
    }
    let wanted = decimal::magnitude(v);
    if wanted > MOST_WANTED {
        return refuse(34);
    }
    FastOpening {
        part,
        told: Told { number: 0, line: 0 },
        wanted: wanted as u16,
    }
}

// K and the capacity are tested before the wanted level.
fn open(k: u32, capacity: u32, v: i32) -> FastOpening
    ensures { fast_start result ≡ wanted_after (opened k capacity).answer (opened k capacity).part (number_of_int v) }
{
    let opened = Part::open(k, capacity);
    match opened.answer {
        Ok(()) => want(opened.part, v),
        Err(OpenError::KOutOfRange) => refuse(2),
        Err(OpenError::CapacityOutOfRange) => refuse(3),
    }
}

// The part that the input's opening line opens, and the wanted level.
pub fn read_fast_opening(input: &[u8]) -> FastOpening
    ensures { fast_start result ≡ fast_opened_by (fast_numbers input.now) }
{
    if input.len() < FAST_OPENING {
        return refuse(1);
    }
    if input[18] != b'\n' {
        return refuse(1);
    }
    let first = decimal_reader::read(&input[0..6]);
    let second = decimal_reader::read(&input[6..12]);
    let third = decimal_reader::read(&input[12..18]);
    let Some(k) = first else {
        return refuse(1);
    };
    let Some(capacity) = second else {
        return refuse(1);
    };
    let Some(wanted) = third else {
        return refuse(1);
    };
    open(count(k), count(capacity), wanted)
}
