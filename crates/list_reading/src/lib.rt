// Reading a list back: what it answers, and the laws of it. The code is in `list_reader`.
#![tactic(auto)]

use part::Part;

// What the reading of a list answers, 31 and 32 with the line. ListAnswers in specs/Trusted gives the refusals' numbers and places.
#[derive(Clone, Copy)]
pub enum ListAnswer {
    Accepted,
    KOutOfRange,
    CapacityOutOfRange,
    NotLaidOut(u16),
    RuleBroken(u16),
}

// The part that a reading hands back, all zeros where the list is refused, and the answer.
#[derive(Clone, Copy)]
pub struct ListRead {
    pub part: Part,
    pub answer: ListAnswer,
}
