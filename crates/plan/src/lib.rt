// Keys of covers and plans for a gate: what the search finds, as types, with the laws that it rests on. The search is the crate `search`.
#![tactic(auto)]

// The inputs of a table.
pub const LEAST_INPUTS: u8 = 2;

pub const MOST_INPUTS: u8 = 6;

// The sets of fanins, and the most steps of a plan.
pub const MASKS: usize = 1024;

pub const MOST_STEPS: usize = 19;

// What matters of a cover of a tree: the tables below the one that holds the root, and the inputs of that one.
#[derive(Clone, Copy, PartialEq, Eq, PartialOrd, Ord)]
pub struct Key {
    pub below: u8,
    pub width: u8,
}

// A step of a plan: take the fanin with that number, counted from 0; or join the two operands taken or joined last, the
// first and the second of them placed in a table of its own where its flag says so.
#[derive(Clone, Copy)]
pub enum Token {
    Push(u8),
    Join(bool, bool),
}

// A plan for a gate: the key that it gives, and its first len steps.
#[derive(Clone, Copy)]
pub struct Plan {
    pub key: Key,
    pub len: u8,
    pub steps: [Token; MOST_STEPS],
}

// Which operands of a join are placed.
#[derive(Clone, Copy)]
pub struct Cuts {
    pub left: bool,
    pub right: bool,
}
