// Mapping one gate: what a fanin reads, a gate of two fanins, and a gate of any number.
#![tactic(auto)]

pub mod fanin;
pub mod gate;
pub mod pair;
