// Fanout-free trees of AND and OR gates over nets: the kinds of gates, how many fanins they have, and the codes of nets and of what is
// no net.
#![tactic(auto)]

// The greatest net. Nets go from 1.
pub const GREATEST_NET: u16 = 9999;

// What is no net has a code above this base: gate g in a fanin, table t in a table's input.
pub const CODE_BASE: u16 = 10000;

// The fanins of a gate.
pub const FEWEST_FANINS: usize = 2;

pub const MOST_FANINS: usize = 10;

// The kind of a gate.
#[derive(Clone, Copy, Debug, PartialEq, Eq)]
pub enum Kind {
    And,
    Or,
}
