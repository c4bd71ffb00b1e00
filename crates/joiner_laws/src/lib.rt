// What is held while the gates of a sheet are joined (02, #104).
#![tactic(auto)]

use sheet::{Edge, MOST_GATES};
use tree::{Kind, MOST_FANINS};

// A gate after its own joins.
#[derive(Clone, Copy)]
pub struct JoinedGate {
    pub kind: Kind,
    pub count: u8,
    pub fanins: [Edge; MOST_FANINS],
}

// The gates of a sheet after their own joins, under their drawn numbers, and of each whether it is gone: joined into the one that reads it.
#[derive(Clone, Copy)]
pub struct JoinedGates {
    pub gates: [JoinedGate; MOST_GATES],
    pub gone: [bool; MOST_GATES],
}
