// The arrays of the search for the fewest levels: the types, what its functions promise, and the laws that they rest on. The code is in
// `level_rows`, `level_lines` and `level_plans`.
#![tactic(auto)]

use plan::Plan;

// Where a group of fanins cannot give so many inputs: no count of tables below is so large.
pub const NONE: u8 = 255;

// A row has a place for each number of inputs, from 0 to 7. An array has a row for each set of fanins.
pub const ROW_ROOM: usize = 8;

pub const ARRAY_ROOM: usize = 8192;

// The rows of ten fanins.
pub const FANIN_ROOM: usize = 80;

// The arrays of as many bounds as a gate has fanins, and of the one before.
pub const ARRAYS_ROOM: usize = 90112;

// A line has a place for each number of inputs, from 1 to 6. A gate has at most 256 lines, one for each bound, and a sheet 255 gates.
pub const STORE_ROOM: usize = 391680;

// A row, by number of inputs.
#[derive(Clone, Copy)]
pub struct LevelRow {
    pub at: [u8; ROW_ROOM],
}

// The fanins of a gate, of which there are `count`: the greatest level of the nets under each, and how many lines the gate that it
// reads has, 0 where it reads a net, and that gate's number, counted from 0.
#[derive(Clone, Copy)]
pub struct Fans {
    pub count: u8,
    pub levels: [u16; 10],
    pub lines: [u16; 10],
    pub gates: [u16; 10],
}

// A gate's plan, and what each fanin is to give: inputs of a level within a bound, and so many at most.
#[derive(Clone, Copy)]
pub struct Draft {
    pub plan: Plan,
    pub bounds: [u16; 10],
    pub inputs: [u8; 10],
}
