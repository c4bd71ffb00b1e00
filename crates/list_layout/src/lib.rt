// The lines of a list as they are read: what is held of one, and in specs/ the laws that the reader's layout is the writer's. The code is
// in `list_line_reader`.
#![tactic(auto)]

use table::Table;

// What line 0 says.
#[derive(Clone, Copy)]
pub struct ListTop {
    pub k: u32,
    pub capacity: u32,
    pub used: u32,
}

// What the line of a table says, and the place after it. A number that a record has no room for is held as 65535, which breaks the same
// rules.
#[derive(Clone, Copy)]
pub struct TableRead {
    pub table: Table,
    pub end: usize,
}
