// Lookup tables as records of a part.
#![tactic(auto)]

ghost use Rattle.std.specs.Prelude.{◌≡◌, min};
ghost use Rattle.table.specs.Trusted.Records.{blank as blankRecord};

use tree::{CODE_BASE, GREATEST_NET};

// The inputs that a record has room for, and the records that a part has room for.
pub const INPUT_ROOM: u32 = 6;

pub const TABLE_ROOM: u32 = 800;

// The words that hold a flag for each net, and for each record.
pub const NET_WORDS: usize = GREATEST_NET as usize / 64 + 1;

pub const TABLE_WORDS: usize = TABLE_ROOM as usize / 64 + 1;

// The places of an array that holds a number for each code, of nets and of tables.
pub const CODE_ROOM: usize = CODE_BASE as usize + TABLE_ROOM as usize + 1;

// A lookup table of a part: the net that it drives (0 for none), how many inputs it has, the inputs, its truth table and its level.
#[derive(Clone, Copy, Debug, PartialEq, Eq)]
pub struct Table {
    pub net: u16,
    pub count: u8,
    pub inputs: [u16; 6],
    pub truth: u64,
    pub level: u16,
}

// What the rules need to know of the records so far: how many there are, which nets a record drives or reads, and which of
// the records drive a net, both as flags packed into words.
#[derive(Clone, Copy)]
pub struct Prefix {
    pub count: u16,
    pub claimed: [u64; NET_WORDS],
    pub drives: [u64; TABLE_WORDS],
}

// A record of zeros.
pub fn blank() -> Table
    ensures { result ≡ blankRecord }
{
    Table {
        net: 0,
        count: 0,
        inputs: [0u16; 6],
        truth: 0,
        level: 0,
    }
}

// How many inputs are in use: no more than a record has room for.
pub fn in_use(count: u8) -> usize
    ensures { result ≡ min count 6 }
{
    usize::from(count.min(6))
}
