// Sheets as they are read: one fanout-free tree of gates, with an output net, and why a text is none. The reader is the crate `reader`.
#![tactic(auto)]

ghost use Rattle.std.specs.Prelude.{◌≡◌};
ghost use Rattle.sheet.specs.Trusted.Answers.{number_of, on_line};

use tree::Kind;

// The most gates of a sheet.
pub const MOST_GATES: usize = 255;

// The most leaves of a sheet.
pub const MOST_LEAVES: u16 = 256;

// Room for the fanins of all gates of a sheet: each reads a leaf, or a gate, that no other reads.
pub const FANIN_ROOM: usize = MOST_LEAVES as usize + MOST_GATES + 1;

// What a fanin reads: a net, or an earlier gate.
#[derive(Clone, Copy, Debug, PartialEq, Eq)]
pub enum Source {
    Net(u16),
    Gate(u16),
}

// A fanin: what it reads, and whether inverted.
#[derive(Clone, Copy, Debug, PartialEq, Eq)]
pub struct Edge {
    pub inverted: bool,
    pub source: Source,
}

// A gate: its kind, how many fanins it has, and the place of the first among the sheet's.
#[derive(Clone, Copy, Debug, PartialEq, Eq)]
pub struct Gate {
    pub kind: Kind,
    pub count: u8,
    pub first: u16,
}

// A sheet: its output net, whether the tree's value is inverted, how many gates it has, the gates, and the fanins of all gates, one
// gate's after the other's. What stands past the counts is of no matter.
#[derive(Clone, Copy)]
pub struct Sheet {
    pub out: u16,
    pub inverted: bool,
    pub count: u8,
    pub gates: [Gate; MOST_GATES],
    pub fanins: [Edge; FANIN_ROOM],
}

// Why a text is no sheet, with its number in 01: `number_of` in specs/Trusted/Answers.
#[derive(Clone, Copy, Debug, PartialEq, Eq)]
pub enum Refusal {
    Layout = 1,
    OutputNet = 4,
    GateCount = 5,
    GateKind = 6,
    FaninCount = 7,
    NoSource = 8,
    GateTwice = 9,
    NetTwice = 10,
    OutputLeaf = 11,
    LeafCount = 12,
    GateUnread = 13,
}

// The number of a refusal in 01.
pub fn number(why: Refusal) -> u8
    ensures { result ≡ number_of why }
{
    why as u8
}

// Why a text is refused, and at which line, from 1.
#[derive(Clone, Copy, Debug, PartialEq, Eq)]
pub struct SheetError {
    pub why: Refusal,
    pub line: u16,
}

// What was read of a line, or its refusal with the line.
pub fn at_line<T>(read: Result<T, Refusal>, line: u16) -> Result<T, SheetError>
    ensures { result ≡ on_line line read }
{
    read.map_err(|why| SheetError { why, line })
}

// A sheet that was read from a place of a text on, and the place after it.
#[derive(Clone, Copy)]
pub struct Next {
    pub sheet: Sheet,
    pub end: usize,
}
