// What is held while a sheet is mapped, what the mapper's functions promise, and the laws that they rest on. The code is in `gate_run`,
// `gate_mapper` and `mapper`.
#![tactic(auto)]

use pending::{Lut, Pending};
use plan::Key;

// A mapped gate that is not placed: how many tables stand below the one that holds it, and that table.
#[derive(Clone, Copy)]
pub struct Held {
    pub below: u8,
    pub table: Lut,
}

// The fanins of a gate: as operands, and their keys. What stands past the count is of no matter.
#[derive(Clone, Copy)]
pub struct Operands {
    pub count: u8,
    pub fanins: [Pending; 10],
    pub keys: [Key; 10],
}

// The operands, the last one at depth - 1, and the tables placed. What stands past the counts is of no matter.
#[derive(Clone, Copy)]
pub struct PlanRun {
    pub depth: u8,
    pub stack: [Pending; 10],
    pub placed: u8,
    pub tables: [Lut; 18],
}

// A gate mapped: what holds it, and the run of its plan, which has the tables placed.
#[derive(Clone, Copy)]
pub struct MappedGate {
    pub held: Held,
    pub run: PlanRun,
}

// A gate of two fanins mapped: what holds it, and the tables placed. What stands past their count is of no matter.
#[derive(Clone, Copy)]
pub struct MappedPair {
    pub held: Held,
    pub placed: u8,
    pub tables: [Lut; 2],
}

// The most tables of a sheet, so that a byte counts them.
pub const MOST_TABLES: usize = 255;

// The tables of a sheet, the root's last. What stands past the count is of no matter.
#[derive(Clone, Copy)]
pub struct Mapping {
    pub count: u8,
    pub tables: [Lut; MOST_TABLES],
}
