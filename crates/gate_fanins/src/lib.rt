// The fanins of a gate among its sheet's: how many there are, and which gate one reads.
#![tactic(auto)]

ghost use Rattle.std.specs.Prelude.{◌≡◌, ◌<◌, ◌≤◌};
ghost use Rattle.lists.specs.Trusted.Lists.{Every};
ghost use Rattle.sheet.specs.Trusted.Limits.{most_gates};
ghost use Rattle.sheet.specs.Trusted.Answers.{drawn_gate};
ghost use Rattle.sheet.specs.Trusted.Sheet.{gate_of};
ghost use Rattle.gate_fanins.specs.Fanins.{FaninsCounted, place_in};

use sheet::{Edge, FANIN_ROOM, Gate, Source};

// How many fanins a gate has: those that its sheet has room for.
pub fn fanin_count(gate: Gate) -> usize
    ensures { FaninsCounted gate result }
{
    let room = FANIN_ROOM.saturating_sub(gate.first as usize);
    room.min(gate.count as usize)
}

// The fanins of a gate: those that its sheet has room for.
pub fn fanins_of(gate: Gate, fanins: &[Edge; FANIN_ROOM]) -> &[Edge]
    ensures { result.now ≡ (drawn_gate fanins.now gate).fanins }
{
    let first = (gate.first as usize).min(FANIN_ROOM);
    &fanins[first..first + fanin_count(gate)]
}

// The place of the gate that a fanin reads among the gates; 0 for a net.
pub fn place_of(source: Source) -> usize
    requires { Every (λ j. (1 ≤ j) × (j ≤ most_gates)) (gate_of source) }
    ensures { (result ≡ place_in source) × (result < most_gates) }
{
    match source {
        Source::Net(_) => 0,
        Source::Gate(g) => g as usize - 1,
    }
}
