// Joining the chained gates of a sheet that was read (02, #104): the joined gates that stay, written into a sheet and numbered anew.
#![tactic(auto)]

ghost use Rattle.std.specs.Prelude.{◌≡◌};
ghost use Rattle.sheet.specs.Trusted.Answers.{drawn_sheet};
ghost use Rattle.sheet.specs.Trusted.Formed.{WellFormed};
ghost use Rattle.joined.specs.JoinedSheet.{joined_sheet};
ghost use Rattle.joiner_laws.specs.Joining.{AllJoined};
ghost use Rattle.joiner_laws.specs.Writing.{renumbered_edge};

use gate_fanins::place_of;
use gate_joiner::join_gates;
use joiner_laws::{JoinedGate, JoinedGates};
use sheet::{Edge, Gate, MOST_GATES, Sheet, Source};

// The edge, reading the gate of this number if it reads one.
fn renumbered(edge: Edge, number: u16) -> Edge
    ensures { result ≡ renumbered_edge edge number }
{
    match edge.source {
        Source::Net(_) => edge,
        Source::Gate(_) => Edge {
            source: Source::Gate(number),
            ..edge
        },
    }
}

// The gate with its fanins from this place on.
fn placed(gate: JoinedGate, first: u16) -> Gate
    ensures { result ≡ record { kind = gate.kind; count = gate.count; first = first } }
{
    Gate {
        kind: gate.kind,
        count: gate.count,
        first,
    }
}

// The sheet of the joined gates that stay.
fn write_staying(sheet: Sheet, joined: JoinedGates) -> Sheet
    requires { WellFormed (drawn_sheet sheet) × AllJoined (drawn_sheet sheet).gates joined }
    ensures { drawn_sheet result ≡ joined_sheet (drawn_sheet sheet) }
{
    let count = sheet.count as usize;
    let mut gates = sheet.gates;
    let mut fanins = sheet.fanins;
    let mut numbers = [0u16; MOST_GATES];
    let mut kept: usize = 0;
    let mut used: usize = 0;
    for g in 0..count {
        if !joined.gone[g] {
            let x = joined.gates[g];
            let size = x.count as usize;
            for i in 0..size {
                let edge = x.fanins[i];
                let at = place_of(edge.source);
                fanins[used + i] = renumbered(edge, numbers[at]);
            }
            gates[kept] = placed(x, used as u16);
            kept += 1;
            used += size;
        }
        numbers[g] = kept as u16;
    }
    Sheet {
        count: kept as u8,
        gates,
        fanins,
        ..sheet
    }
}

// The sheet that is covered: the sheet that was read with its chained gates joined, and the gates that are left numbered anew.
pub fn joined(sheet: Sheet) -> Sheet
    requires { WellFormed (drawn_sheet sheet) }
    ensures { drawn_sheet result ≡ joined_sheet (drawn_sheet sheet) }
{
    write_staying(sheet, join_gates(sheet))
}
