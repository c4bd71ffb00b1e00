// The gates of a sheet, joined under their drawn numbers (02, #104).
#![tactic(auto)]

ghost use Rattle.std.specs.Prelude.{◌≡◌, [], ◌+◌, ◌≤◌, ◌<◌};
ghost use Rattle.tree.specs.Trusted.Limits.{most_fanins};
ghost use Rattle.sheet.specs.Trusted.Answers.{drawn_sheet};
ghost use Rattle.sheet.specs.Trusted.Formed.{WellFormed};
ghost use Rattle.joined.specs.JoinedSheet.{turn_fanin};
ghost use Rattle.joiner_laws.specs.Joining.{GateIs, with_edge, FaninsAdded, joins_lower, AllJoined};

use chained_gates::chained;
use gate_fanins::{fanins_of, place_of};
use joiner_laws::{JoinedGate, JoinedGates};
use sheet::{Edge, MOST_GATES, Sheet, Source};
use tree::{Kind, MOST_FANINS};

// Whether an edge is joined that stands in a gate beside so many other fanins, where `lower` is the gate that it reads, if it does.
fn joins(kind: Kind, others: usize, edge: Edge, lower: JoinedGate) -> bool
    requires { others ≤ 1000 }
    ensures { result ≡ joins_lower kind others edge.inverted edge.source lower }
{
    match edge.source {
        Source::Net(_) => false,
        Source::Gate(_) => chained(edge.inverted, kind, lower.kind)
            && others + lower.count as usize <= MOST_FANINS,
    }
}

// A gate of no fanins yet.
fn begin(kind: Kind) -> JoinedGate
    ensures { GateIs result (record { kind = kind; fanins = [] }) }
{
    let none = Edge {
        inverted: false,
        source: Source::Net(0),
    };
    JoinedGate {
        kind,
        count: 0,
        fanins: [none; MOST_FANINS],
    }
}

// One fanin more.
fn with_fanin(mut gate: JoinedGate, edge: Edge) -> JoinedGate
    requires { gate.count < most_fanins }
    ensures { result ≡ with_edge gate edge }
{
    gate.fanins[gate.count as usize] = edge;
    gate.count += 1;
    gate
}

// The edge, turned over where the flag says so.
fn turned(inverted: bool, edge: Edge) -> Edge
    ensures { result ≡ turn_fanin inverted edge }
{
    Edge {
        inverted: edge.inverted != inverted,
        ..edge
    }
}

// The fanins of the gate below more, turned over where the edge to it is inverted.
fn with_fanins(mut gate: JoinedGate, inverted: bool, lower: JoinedGate) -> JoinedGate
    requires { gate.count + lower.count ≤ most_fanins }
    ensures { FaninsAdded gate inverted lower result }
{
    for edge in &lower.fanins[..lower.count as usize] {
        gate = with_fanin(gate, turned(inverted, *edge));
    }
    gate
}

// The gates of a sheet after their own joins: gates in rising number, and each one's fanins from left to right.
pub fn join_gates(sheet: Sheet) -> JoinedGates
    requires { WellFormed (drawn_sheet sheet) }
    ensures { AllJoined (drawn_sheet sheet).gates result }
{
    let mut joined = [begin(Kind::And); MOST_GATES];
    let mut gone = [false; MOST_GATES];
    for g in 0..sheet.count as usize {
        let gate = sheet.gates[g];
        let fanins = fanins_of(gate, &sheet.fanins);
        let mut x = begin(gate.kind);
        for (i, edge) in fanins.iter().enumerate() {
            let at = place_of(edge.source);
            let lower = joined[at];
            let others = x.count as usize + (fanins.len() - 1 - i);
            if joins(gate.kind, others, *edge, lower) {
                gone[at] = true;
                x = with_fanins(x, edge.inverted, lower);
            } else {
                x = with_fanin(x, *edge);
            }
        }
        joined[g] = x;
    }
    JoinedGates {
        gates: joined,
        gone,
    }
}
