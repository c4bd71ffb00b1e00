// Chained gates of a sheet (02, #104): whether an edge is between two, and whether any edge is joined.
#![tactic(auto)]

ghost use Rattle.std.specs.Prelude.{◌≡◌, ◌≤◌};
ghost use Rattle.lists.specs.Trusted.Lists.{Every};
ghost use Rattle.sheet.specs.Trusted.Answers.{drawn_sheet};
ghost use Rattle.sheet.specs.Trusted.Formed.{WellFormed};
ghost use Rattle.sheet.specs.Trusted.Sheet.{gate_of};
ghost use Rattle.joined.specs.Trusted.Joined.{chained as isChained};
ghost use Rattle.joined.specs.JoinedSheet.{joins_source};
ghost use Rattle.joiner_laws.specs.NoneJoined.{none_joined};

use gate_fanins::{fanin_count, fanins_of};
use sheet::{Edge, Sheet, Source};
use tree::{Kind, MOST_FANINS};

// Whether an edge between gates of these kinds is joined where there is room.
pub fn chained(inverted: bool, upper: Kind, lower: Kind) -> bool
    ensures { result ≡ isChained inverted upper lower }
{
    (upper == lower) != inverted
}

// Whether an edge of the sheet is joined that stands in a gate of this kind beside so many other fanins.
fn joins(sheet: &Sheet, kind: Kind, others: usize, edge: Edge) -> bool
    requires { WellFormed (drawn_sheet sheet.now) × Every (λ j. (1 ≤ j) × (j ≤ sheet.now.count)) (gate_of edge.source) × (others ≤ 1000) }
    ensures { result ≡ joins_source (drawn_sheet sheet.now).gates kind others edge.inverted edge.source }
{
    match edge.source {
        Source::Net(_) => false,
        Source::Gate(j) => {
            let lower = sheet.gates[j as usize - 1];
            chained(edge.inverted, kind, lower.kind) && others + fanin_count(lower) <= MOST_FANINS
        }
    }
}

// No edge of the sheet is joined, so that it is covered as it is (`none_joined_lem` in joiner_laws/specs/NoneJoinedLaws).
pub fn none_joined(sheet: Sheet) -> bool
    requires { WellFormed (drawn_sheet sheet) }
    ensures { result ≡ none_joined (drawn_sheet sheet).gates }
{
    for gate in &sheet.gates[..sheet.count as usize] {
        let fanins = fanins_of(*gate, &sheet.fanins);
        for edge in fanins {
            if joins(&sheet, gate.kind, fanins.len() - 1, *edge) {
                return false;
            }
        }
    }
    true
}
