// Mapping a sheet to lookup tables by given plans, one for each gate.
#![tactic(auto)]

ghost use Rattle.std.specs.Prelude.{ℕ, List};
ghost use Rattle.levels.specs.Demands.{Demand};
ghost use Rattle.sheet.specs.Trusted.Answers.{drawn_sheet};
ghost use Rattle.mapper_laws.specs.CodeMap.{Sheetable};
ghost use Rattle.level_mapping.specs.PlanMapped.{MappedWithin};
ghost use Rattle.level_sheets.specs.PlansMeet.{PlansMeet, last_demand};

use gate_mapper::fanin::leaf;
use gate_mapper::gate::{gather, run_gate};
use mapper::{no_tables, stage, with_root};
use mapper_laws::Mapping;
use plan::Plan;
use sheet::{MOST_GATES, Sheet};

// Maps a sheet to tables of at most k inputs, each gate by its plan, where so many tables stand before them. The plans meet some demands.
// `MappedWithin`: after any tables of that count, those in the first `count` records are the tables of a cover of the sheet, inputs before readers and
// the root's last, with zeros at the unused inputs; and whatever demands the plans meet, the cover is within the root's.
pub fn map_by_plans(sheet: Sheet, k: u8, used: u16, plans: [Plan; 255]) -> Mapping
    requires { Sheetable k used sheet × ((lev : ℕ → ℕ) × (ds : List Demand) × PlansMeet k lev ds (drawn_sheet sheet).gates plans) }
    ensures { (lev : ℕ → ℕ) (ds : List Demand) → PlansMeet k lev ds (drawn_sheet sheet).gates plans → MappedWithin k used lev (last_demand ds).bound (last_demand ds).below sheet result }
{
    let gates = sheet.count as usize;
    let mut held = [leaf(0); MOST_GATES];
    let mut mapping = no_tables();
    for g in 0..gates {
        let gate = sheet.gates[g];
        let first = used + mapping.count as u16;
        let operands = gather(gate, &sheet.fanins, &held);
        let mapped = run_gate(first, gate.kind, operands, plans[g]);
        held[g] = mapped.held;
        stage(
            &mut mapping,
            &mapped.run.tables[..mapped.run.placed as usize],
        );
    }
    let root = held[gates - 1];
    with_root(mapping, sheet.out, sheet.inverted, root.table)
}
