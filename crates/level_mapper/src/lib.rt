// Mapping a sheet to the fewest levels, and among those to the fewest tables: the lines of every gate, then a plan for each, from the last gate on, and the run of the
// plans.
#![tactic(auto)]

ghost use Rattle.mapper_laws.specs.CodeMap.{Sheetable};
ghost use Rattle.level_sheets.specs.Lined.{net_level};
ghost use Rattle.level_mapping.specs.FastMapping.{NetsLow, LinesFound, LineRooms, PlansChosen, FastMapped};

use level_arrays::{ARRAYS_ROOM, NONE, STORE_ROOM};
use level_fans::{ask, gather_fans};
use level_plans::gate_plan;
use mapper_laws::Mapping;
use plan::{Key, Plan};
use plan_runner::map_by_plans;
use search::blank;
use sheet::{MOST_GATES, Sheet};
use sheet_lines::{find_lines, first_line};

// Reads back a plan for each gate, from the root on, of which the least level and then the fewest tables are asked.
fn choose_plans<'a>(
    sheet: Sheet,
    k: u8,
    levels: &'a [u16],
    starts: &'a [u16; MOST_GATES],
    counts: &'a [u16; MOST_GATES],
    store: &'a [u8; STORE_ROOM],
) -> [Plan; MOST_GATES]
    requires { NetsLow k sheet levels.now × LinesFound k sheet levels.now starts.now counts.now store.now × LineRooms starts.now counts.now store.now }
    ensures { PlansChosen k sheet levels.now result }
{
    let gates = sheet.count as usize;
    let last = gates - 1;
    let none = blank(Key { below: 0, width: 0 });
    let mut plans = [none; MOST_GATES];
    let mut bounds = [0u16; MOST_GATES];
    let mut inputs = [0u8; MOST_GATES];
    bounds[last] = starts[last] + first_line(k, last, counts[last], store);
    inputs[last] = k;
    let mut arrays = [NONE; ARRAYS_ROOM];
    for g in (0..gates).rev() {
        let fans = gather_fans(sheet.gates[g], &sheet.fanins, levels, starts, counts);
        let draft = gate_plan(k, fans, bounds[g], inputs[g], store, &mut arrays);
        plans[g] = draft.plan;
        ask(fans, draft, &mut bounds, &mut inputs);
    }
    plans
}

// Maps a sheet to tables of at most k inputs, where so many tables stand before them and the nets have these levels.
// `FastMapped`: after any tables of that count, those in the first `count` records are the tables of a cover of the sheet, inputs before readers and
// the root's last, with zeros at the unused inputs; no cover has a lower root level, and of those with that level none has fewer tables.
pub fn map_fast(sheet: Sheet, k: u8, used: u16, levels: &[u16]) -> Mapping
    requires { Sheetable k used sheet × NetsLow k sheet levels.now }
    ensures { FastMapped k used (net_level levels.now) sheet result }
{
    let mut starts = [0u16; MOST_GATES];
    let mut counts = [0u16; MOST_GATES];
    let mut store = [NONE; STORE_ROOM];
    find_lines(sheet, k, levels, &mut starts, &mut counts, &mut store);
    let plans = choose_plans(sheet, k, levels, &starts, &counts, &store);
    map_by_plans(sheet, k, used, plans)
}
