// Mapping a sheet to lookup tables, gate by gate.
#![tactic(auto)]

ghost use Rattle.std.specs.Prelude.{◌≡◌, ◌+◌, ◌<◌, ◌≤◌, length};
ghost use Rattle.mapper_laws.specs.CodeMap.{most_tables, run_of, Staged, Sheetable, SheetMapped, flipped, driving, rooted};
ghost use Rattle.pending.specs.Merging.{Tabled};

use gate_fanins::{fanins_of, place_of};
use gate_mapper::fanin::{leaf, read_from};
use gate_mapper::gate::{gather, map_gate};
use gate_mapper::pair::map_pair;
use mapper_laws::{MOST_TABLES, Mapping};
use merge::inverted;
use pending::Lut;
use sheet::{MOST_GATES, Sheet};

// No tables.
pub fn no_tables() -> Mapping
    ensures { (result.count ≡ 0) × (length result.tables ≡ most_tables) }
{
    let none = pending::zero_lut();
    Mapping {
        count: 0,
        tables: [none; MOST_TABLES],
    }
}

// The tables staged after the others.
pub fn stage(mapping: &mut Mapping, tables: &[Lut])
    requires { mapping.old.count + length tables.now ≤ most_tables }
    ensures { Staged mapping.old (run_of tables.now) mapping.new }
{
    let start = mapping.count as usize;
    mapping.tables[start..start + tables.len()].copy_from_slice(tables);
    mapping.count += tables.len() as u8;
}

// The table with its value turned over, where the flag says so.
fn flip_if(flip: bool, table: Lut) -> Lut
    requires { Tabled table }
    ensures { result ≡ flipped flip table }
{
    if flip { inverted(table) } else { table }
}

// The root's table: it drives the output net, and has its value turned over where the flag says so.
fn root_table(out: u16, flip: bool, table: Lut) -> Lut
    requires { Tabled table }
    ensures { result ≡ driving out (flipped flip table) }
{
    let mut root = flip_if(flip, table);
    root.net = out;
    root
}

// The root's table after the others.
pub fn with_root(mut mapping: Mapping, out: u16, flip: bool, table: Lut) -> Mapping
    requires { (mapping.count < most_tables) × Tabled table }
    ensures { result ≡ rooted mapping out flip table }
{
    mapping.tables[mapping.count as usize] = root_table(out, flip, table);
    mapping.count += 1;
    mapping
}

// Maps a sheet to tables of at most k inputs, gate by gate, where so many tables stand before them.
// `SheetMapped`: after any tables of that count, those in the first `count` records are the tables of a least cover of the sheet, inputs
// before readers and the root's last, with zeros at the unused inputs.
pub fn map(sheet: Sheet, k: u8, used: u16) -> Mapping
    requires { Sheetable k used sheet }
    ensures { SheetMapped k used sheet result }
{
    let gates = sheet.count as usize;
    let mut held = [leaf(0); MOST_GATES];
    let mut mapping = no_tables();
    for g in 0..gates {
        let gate = sheet.gates[g];
        let first = used + mapping.count as u16;
        if let [low, high] = fanins_of(gate, &sheet.fanins) {
            let low_at = place_of(low.source);
            let high_at = place_of(high.source);
            let x = read_from(low.source, held[low_at]);
            let y = read_from(high.source, held[high_at]);
            let pair = map_pair(k, first, gate.kind, low.inverted, x, high.inverted, y);
            held[g] = pair.held;
            stage(&mut mapping, &pair.tables[..pair.placed as usize]);
        } else {
            let operands = gather(gate, &sheet.fanins, &held);
            let mapped = map_gate(k, first, gate.kind, operands);
            held[g] = mapped.held;
            stage(
                &mut mapping,
                &mapped.run.tables[..mapped.run.placed as usize],
            );
        }
    }
    let root = held[gates - 1];
    with_root(mapping, sheet.out, sheet.inverted, root.table)
}
