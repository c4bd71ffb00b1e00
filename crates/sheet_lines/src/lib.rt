// The lines of a sheet's gates in the search for the fewest levels, from the first gate on; and the line of the root that tells the least level.
#![tactic(auto)]

ghost use Rattle.level_mapping.specs.FastMapping.{NetsLow, LinesFound, LineRooms, FirstLine, FirstLineHad};

use level_arrays::{NONE, STORE_ROOM};
use level_fans::{gather_fans, greatest_level};
use level_lines::gate_lines;
use sheet::{MOST_GATES, Sheet};

// Finds the lines of each gate, from its fanins'.
pub fn find_lines(
    sheet: Sheet,
    k: u8,
    levels: &[u16],
    starts: &mut [u16; MOST_GATES],
    counts: &mut [u16; MOST_GATES],
    store: &mut [u8; STORE_ROOM],
)
    requires { NetsLow k sheet levels.now × LineRooms starts.old counts.old store.old }
    ensures { LinesFound k sheet levels.now starts.new counts.new store.new × LineRooms starts.new counts.new store.new }
{
    for g in 0..sheet.count as usize {
        let fans = gather_fans(sheet.gates[g], &sheet.fanins, levels, starts, counts);
        let level = greatest_level(fans);
        let lines = gate_lines(k, fans, level, g, store);
        starts[g] = level;
        counts[g] = lines;
    }
}

// The first line of gate g, of so many, that has an entry for k inputs.
pub fn first_line(k: u8, g: usize, count: u16, store: &[u8; STORE_ROOM]) -> u16
    requires { FirstLineHad k g count store.now }
    ensures { FirstLine k g count store.now result }
{
    let width = k as usize;
    let last = count - 1;
    for j in 0..last {
        let place = (g * 256 + j as usize) * 6 + (width - 1);
        if store[place] < NONE {
            return j;
        }
    }
    last
}
