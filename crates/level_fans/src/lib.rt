// The fanins of a gate in the search for the fewest levels: gathered from the sheet, and what a draft asks of the gates that they read.
#![tactic(auto)]

ghost use Rattle.std.specs.Prelude.{◌≡◌, ◌<◌, ◌≤◌, length};
ghost use Rattle.sheet.specs.Trusted.Answers.{drawn_gate};
ghost use Rattle.level_arrays.specs.Arrays.{GreatestFan};
ghost use Rattle.level_sheets.specs.Lined.{FansOf, FansReach, net_level};
ghost use Rattle.level_sheets.specs.Asking.{AskedOf};
ghost use Rattle.level_fans.specs.FanSteps.{with_fan, CanAsk};

use gate_fanins::fanins_of;
use level_arrays::{Draft, Fans};
use sheet::{Edge, FANIN_ROOM, Gate, MOST_GATES, Source};

// One fanin more.
fn with_fan(mut fans: Fans, level: u16, lines: u16, gate: u16) -> Fans
    requires { fans.count < 10 }
    ensures { result ≡ with_fan fans level lines gate }
{
    let at = fans.count as usize;
    fans.levels[at] = level;
    fans.lines[at] = lines;
    fans.gates[at] = gate;
    fans.count += 1;
    fans
}

// The fanins of a gate, among its sheet's, where the nets have these levels, and the gates before it start at these levels and have so many lines.
pub fn gather_fans<'a>(
    gate: Gate,
    fanins: &'a [Edge; FANIN_ROOM],
    levels: &'a [u16],
    starts: &'a [u16; MOST_GATES],
    counts: &'a [u16; MOST_GATES],
) -> Fans
    requires { FansReach fanins.now gate levels.now }
    ensures { FansOf (net_level levels.now) starts.now counts.now (drawn_gate fanins.now gate).fanins result }
{
    let mut fans = Fans {
        count: 0,
        levels: [0; 10],
        lines: [0; 10],
        gates: [0; 10],
    };
    for edge in fanins_of(gate, fanins) {
        match edge.source {
            Source::Net(n) => {
                fans = with_fan(fans, levels[n as usize], 0, 0);
            }
            Source::Gate(g) => {
                let at = g as usize - 1;
                fans = with_fan(fans, starts[at], counts[at], g - 1);
            }
        }
    }
    fans
}

// The greatest level of a net under the fanins.
pub fn greatest_level(f: Fans) -> u16
    requires { (1 ≤ f.count) × (f.count ≤ 10) × (length f.levels ≡ 10) }
    ensures { GreatestFan f result }
{
    let mut greatest = f.levels[0];
    for h in 1..f.count as usize {
        greatest = greatest.max(f.levels[h]);
    }
    greatest
}

// Writes down what a draft asks of the gates that the fanins read.
pub fn ask(f: Fans, draft: Draft, bounds: &mut [u16; MOST_GATES], inputs: &mut [u8; MOST_GATES])
    requires { CanAsk f draft }
    ensures { AskedOf f draft bounds.old inputs.old bounds.new inputs.new }
{
    for h in 0..f.count as usize {
        if f.lines[h] > 0 {
            let at = f.gates[h] as usize;
            bounds[at] = draft.bounds[h];
            inputs[at] = draft.inputs[h];
        }
    }
}
