// The gates of a sheet: their lines, from the first to the last, and the first gate that is never read.
#![tactic(auto)]

ghost use Rattle.std.specs.Prelude.{◌≤◌, length};
ghost use Rattle.sheet_gates.specs.Gates.{GatesRead, UnreadFound};

use flags::flag;
use sheet::{Edge, FANIN_ROOM, Gate, MOST_GATES, SheetError, Source, at_line};
use sheet_fanin::{FLAG_WORDS, read_fanin, with_leaf};
use sheet_line::read_gate_line;
use tree::Kind;

// The lines of gates that were read: the gates, their fanins, the place after them, and a flag raised for each number that was a fanin.
#[derive(Clone, Copy)]
pub struct Lines {
    pub end: usize,
    pub gates: [Gate; MOST_GATES],
    pub fanins: [Edge; FANIN_ROOM],
    pub seen: [u64; FLAG_WORDS],
}

// The lines of so many gates, from a place on.
pub fn gate_lines(text: &[u8], start: usize, out: u16, count: u8) -> Result<Lines, SheetError>
    requires { start ≤ length text.now }
    ensures { GatesRead text.now start out count result }
{
    let no_gate = Gate {
        kind: Kind::And,
        count: 0,
        first: 0,
    };
    let mut gates = [no_gate; MOST_GATES];
    let no_fanin = Edge {
        inverted: false,
        source: Source::Net(0),
    };
    let mut fanins = [no_fanin; FANIN_ROOM];
    let mut used: usize = 0;
    let mut seen = [0u64; FLAG_WORDS];
    let mut leaves: u16 = 0;
    let mut end = start;
    // a faulty line or fanin ends both loops
    let mut fault = None;
    'lines: for g in 0..count as usize {
        let gate = g as u16 + 1;
        let line = match at_line(read_gate_line(text, end), gate + 1) {
            Ok(line) => line,
            Err(error) => {
                fault = Some(error);
                break 'lines;
            }
        };
        for i in 0..line.count as usize {
            let x = line.numbers[i + 2];
            let fanin = read_fanin(&mut seen, leaves, out, gate, x.magnitude);
            let source = match at_line(fanin, gate + 1) {
                Ok(source) => source,
                Err(error) => {
                    fault = Some(error);
                    break 'lines;
                }
            };
            let at = used + i;
            fanins[at] = Edge {
                inverted: x.sign != 0,
                source,
            };
            leaves = with_leaf(leaves, source);
        }
        gates[g] = Gate {
            kind: line.kind,
            count: line.count,
            first: used as u16,
        };
        used += line.count as usize;
        end = line.end;
    }
    match fault {
        None => Ok(Lines {
            end,
            gates,
            fanins,
            seen,
        }),
        Some(error) => Err(error),
    }
}

// The line of the first gate that is never read, the root left aside.
pub fn first_unread(seen: &[u64], count: u8) -> Option<u16>
    ensures { UnreadFound seen.now count result }
{
    let base = tree::CODE_BASE as usize;
    for g in 1..count as usize {
        if !flag(seen, base + g) {
            return Some(g as u16 + 1);
        }
    }
    None
}
