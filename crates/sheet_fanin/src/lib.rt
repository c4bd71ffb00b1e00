// One fanin of a gate: what it reads, or why it is refused.
#![tactic(auto)]

ghost use Rattle.std.specs.Prelude.{◌≡◌, ◌+◌, ◌≤◌, length};
ghost use Rattle.sheet.specs.Trusted.Answers.{found};
ghost use Rattle.sheet.specs.Trusted.Read.{source_of};
ghost use Rattle.sheet.specs.Trusted.Limits.{most_gates, most_leaves};
ghost use Rattle.sheet.specs.Trusted.Sheet.{net_of};
ghost use Rattle.sheet_fanin.specs.Fanins.{flags_after, FaninRead};

use flags::{flag, raise};
use lists::within;
use sheet::{MOST_GATES, MOST_LEAVES, Refusal, Source};

// The words that hold a flag for each number that a fanin may be written as.
pub const FLAG_WORDS: usize = (tree::CODE_BASE as usize + MOST_GATES) / 64 + 1;

// What a fanin of a gate is written as: a net, or an earlier gate.
fn source_of(gate: u16, code: u32) -> Option<Source>
    requires { gate ≤ most_gates }
    ensures { source_of gate code ≡ found result }
{
    if within(1, tree::GREATEST_NET as u32, code) {
        return Some(Source::Net(code as u16));
    }
    let base = tree::CODE_BASE as u32;
    if code <= base {
        return None;
    }
    if base + gate as u32 <= code {
        return None;
    }
    Some(Source::Gate((code - base) as u16))
}

// A fanin of a gate, where `seen` has a flag raised for each number that was a fanin before.
fn fanin_of(seen: &[u64], leaves: u16, out: u16, gate: u16, code: u32) -> Result<Source, Refusal>
    requires { gate ≤ most_gates }
    ensures { FaninRead seen.now leaves out gate code result }
{
    let Some(source) = source_of(gate, code) else {
        return Err(Refusal::NoSource);
    };
    let twice = flag(seen, code as usize);
    match source {
        Source::Gate(_) => {
            if twice {
                return Err(Refusal::GateTwice);
            }
        }
        Source::Net(n) => {
            if twice {
                return Err(Refusal::NetTwice);
            }
            if n == out {
                return Err(Refusal::OutputLeaf);
            }
            if MOST_LEAVES <= leaves {
                return Err(Refusal::LeafCount);
            }
        }
    }
    Ok(source)
}

// The same, and where it is accepted its flag is raised.
pub fn read_fanin(
    seen: &mut [u64],
    leaves: u16,
    out: u16,
    gate: u16,
    code: u32,
) -> Result<Source, Refusal>
    requires { gate ≤ most_gates }
    ensures { FaninRead seen.old leaves out gate code result × (seen.new ≡ flags_after seen.old code result) }
{
    let source = fanin_of(seen, leaves, out, gate, code)?;
    raise(seen, code as usize);
    Ok(source)
}

// The number of leaves with what one more fanin reads.
pub fn with_leaf(leaves: u16, source: Source) -> u16
    requires { leaves ≤ most_leaves }
    ensures { result ≡ leaves + length (net_of source) }
{
    match source {
        Source::Net(_) => leaves + 1,
        Source::Gate(_) => leaves,
    }
}
