// Levels by an array that holds one for each code: the level of a record that follows others, and what is noted of it.
// table/specs/LevelTest defines it, and table/specs/LevelTestLaws has the proof that it stands for the records.
#![tactic(auto)]

ghost use Rattle.std.specs.Prelude.{◌≡◌, map, ℕ, ◌≤◌, ◌<◌, get_or, set, take};
ghost use Rattle.cover.specs.Trusted.Tables.{greatest};
ghost use Rattle.table.specs.Trusted.Limits.{table_room};
ghost use Rattle.table.specs.Trusted.Records.{reads};
ghost use Rattle.table.specs.LevelTest.{level_in, is_levelled_in, noted, noted_next};

use table::{Table, in_use};
use tree::CODE_BASE;

// The level of a code, 0 where the array has no place for it.
fn level_at(levels: &[u16], code: u16) -> u16
    ensures { result ≡ get_or levels.now code 0 }
{
    levels.get(usize::from(code)).copied().unwrap_or(0)
}

// The greatest level of the first n inputs.
fn greatest_level(levels: &[u16], inputs: [u16; 6], n: usize) -> u16
    requires { n ≤ 6 }
    ensures { result ≡ greatest (map (λ c. get_or levels.now c 0) (take n inputs)) }
{
    let mut most = 0;
    for &code in &inputs[..n] {
        most = level_at(levels, code).max(most);
    }
    most
}

// The code's level set, where the array has a place for it.
fn set_level(levels: &mut [u16], code: usize, level: u16)
    ensures { levels.new ≡ set levels.old code level }
{
    if code < levels.len() {
        levels[code] = level;
    }
}

// The level of table `at`, counted from 0, noted at its own code and at the net that it drives, if any.
fn note_level(levels: &mut [u16], at: usize, net: u16, level: u16)
    requires { at < table_room }
    ensures { levels.new ≡ noted levels.old at net level }
{
    set_level(levels, CODE_BASE as usize + at + 1, level);
    if net != 0 {
        set_level(levels, net as usize, level);
    }
}

// The level of table `at`, which drives the net and reads the first `count` inputs, by the levels of these: worked out and noted.
pub fn next_level(levels: &mut [u16], at: usize, net: u16, count: u8, inputs: [u16; 6]) -> u16
    requires { (at < table_room) × ((c : ℕ) → get_or levels.old c 0 ≤ table_room) }
    ensures { (result ≡ level_in levels.old (take count inputs)) × (levels.new ≡ noted_next levels.old at net (take count inputs)) }
{
    let level = greatest_level(levels, inputs, in_use(count)) + 1;
    note_level(levels, at, net, level);
    level
}

// Record `at` has the level that is worked out, which is noted.
pub fn is_levelled(levels: &mut [u16], at: usize, r: Table) -> bool
    requires { (at < table_room) × ((c : ℕ) → get_or levels.old c 0 ≤ table_room) }
    ensures { (result ≡ is_levelled_in levels.old r) × (levels.new ≡ noted_next levels.old at r.net (reads r)) }
{
    next_level(levels, at, r.net, r.count, r.inputs) == r.level
}
