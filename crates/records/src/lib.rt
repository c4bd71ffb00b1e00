// The rules of a run of records that is lent: the first bad one.
#![tactic(auto)]

ghost use Rattle.std.specs.Prelude.{◌≡◌, ◌≤◌, [], map, take, IsOk};
ghost use Rattle.table.specs.Trusted.Limits.{table_room};
ghost use Rattle.table.specs.Trusted.Records.{table_of};
ghost use Rattle.table.specs.Trusted.RecordTest.{tested, walk};
ghost use Rattle.table.specs.LevelTest.{no_levels, LevelsStand};
ghost use Rattle.records.specs.RunTest.{verdict_of};

use table::{CODE_ROOM, INPUT_ROOM, TABLE_ROOM, Table};
use table_levels::is_levelled;
use table_prefix::{after, empty_prefix};
use table_rules::keeps_points;

// Why a run of records is refused: K or the capacity is out of range, or this is the first bad record, counted from 1.
// RunTest in specs/ gives the refusals' numbers.
#[derive(Clone, Copy, Debug, PartialEq, Eq)]
pub enum RunError {
    KOutOfRange,
    CapacityOutOfRange,
    BadRecord(usize),
}

// The records keep the rules, and no more are there than the capacity says. Their levels are worked out on the way, from zeros.
pub fn test_rules(run: &[Table], k: u8, capacity: u16, levels: &mut [u16]) -> Result<(), RunError>
    requires room { capacity ≤ table_room }
    requires zeros { levels.old ≡ no_levels }
    ensures verdict { verdict_of result ≡ walk k capacity [] run.now }
    ensures levels { IsOk result → LevelsStand levels.new (map table_of run.now) }
{
    let mut prefix = empty_prefix();
    for (at, &t) in run.iter().enumerate() {
        let bad = Err(RunError::BadRecord(at + 1));
        if at >= usize::from(capacity) || !keeps_points(prefix, k, t) {
            return bad;
        }
        let levelled = is_levelled(levels, at, t);
        if !levelled {
            return bad;
        }
        prefix = after(prefix, t);
    }
    Ok(())
}

// The run's first bad record: the first at which the run up to and including it breaks a rule or is longer than the capacity. K is
// tested before the capacity, and that before the records.
pub fn first_bad(run: &[Table], k: u32, capacity: u32) -> Result<(), RunError>
    ensures { verdict_of result ≡ tested k capacity run.now }
{
    if !(2..=INPUT_ROOM).contains(&k) {
        return Err(RunError::KOutOfRange);
    }
    if !(1..=TABLE_ROOM).contains(&capacity) {
        return Err(RunError::CapacityOutOfRange);
    }
    test_rules(run, k as u8, capacity as u16, &mut [0; CODE_ROOM])
}

// The same of the first `count` records, or of all where there are no more.
pub fn first_bad_of(
    records: [Table; 16],
    count: usize,
    k: u32,
    capacity: u32,
) -> Result<(), RunError>
    ensures { verdict_of result ≡ tested k capacity (take count records) }
{
    first_bad(&records[..count.min(16)], k, capacity)
}
