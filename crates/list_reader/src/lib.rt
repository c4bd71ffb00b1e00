// Reading a list back: the part that it was written from, or the first thing wrong with it.
#![tactic(auto)]

ghost use Rattle.std.specs.Prelude.{◌≡◌, ◌≤◌, length, drop};
ghost use Rattle.table.specs.Trusted.Limits.{table_room};
ghost use Rattle.part.specs.Trusted.Answers.{empty as emptyPart};
ghost use Rattle.list_reading.specs.Trusted.ReadList.{read_list, read_result};
ghost use Rattle.list_reading.specs.Trusted.ListAnswers.{list_result};
ghost use Rattle.list_reading.specs.LoopLaws.{rest_read};

use list_line_reader::{read_table, read_top};
use list_reading::{ListAnswer, ListRead};
use lists::within;
use part::empty;
use table::{CODE_ROOM, INPUT_ROOM, TABLE_ROOM};
use table_levels::next_level;
use table_prefix::{after, empty_prefix};
use table_rules::keeps_points;

// The bytes of line 0: three fields and the line feed.
const TOP: usize = 19;

// All zeros, and why the list is refused.
fn refused(answer: ListAnswer) -> ListRead
    ensures { result ≡ record { part = emptyPart 0 0; answer = answer } }
{
    ListRead {
        part: empty(0, 0),
        answer,
    }
}

// The lines of the tables, of a list whose line 0 is good. On a line the layout is tested first, and then the rules. No line says a level:
// each is worked out.
fn read_tables(text: &[u8], k: u8, capacity: u16, used: u16) -> ListRead
    requires { (used ≤ table_room) × (19 ≤ length text.now) }
    ensures { list_result result ≡ read_result (rest_read k capacity used (drop 19 text.now)) }
{
    let mut part = empty(k, capacity);
    let mut prefix = empty_prefix();
    let mut levels = [0u16; CODE_ROOM];
    let mut at = TOP;
    for t in 0..used {
        let line = t + 1;
        let Some(read) = read_table(text, at, line) else {
            return refused(ListAnswer::NotLaidOut(line));
        };
        let mut r = read.table;
        if !keeps_points(prefix, k, r) {
            return refused(ListAnswer::RuleBroken(line));
        }
        prefix = after(prefix, r);
        let inputs = r.inputs;
        let level = next_level(&mut levels, t as usize, r.net, r.count, inputs);
        r.level = level;
        part.tables[t as usize] = r;
        at = read.end;
    }
    if at < text.len() {
        let left_over = used + 1;
        return refused(ListAnswer::NotLaidOut(left_over));
    }
    part.used = used;
    ListRead {
        part,
        answer: ListAnswer::Accepted,
    }
}

// Reads a list: the part, or all zeros and the refusal of the first bad line. Accepted are exactly the lists of sound parts.
pub fn read_list(text: &[u8]) -> ListRead
    ensures { list_result result ≡ read_result (read_list text.now) }
{
    let Some(top) = read_top(text) else {
        return refused(ListAnswer::NotLaidOut(0));
    };
    let k = top.k;
    let capacity = top.capacity;
    let used = top.used;
    if !within(2, INPUT_ROOM, k) {
        return refused(ListAnswer::KOutOfRange);
    }
    if !within(1, TABLE_ROOM, capacity) {
        return refused(ListAnswer::CapacityOutOfRange);
    }
    if used > capacity {
        return refused(ListAnswer::RuleBroken(0));
    }
    read_tables(text, k as u8, capacity as u16, used as u16)
}
