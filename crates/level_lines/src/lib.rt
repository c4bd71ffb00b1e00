// The lines of a gate: what it can give at each bound on the level, from the greatest level of its nets on, as far as this changes.
#![tactic(auto)]

ghost use Rattle.std.specs.Prelude.{◌≡◌, true, ℕ, ◌+◌, ◌-◌, ◌*◌, ◌<◌, ◌≤◌, get_or, length};
ghost use Rattle.plan.specs.Limits.{masks};
ghost use Rattle.level_arrays.specs.Arrays.{big, FansGood, GreatestFan, fan_row, line_at, LinesKept};
ghost use Rattle.level_rows.specs.Runs.{RunWritten};
ghost use Rattle.level_lines.specs.Looked.{store_room, FanStored, FansStored, RowsLooked, SameRows};

use level_arrays::{ARRAY_ROOM, FANIN_ROOM, Fans, LevelRow, NONE, ROW_ROOM, STORE_ROOM};
use level_masks::like_masks;
use level_rows::{fill_like, lift, put_row};
use plan::MASKS;

// The line j of gate g, counted from 0.
fn line_row(store: &[u8; STORE_ROOM], g: u16, j: u16) -> LevelRow
    requires { (g < 255) × (j < 256) × (length store.now ≡ store_room) }
    ensures { (w : ℕ) → w ≤ 6 → get_or result.at w big ≡ line_at store.now g j w }
{
    let place = (g as usize * 256 + j as usize) * 6;
    let mut row = LevelRow {
        at: [NONE; ROW_ROOM],
    };
    row.at[1..7].copy_from_slice(&store[place..place + 6]);
    row
}

// The row of fanin h at a bound.
pub fn look(f: Fans, h: usize, bound: u16, store: &[u8; STORE_ROOM]) -> LevelRow
    requires { FanStored f h × (length store.now ≡ store_room) }
    ensures { (w : ℕ) → w ≤ 6 → get_or result.at w big ≡ fan_row store.now f bound h w }
{
    let level = f.levels[h];
    if bound < level {
        return LevelRow {
            at: [NONE; ROW_ROOM],
        };
    }
    let lines = f.lines[h];
    if lines == 0 {
        let mut row = LevelRow { at: [0; ROW_ROOM] };
        row.at[0] = NONE;
        return row;
    }
    let over = bound - level;
    line_row(store, f.gates[h], over.min(lines - 1))
}

// The rows of all fanins at a bound.
pub fn look_rows(f: Fans, bound: u16, store: &[u8; STORE_ROOM], rows: &mut [u8; FANIN_ROOM])
    requires { FansStored f × (length store.now ≡ store_room) × (length rows.old ≡ 80) }
    ensures { RowsLooked store.now f bound rows.old rows.new }
{
    for h in 0..f.count as usize {
        put_row(rows, h * 8, look(f, h, bound, store));
    }
}

// Keeps the row of a mask as line j of gate g.
fn keep_line(array: &[u8; ARRAY_ROOM], s: usize, g: usize, j: u16, store: &mut [u8; STORE_ROOM])
    requires { (s < masks) × (g < 255) × (j < 256) × (length array.now ≡ 8192) × (length store.old ≡ store_room) }
    ensures { RunWritten store.old store.new ((g * 256 + j) * 6) 6 (λ w. get_or array.now (s * 8 + (1 + w)) big) }
{
    let place = (g * 256 + j as usize) * 6;
    store[place..place + 6].copy_from_slice(&array[s * 8 + 1..s * 8 + 7]);
}

// The bound from which on no fanin's row changes.
fn last_change(f: Fans) -> u16
    requires { (f.count ≤ 10) × (length f.levels ≡ 10) × (length f.lines ≡ 10) × ((h : ℕ) → h < f.count → (get_or f.levels h 0 ≤ 2000) × (get_or f.lines h 0 ≤ 256)) }
    ensures { ((h : ℕ) → h < f.count → get_or f.levels h 0 + (get_or f.lines h 0 - 1) ≤ result) × (result ≤ 2255) }
{
    let mut last: u16 = 0;
    for h in 0..f.count as usize {
        last = last.max(f.levels[h] + f.lines[h].saturating_sub(1));
    }
    last
}

// Whether the first masks have the same rows in two arrays.
fn same_rows(x: &[u8; ARRAY_ROOM], y: &[u8; ARRAY_ROOM], end: usize) -> bool
    requires { (end ≤ masks) × (length x.now ≡ 8192) × (length y.now ≡ 8192) }
    ensures { result ≡ true → SameRows x.now y.now (end * 8) }
{
    x[..end * 8] == y[..end * 8]
}

// Copies the rows of the first masks.
fn copy_rows(array: &[u8; ARRAY_ROOM], end: usize, copy: &mut [u8; ARRAY_ROOM])
    requires { (end ≤ masks) × (length array.now ≡ 8192) × (length copy.old ≡ 8192) }
    ensures { RunWritten copy.old copy.new 0 (end * 8) (λ i. get_or array.now i big) }
{
    copy[..end * 8].copy_from_slice(&array[..end * 8]);
}

// Whether the search stands still at a bound: `one` is its entry for one input, x the array of the bound before and y its own.
fn stands_still(
    one: u8,
    bound: u16,
    change: u16,
    x: &[u8; ARRAY_ROOM],
    y: &[u8; ARRAY_ROOM],
    end: usize,
) -> bool
    requires { (end ≤ masks) × (length x.now ≡ 8192) × (length y.now ≡ 8192) }
    ensures { result ≡ true → (one < big) × (change < bound) × SameRows x.now y.now (end * 8) }
{
    one != NONE && change < bound && same_rows(x, y, end)
}

// Finds the lines of gate g, whose fanins' nets have the greatest level a, and gives their number.
pub fn gate_lines(k: u8, f: Fans, a: u16, g: usize, store: &mut [u8; STORE_ROOM]) -> u16
    requires { FansGood k g f × (g < 255) × GreatestFan f a × (length store.old ≡ store_room) }
    ensures { LinesKept k g f store.old store.new a result }
{
    let n = f.count as usize;
    let steps = f.count as u16 - 1;
    let change = last_change(f);
    let mut rows = [NONE; FANIN_ROOM];
    let mut own = [NONE; MASKS];
    let mut like: [u16; MASKS] = [0; MASKS];
    like_masks(f, &mut like);
    let mut array = [NONE; ARRAY_ROOM];
    let mut before = [NONE; ARRAY_ROOM];
    for bound in a.saturating_sub(steps)..a + 256 {
        look_rows(f, bound, store, &mut rows);
        let end = fill_like(k, n, &rows, &own, &like, &mut array, 0);
        lift(k, end, &array, 0, &mut own);
        if bound >= a {
            let line = bound - a;
            keep_line(&array, end - 1, g, line, store);
            let one = array[(end - 1) * 8 + 1];
            if one <= line as u8 || stands_still(one, bound, change, &before, &array, end) {
                return line + 1;
            }
        }
        copy_rows(&array, end, &mut before);
    }
    256
}
