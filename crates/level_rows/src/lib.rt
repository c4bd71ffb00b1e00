// The array of the search for the fewest levels at one bound: for each set of a gate's fanins a row, which has for each number of inputs the fewest
// tables below.
#![tactic(auto)]

ghost use Rattle.std.specs.Prelude.{◌≡◌, ℕ, ◌+◌, ◌*◌, ◌^◌, ◌<◌, ◌≤◌, get_or, length};
ghost use Rattle.plan.specs.Limits.{masks};
ghost use Rattle.level_arrays.specs.Arrays.{big, Searchable, ArrayFilled, own_above};
ghost use Rattle.level_arrays.specs.Alike.{Likened};
ghost use Rattle.level_rows.specs.Sums.{LeastSum, RowOfMask, RowOrLike};
ghost use Rattle.level_rows.specs.Runs.{RunWritten};

use level_arrays::{FANIN_ROOM, LevelRow, NONE, ROW_ROOM};
use plan::MASKS;

// The least of a number and of the sums of two entries for w inputs in all, of the rows at two places.
fn least_sum(w: usize, most: u8, arrays: &[u8], x: usize, y: usize) -> u8
    requires { (2 ≤ w) × (w ≤ 6) × (x + 8 ≤ length arrays.now) × (y + 8 ≤ length arrays.now) }
    ensures { LeastSum arrays.now x y w w most result }
{
    // NONE is the greatest byte: a sum past it is no less
    let mut least = most;
    for i in 1..w {
        least = least.min(arrays[x + i].saturating_add(arrays[y + (w - i)]));
    }
    least
}

// The row, lowered to the sums of the rows at two places.
fn lowered(k: u8, mut row: LevelRow, arrays: &[u8], x: usize, y: usize) -> LevelRow
    requires { (k ≤ 6) × (x + 8 ≤ length arrays.now) × (y + 8 ≤ length arrays.now) }
    ensures { (w : ℕ) → w ≤ k → LeastSum arrays.now x y w w (get_or row.at w big) (get_or result.at w big) }
{
    for w in 2..k as usize + 1 {
        row.at[w] = least_sum(w, row.at[w], arrays, x, y);
    }
    row
}

// The row of the mask top + r, top being its highest bit: the least of own, that of a table of its own, and of the sums over the submasks of r.
fn best_row(k: u8, top: usize, r: usize, own: u8, arrays: &[u8], at: usize) -> LevelRow
    requires { (k ≤ 6) × (top + r < masks) × (at + 8192 ≤ length arrays.now) }
    ensures { RowOfMask k arrays.now at top r own result.at }
{
    let s = top + r;
    let mut row = LevelRow {
        at: [own; ROW_ROOM],
    };
    row.at[0] = NONE;
    let mut u = r;
    while u > 0 {
        row = lowered(k, row, arrays, at + (s - u) * 8, at + u * 8);
        u = (u - 1) & r;
    }
    row
}

// Writes a row at a place.
pub fn put_row(arrays: &mut [u8], place: usize, row: LevelRow)
    requires { place + 8 ≤ length arrays.old }
    ensures { RunWritten arrays.old arrays.new place 8 (λ w. get_or row.at w big) }
{
    arrays[place..place + ROW_ROOM].copy_from_slice(&row.at);
}

// Fills the array that starts at a place, at every mask of n fanins, in rising order, from the fanins' rows and from the entries of a table of its own for
// each mask; and gives the number past the last mask.
pub fn fill(
    k: u8,
    n: usize,
    rows: &[u8; FANIN_ROOM],
    own: &[u8; MASKS],
    arrays: &mut [u8],
    at: usize,
) -> usize
    requires { Searchable k n × (length rows.now ≡ 80) × (length own.now ≡ masks) × (at + 8192 ≤ length arrays.old) }
    ensures { (result ≡ 2 ^ n) × ArrayFilled k n (λ h w. get_or rows.now (h * 8 + w) big) (λ s. get_or own.now s big) arrays.new at (2 ^ n) × (length arrays.new ≡ length arrays.old) × ((i : ℕ) → i < at → get_or arrays.new i big ≡ get_or arrays.old i big) }
{
    let mut like: [u16; MASKS] = [0; MASKS];
    for s in 0..1 << n {
        like[s] = s as u16;
    }
    fill_like(k, n, rows, own, &like, arrays, at)
}

// The row at a place.
fn row_at(arrays: &[u8], place: usize) -> LevelRow
    requires { place + 8 ≤ length arrays.now }
    ensures { (w : ℕ) → w < 8 → get_or result.at w big ≡ get_or arrays.now (place + w) big }
{
    let mut row = LevelRow {
        at: [NONE; ROW_ROOM],
    };
    row.at.copy_from_slice(&arrays[place..place + ROW_ROOM]);
    row
}

// The row of the mask top + r, top being its highest bit, to which the mask t is alike: that of t, if t is a smaller one.
fn mask_row(k: u8, top: usize, r: usize, t: u16, own: u8, arrays: &[u8], at: usize) -> LevelRow
    requires { (k ≤ 6) × (top + r < masks) × (at + 8192 ≤ length arrays.now) }
    ensures { RowOrLike k arrays.now at top r t own result.at }
{
    let t = t as usize;
    if t < top + r {
        return row_at(arrays, at + t * 8);
    }
    best_row(k, top, r, own, arrays, at)
}

// The same as `fill`, with a mask for each that is alike to it: fills the array that starts at a place, at every mask of n fanins, in rising order, from the fanins' rows and from the entries of a table of its own for
// each mask; and gives the number past the last mask. A mask that is alike to a smaller one has its row.
pub fn fill_like(
    k: u8,
    n: usize,
    rows: &[u8; FANIN_ROOM],
    own: &[u8; MASKS],
    like: &[u16; MASKS],
    arrays: &mut [u8],
    at: usize,
) -> usize
    requires { Searchable k n × (length rows.now ≡ 80) × (length own.now ≡ masks) × (at + 8192 ≤ length arrays.old) × (length like.now ≡ masks) × Likened k n (λ h w. get_or rows.now (h * 8 + w) big) (λ s. get_or own.now s big) like.now }
    ensures { (result ≡ 2 ^ n) × ArrayFilled k n (λ h w. get_or rows.now (h * 8 + w) big) (λ s. get_or own.now s big) arrays.new at (2 ^ n) × (length arrays.new ≡ length arrays.old) × ((i : ℕ) → i < at → get_or arrays.new i big ≡ get_or arrays.old i big) }
{
    let mut h: usize = 0;
    let mut top: usize = 0;
    let mut next: usize = 1;
    let end = 1 << n;
    for s in 1..end {
        if s == next {
            put_row(arrays, at + s * 8, row_at(rows, h * 8));
            h += 1;
            top = s;
            next = s + s;
        } else {
            let row = mask_row(k, top, s - top, like[s], own[s], arrays, at);
            put_row(arrays, at + s * 8, row);
        }
    }
    end
}

// The entries of a table of its own for each mask below end, one bound higher than the array at a place.
pub fn lift(k: u8, end: usize, arrays: &[u8], at: usize, own: &mut [u8; MASKS])
    requires { (k ≤ 6) × (end ≤ masks) × (length own.old ≡ masks) × (at + 8192 ≤ length arrays.now) }
    ensures { (length own.new ≡ masks) × ((s : ℕ) → s < end → get_or own.new s big ≡ own_above k arrays.now at s) }
{
    // NONE is the greatest byte, and stays
    for s in 0..end {
        own[s] = arrays[at + s * 8 + k as usize].saturating_add(1);
    }
}
