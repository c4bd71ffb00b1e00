// The plan of a gate that is to give so many inputs of a level within a bound: read back from the arrays of the search, with what each of its fanins is to
// give.
#![tactic(auto)]

ghost use Rattle.std.specs.Prelude.{◌≡◌, ◌^◌, ◌≤◌, ◌<◌, get_or, length};
ghost use Rattle.plan.specs.Limits.{masks, most_steps};
ghost use Rattle.plan.specs.Entries.{OneBit};
ghost use Rattle.plan.specs.declared.Token.TheVariants.{Join as join_of};
ghost use Rattle.level_arrays.specs.Arrays.{big, start_at};
ghost use Rattle.level_rows.specs.Runs.{RunWritten};
ghost use Rattle.level_lines.specs.Looked.{store_room, FansStored};
ghost use Rattle.level_plans.specs.Backing.{arrays_room, array_room, HighestBit, RowPair, InputsOf, SumOf, Halvable, Seekable, Sought, draft_stepped, DraftTook, SomeBacked, Drafts};
ghost use Rattle.level_plans.specs.Ranges.{SinglesPut, RangeStarted, RangeFillable, RangeFilled, empty_draft, PlanAsked, GatePlanned};

use level_arrays::{ARRAY_ROOM, ARRAYS_ROOM, Draft, FANIN_ROOM, Fans, NONE, STORE_ROOM};
use level_lines::{look, look_rows};
use level_masks::like_masks;
use level_rows::{fill_like, lift, put_row};
use plan::{Key, MASKS, Token};
use search::{bit_number, blank, with_step};

// The highest bit of a mask.
fn top_bit(s: usize) -> usize
    requires { (0 < s) × (s < masks) }
    ensures { HighestBit s result }
{
    1 << (63 - s.leading_zeros())
}

// The entry at a place of the arrays.
fn entry_at(arrays: &[u8; ARRAYS_ROOM], place: usize) -> u16
    requires { (length arrays.now ≡ arrays_room) × (place < arrays_room) }
    ensures { (result ≡ get_or arrays.now place big) × (result ≤ big) }
{
    arrays[place] as u16
}

// The inputs of the first of two rows, with those of the second w in all, by which their entries have the sum e, if there are such.
fn split_inputs(w: usize, e: u16, arrays: &[u8; ARRAYS_ROOM], x: usize, y: usize) -> Option<usize>
    requires { RowPair arrays.now w x y }
    ensures { InputsOf arrays.now w e x y result }
{
    for i in 1..w {
        if entry_at(arrays, x + i) + entry_at(arrays, y + (w - i)) == e {
            return Some(i);
        }
    }
    None
}

// How a mask's entry is made: the submask that is one operand, and the inputs that the other one, the rest, gives at most.
#[derive(Clone, Copy)]
struct Halves {
    sub: usize,
    inputs: usize,
}

// The halves of the mask top + r, top being its highest bit, for w inputs, in the array at a place.
fn halves_of(top: usize, r: usize, w: usize, arrays: &[u8; ARRAYS_ROOM], at: usize) -> Halves
    requires { Halvable arrays.now at top r w }
    ensures { SumOf arrays.now at top r w result.sub result.inputs }
{
    let s = top + r;
    let e = entry_at(arrays, at + s * 8 + w);
    let mut u = r;
    while u > 0 {
        if let Some(i) = split_inputs(w, e, arrays, at + (s - u) * 8, at + u * 8) {
            return Halves { sub: u, inputs: i };
        }
        u = (u - 1) & r;
    }
    unreachable!()
}

// From where an operand is read back: the number of an array and of inputs, and whether it is placed.
#[derive(Clone, Copy)]
struct Seek {
    slot: usize,
    inputs: usize,
    placed: bool,
}

// An operand whose entry is that of a table of its own is placed, and read back from the bound before.
fn seek_back(k: u8, s: usize, slot: usize, w: usize, arrays: &[u8; ARRAYS_ROOM]) -> Seek
    requires { Seekable k arrays.now slot s w }
    ensures { Sought k arrays.now slot s w result.slot result.inputs result.placed }
{
    let most = k as usize;
    let e = entry_at(arrays, slot * 8192 + s * 8 + w);
    let before = entry_at(arrays, (slot - 1) * 8192 + s * 8 + most);
    if e == before + 1 {
        Seek {
            slot: slot - 1,
            inputs: most,
            placed: true,
        }
    } else {
        Seek {
            slot,
            inputs: w,
            placed: false,
        }
    }
}

// The draft with the step that takes the fanin of a mask of one bit, which is to give so many inputs at a bound.
fn with_fanin(draft: Draft, s: usize, bound: u16, w: usize) -> Draft
    requires { OneBit s × (w < 8) × (draft.plan.len < most_steps) }
    ensures { DraftTook s bound w draft result }
{
    let h = bit_number(s);
    let at = h as usize;
    let plan = draft.plan;
    let p = with_step(plan, Token::Push(h));
    let mut d = draft;
    d.bounds[at] = bound;
    d.inputs[at] = w as u8;
    d.plan = p;
    d
}

// The draft with the step that joins two operands.
fn with_join(draft: Draft, left: bool, right: bool) -> Draft
    requires { draft.plan.len < most_steps }
    ensures { result ≡ draft_stepped draft (join_of left right) }
{
    let plan = draft.plan;
    let p = with_step(plan, Token::Join(left, right));
    let mut d = draft;
    d.plan = p;
    d
}

// The draft with the steps for the mask s added, which is to give w inputs at the bound of the array of that number. It calls itself for the two parts
// of a mask, so at most ten deep.
fn with_mask(
    k: u8,
    from: u16,
    s: usize,
    slot: usize,
    w: usize,
    arrays: &[u8; ARRAYS_ROOM],
    draft: Draft,
) -> Draft
    requires { SomeBacked k from arrays.now slot s w draft }
    ensures { Drafts k from arrays.now slot s w draft result }
{
    let top = top_bit(s);
    if top == s {
        return with_fanin(draft, s, from + slot as u16 - 1, w);
    }
    let h = halves_of(top, s - top, w, arrays, slot * 8192);
    let u = h.sub;
    let i = h.inputs;
    let a = seek_back(k, s - u, slot, i, arrays);
    let b = seek_back(k, u, slot, w - i, arrays);
    let first = with_mask(k, from, s - u, a.slot, a.inputs, arrays, draft);
    let second = with_mask(k, from, u, b.slot, b.inputs, arrays, first);
    with_join(second, a.placed, b.placed)
}

// The bound at which a search that is to be right from a bound on starts.
fn start_bound(count: u8, bound: u16) -> u16
    requires { 1 ≤ count }
    ensures { result ≡ start_at count bound }
{
    bound.saturating_sub(count as u16 - 1)
}

// Clears the first array.
fn clear_first(arrays: &mut [u8; ARRAYS_ROOM])
    requires { length arrays.old ≡ arrays_room }
    ensures { RunWritten arrays.old arrays.new 0 array_room (λ i. big) }
{
    arrays[..ARRAY_ROOM].fill(NONE);
}

// Puts the rows of the fanins at a bound into the first array.
fn put_singles(f: Fans, bound: u16, store: &[u8; STORE_ROOM], arrays: &mut [u8; ARRAYS_ROOM])
    requires { FansStored f × (length store.now ≡ store_room) × (length arrays.old ≡ arrays_room) }
    ensures { SinglesPut store.now f bound arrays.old arrays.new f.count }
{
    for h in 0..f.count as usize {
        put_row(arrays, (1 << h) * 8, look(f, h, bound, store));
    }
}

// Makes the first array, that of the bound before `from`: the rows of the fanins, and no entry for more of them.
fn start_arrays(f: Fans, from: u16, store: &[u8; STORE_ROOM], arrays: &mut [u8; ARRAYS_ROOM])
    requires { FansStored f × (length store.now ≡ store_room) × (length arrays.old ≡ arrays_room) }
    ensures { RangeStarted from f store.now arrays.new }
{
    clear_first(arrays);
    if from > 0 {
        put_singles(f, from - 1, store, arrays);
    }
}

// Fills the arrays of `top` bounds, from the first on, and gives the number past the last mask.
fn fill_arrays(
    k: u8,
    f: Fans,
    from: u16,
    top: usize,
    store: &[u8; STORE_ROOM],
    arrays: &mut [u8; ARRAYS_ROOM],
) -> usize
    requires { RangeFillable k from top f store.now arrays.old }
    ensures { (result ≡ 2 ^ f.count) × RangeFilled k from top f store.now arrays.new }
{
    let n = f.count as usize;
    let mut rows = [NONE; FANIN_ROOM];
    let mut own = [NONE; MASKS];
    let mut like: [u16; MASKS] = [0; MASKS];
    let end = like_masks(f, &mut like);
    for i in 0..top {
        lift(k, end, arrays, i * 8192, &mut own);
        look_rows(f, from + i as u16, store, &mut rows);
        fill_like(k, n, &rows, &own, &like, arrays, (i + 1) * 8192);
    }
    end
}

// A draft of no steps.
fn blank_draft() -> Draft
    ensures { result ≡ empty_draft }
{
    Draft {
        plan: blank(Key { below: 0, width: 0 }),
        bounds: [0; 10],
        inputs: [0; 10],
    }
}

// The plan of a gate with those fanins that is to give so many inputs at most, none of a level above a bound.
pub fn gate_plan(
    k: u8,
    f: Fans,
    bound: u16,
    inputs: u8,
    store: &[u8; STORE_ROOM],
    arrays: &mut [u8; ARRAYS_ROOM],
) -> Draft
    requires { PlanAsked k f bound inputs store.now arrays.old }
    ensures { GatePlanned k f bound inputs store.now arrays.new result }
{
    let from = start_bound(f.count, bound);
    let top = (bound - from) as usize + 1;
    start_arrays(f, from, store, arrays);
    let end = fill_arrays(k, f, from, top, store, arrays);
    with_mask(
        k,
        from,
        end - 1,
        top,
        inputs as usize,
        arrays,
        blank_draft(),
    )
}
