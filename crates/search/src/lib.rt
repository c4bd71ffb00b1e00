// The search for the fewest tables of one gate, over the sets of its fanins as bit masks, and the plan that it finds.
#![tactic(auto)]

ghost use Rattle.std.specs.Prelude.{◌≡◌, ◌≤◌, ◌<◌, ◌^◌, take};
ghost use Rattle.plan.specs.Key.{join as join_of};
ghost use Rattle.lists.specs.Trusted.Tests.{all};
ghost use Rattle.tree.specs.Trusted.Limits.{most_fanins};
ghost use Rattle.plan.specs.Limits.{masks, most_steps};
ghost use Rattle.plan.specs.PlanOf.{fanin_test, good_input, empty_plan, PlanOf};
ghost use Rattle.plan.specs.Steps.{stepped, join_token, Took, Writable, Writes};
ghost use Rattle.plan.specs.Entries.{Joinable, JoinableAt, Split, BestJoin, FewLeaves, Fillable, Entries, OneBit, entry};

use keys::{cuts_of, join, precedes, volume};
use plan::{Key, LEAST_INPUTS, MASKS, MOST_INPUTS, MOST_STEPS, Plan, Token};
use tree::{FEWEST_FANINS, MOST_FANINS};

// The token of that join.
fn join_token(k: u8, a: Key, b: Key) -> Token
    requires { Joinable k a b }
    ensures { result ≡ join_token k a b }
{
    let c = cuts_of(k, a, b);
    Token::Join(c.left, c.right)
}

// The key at a mask.
fn key_at<'a>(s: usize, below: &'a [u8; MASKS], width: &'a [u8; MASKS]) -> Key
    requires { s < masks }
    ensures { result ≡ entry below.now width.now s }
{
    Key {
        below: below[s],
        width: width[s],
    }
}

// The join of the keys at two masks.
fn join_at<'a>(k: u8, x: usize, y: usize, below: &'a [u8; MASKS], width: &'a [u8; MASKS]) -> Key
    requires { JoinableAt k below.now width.now x y }
    ensures { result ≡ join_of k (entry below.now width.now x) (entry below.now width.now y) }
{
    let a = key_at(x, below, width);
    let b = key_at(y, below, width);
    join(k, a, b)
}

// A key, and the submask by which it was made.
#[derive(Clone, Copy)]
struct Choice {
    key: Key,
    sub: u16,
}

// The best key for the mask top + r, top being its highest bit: the least join over the submasks of r, greatest first. No join
// has a volume below least, so the first one that has it is the best.
fn best_join<'a>(
    k: u8,
    top: usize,
    r: usize,
    least: u16,
    below: &'a [u8; MASKS],
    width: &'a [u8; MASKS],
) -> Choice
    requires { Split k top r least below.now width.now }
    ensures { BestJoin k below.now width.now top r result.key result.sub }
{
    let s = top + r;
    let mut sub = r;
    let mut key = join_at(k, s - r, r, below, width);
    let mut met = volume(k, key) == least;
    let mut u = (r - 1) & r;
    while u > 0 && !met {
        let x = join_at(k, s - u, u, below, width);
        if precedes(x, key) {
            key = x;
            sub = u;
            met = volume(k, x) == least;
        }
        u = (u - 1) & r;
    }
    Choice {
        key,
        sub: sub as u16,
    }
}

// Fills the arrays at every mask of the first count fanins, in rising order, and gives the number past the last.
fn fill(
    k: u8,
    count: usize,
    keys: [Key; MOST_FANINS],
    below: &mut [u8; MASKS],
    width: &mut [u8; MASKS],
    split: &mut [u16; MASKS],
    volumes: &mut [u16; MASKS],
) -> usize
    requires { Fillable k count keys below.old width.old split.old volumes.old }
    ensures { (result ≡ 2 ^ count) × Entries k (take count keys) below.new width.new split.new result }
{
    // h fanins have come: next is the bit of the one to come, and top the highest bit of a mask below it
    let mut h: usize = 0;
    let mut top: usize = 0;
    let mut next: usize = 1;
    let end = 1 << count;
    for s in 1..end {
        if s == next {
            let key = keys[h];
            below[s] = key.below;
            width[s] = key.width;
            split[s] = 0;
            volumes[s] = volume(k, key);
            h += 1;
            top = s;
            next = s + s;
        } else {
            let least = volumes[top] + volumes[s - top];
            volumes[s] = least;
            let c = best_join(k, top, s - top, least, below, width);
            let key = c.key;
            below[s] = key.below;
            width[s] = key.width;
            split[s] = c.sub;
        }
    }
    end
}

// The number of a mask's only bit.
pub fn bit_number(s: usize) -> u8
    requires { OneBit s }
    ensures { (2 ^ result ≡ s) × (result < most_fanins) }
{
    s.trailing_zeros() as u8
}

// The plan with one step more.
pub fn with_step(mut plan: Plan, token: Token) -> Plan
    requires { plan.len < most_steps }
    ensures { result ≡ stepped plan token }
{
    plan.steps[plan.len as usize] = token;
    plan.len += 1;
    plan
}

// The plan with the step that takes the fanin of a mask of one bit.
fn with_fanin(s: usize, plan: Plan) -> Plan
    requires { OneBit s × (plan.len < most_steps) }
    ensures { Took s plan result }
{
    let h = bit_number(s);
    with_step(plan, Token::Push(h))
}

// The plan with the step that joins the operands of two masks.
fn with_join<'a>(
    k: u8,
    x: usize,
    y: usize,
    below: &'a [u8; MASKS],
    width: &'a [u8; MASKS],
    plan: Plan,
) -> Plan
    requires { JoinableAt k below.now width.now x y × (plan.len < most_steps) }
    ensures { result ≡ stepped plan (join_token k (entry below.now width.now x) (entry below.now width.now y)) }
{
    let a = key_at(x, below, width);
    let b = key_at(y, below, width);
    let token = join_token(k, a, b);
    with_step(plan, token)
}

// The plan with the steps for the mask s added. It calls itself for the two parts of a mask, so at most ten deep.
fn with_steps<'a>(
    k: u8,
    s: usize,
    below: &'a [u8; MASKS],
    width: &'a [u8; MASKS],
    split: &'a [u16; MASKS],
    plan: Plan,
) -> Plan
    requires { Writable k below.now width.now split.now s plan }
    ensures { Writes k below.now width.now split.now s plan result }
{
    let u = split[s] as usize;
    if u == 0 {
        return with_fanin(s, plan);
    }
    let rest = s - u;
    let first = with_steps(k, rest, below, width, split, plan);
    let second = with_steps(k, u, below, width, split, first);
    with_join(k, rest, u, below, width, second)
}

// Whether a fanin has such a key: from 1 to k inputs.
#[tactic(auto, unfolding(plan::specs::PlanOf::fanin_test))]
fn is_fanin(k: u8, a: Key) -> bool
    ensures { result ≡ fanin_test k a }
{
    (1..=k).contains(&a.width)
}

// Whether each of the first count keys is a fanin's.
fn are_fanins(k: u8, count: usize, keys: [Key; MOST_FANINS]) -> bool
    requires { count ≤ most_fanins }
    ensures { result ≡ all (fanin_test k) (take count keys) }
{
    keys[..count].iter().all(|a| is_fanin(k, *a))
}

// Whether a plan can be sought: tables and gates within their limits, and keys of fanins.
#[tactic(auto, unfolding(plan::specs::PlanOf::good_input))]
fn is_good(k: u8, count: u8, keys: [Key; MOST_FANINS]) -> bool
    ensures { result ≡ good_input k count keys }
{
    let n = count as usize;
    (LEAST_INPUTS..=MOST_INPUTS).contains(&k)
        && (FEWEST_FANINS..=MOST_FANINS).contains(&n)
        && are_fanins(k, n, keys)
}

// A plan of no steps.
pub fn blank(key: Key) -> Plan
    ensures { result ≡ empty_plan key }
{
    Plan {
        key,
        len: 0,
        steps: [Token::Push(0); MOST_STEPS],
    }
}

// The best key for a gate whose first count fanins have these keys, and the plan that gives it; none for input that is not good.
// It asks for fanins with at most 256 leaves under them: then a byte holds each count.
pub fn best_plan(k: u8, count: u8, keys: [Key; MOST_FANINS]) -> Option<Plan>
    requires { FewLeaves (take count keys) }
    ensures { PlanOf k count keys result }
{
    if !is_good(k, count, keys) {
        return None;
    }
    let mut below = [0u8; MASKS];
    let mut width = [0u8; MASKS];
    let mut split = [0u16; MASKS];
    let mut volumes = [0u16; MASKS];
    let end = fill(
        k,
        count as usize,
        keys,
        &mut below,
        &mut width,
        &mut split,
        &mut volumes,
    );
    let all = end - 1;
    let key = key_at(all, &below, &width);
    Some(with_steps(k, all, &below, &width, &split, blank(key)))
}
