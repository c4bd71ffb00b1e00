// Runs the search on the gates of the worked examples, on input that is not good, on gates with the most leaves, and on 200 gates with
// keys from a fixed generator. For each it prints a line: ok or not, the tables below, the inputs, and the steps of the plan.
// The expected lines are those of tests/cover/exhaustive.py, which tries every tree.
#![tactic(auto)]

ghost use Rattle.std.specs.Prelude.{ℕ, ◌+◌, ◌≤◌, ◌<◌, take};
ghost use Rattle.plan.specs.Entries.{FewLeaves};
ghost use Rattle.plan.specs.Volume.{fewest_leaves};

use plan::{Key, Plan};
use std::io;

fn leaf() -> Key
    ensures { fewest_leaves result ≤ 1 }
{
    Key { below: 0, width: 1 }
}

fn show(rt: &impl Print, plan: Option<Plan>) -> io::Result<()> {
    match plan {
        Some(p) => println!(rt; "1 {} {} {}", p.key.below, p.key.width, p.len),
        None => println!(rt; "0 0 0 0"),
    }
}

// The key of a gate of that many leaves, or of a leaf.
fn gate_of(k: u8, leaves: u8) -> Key
    ensures { fewest_leaves result ≤ 25 }
{
    if leaves == 1 {
        return leaf();
    }
    match search::best_plan(k, leaves, [leaf(); 10]) {
        Some(p) => p.key,
        None => Key { below: 0, width: 0 },
    }
}

// The root of an example: each fanin is a gate of that many leaves, or a leaf.
fn example(rt: &impl Print, k: u8, count: u8, leaves: [u8; 10]) -> io::Result<()> {
    let mut keys = [leaf(); 10];
    for i in 0..10 {
        keys[i] = gate_of(k, leaves[i]);
    }
    show(rt, search::best_plan(k, count, keys))
}

fn examples(rt: &impl Print) -> io::Result<()> {
    example(rt, 2, 2, [1, 1, 1, 1, 1, 1, 1, 1, 1, 1])?;
    example(rt, 2, 5, [1, 1, 1, 1, 1, 1, 1, 1, 1, 1])?;
    example(rt, 5, 10, [1, 1, 1, 1, 1, 1, 1, 1, 1, 1])?;
    example(rt, 6, 10, [1, 1, 1, 1, 1, 1, 1, 1, 1, 1])?;
    example(rt, 4, 2, [2, 2, 1, 1, 1, 1, 1, 1, 1, 1])?;
    example(rt, 3, 2, [2, 2, 1, 1, 1, 1, 1, 1, 1, 1])?;
    example(rt, 4, 3, [5, 1, 1, 1, 1, 1, 1, 1, 1, 1])?;
    example(rt, 5, 5, [3, 2, 2, 2, 2, 1, 1, 1, 1, 1])?;
    example(rt, 4, 5, [3, 2, 2, 2, 2, 1, 1, 1, 1, 1])?;
    example(rt, 5, 3, [3, 3, 3, 1, 1, 1, 1, 1, 1, 1])
}

// A gate whose first two fanins have the keys; the others are leaves.
fn with_keys(rt: &impl Print, k: u8, count: u8, a: Key, b: Key) -> io::Result<()>
    requires { fewest_leaves a + fewest_leaves b ≤ 248 }
{
    let mut keys = [leaf(); 10];
    keys[0] = a;
    keys[1] = b;
    show(rt, search::best_plan(k, count, keys))
}

fn not_good(rt: &impl Print) -> io::Result<()> {
    with_keys(rt, 1, 3, leaf(), leaf())?;
    with_keys(rt, 7, 3, leaf(), leaf())?;
    with_keys(rt, 4, 1, leaf(), leaf())?;
    with_keys(rt, 4, 11, leaf(), leaf())?;
    with_keys(rt, 4, 3, Key { below: 0, width: 0 }, leaf())?;
    with_keys(rt, 4, 3, Key { below: 0, width: 5 }, leaf())
}

// Gates of at least 256 leaves.
fn most_leaves(rt: &impl Print) -> io::Result<()> {
    with_keys(
        rt,
        2,
        10,
        Key {
            below: 245,
            width: 2,
        },
        leaf(),
    )?;
    let pair = Key {
        below: 122,
        width: 2,
    };
    with_keys(rt, 2, 10, pair, pair)?;
    let wide = Key {
        below: 118,
        width: 6,
    };
    with_keys(rt, 6, 10, wide, wide)
}

// The generator: its next state, and a number from the upper bits.
fn next(state: u64) -> u64
    requires { state < 2147483648 }
    ensures { result < 2147483648 }
{
    (state * 1103515245 + 12345) % 2147483648
}

// A gate from the generator, and the state after it.
#[derive(Clone, Copy)]
struct Drawn {
    state: u64,
    k: u8,
    count: u8,
    keys: [Key; 10],
}

// A key of at most k inputs.
fn key_from(k: u8, a: u64, b: u64) -> Key
    ensures { fewest_leaves result ≤ 25 }
{
    let below = (a / 65536 % 4) as u8;
    let width = (1 + b / 65536 % 6) as u8;
    Key {
        below,
        width: k.min(width),
    }
}

fn draw(start: u64) -> Drawn
    requires { start < 2147483648 }
    ensures { (result.state < 2147483648) × ((n : ℕ) → FewLeaves (take n result.keys)) }
{
    let first = next(start);
    let second = next(first);
    let k = (2 + first / 65536 % 5) as u8;
    let count = (2 + second / 65536 % 9) as u8;
    let mut keys = [leaf(); 10];
    let mut state = second;
    for i in 0..10 {
        let a = next(state);
        let b = next(a);
        keys[i] = key_from(k, a, b);
        state = b;
    }
    Drawn {
        state,
        k,
        count,
        keys,
    }
}

fn generated(rt: &impl Print) -> io::Result<()> {
    let mut state: u64 = 1;
    for _ in 0..200 {
        let d = draw(state);
        show(rt, search::best_plan(d.k, d.count, d.keys))?;
        state = d.state;
    }
    Ok(())
}

fn main(rt: HostRuntime) -> io::Result<()> {
    examples(&rt)?;
    not_good(&rt)?;
    most_leaves(&rt)?;
    generated(&rt)
}
