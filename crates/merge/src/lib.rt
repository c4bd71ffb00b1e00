// Tables that are not placed yet: that of one code, that of two merged by a gate, and that of the other value.
#![tactic(auto)]

ghost use Rattle.std.specs.Prelude.{◌≡◌, ◌+◌, ◌<◌, ◌≤◌, take, ◌++◌};
ghost use Rattle.lists.specs.Trusted.Lists.{insert as insert_of, sorted};
ghost use Rattle.pending.specs.Luts.{lut_of};
ghost use Rattle.pending.specs.Operands.{single as single_of, merged};
ghost use Rattle.pending.specs.Pendings.{operand_of, Mergeable};
ghost use Rattle.pending.specs.Merging.{padded, MergeRoom, Ordered, Tabled, inverted_of};

use pending::{Lut, Pending};
use rows::{meet, ones, turn, values};
use tree::Kind;

// The table that has the value of one code.
pub fn single(code: u16) -> Lut
    ensures { result ≡ lut_of (single_of code) }
{
    Lut {
        net: 0,
        count: 1,
        inputs: [code, 0, 0, 0, 0, 0],
        truth: 2,
    }
}

// The table of a gate of two fanins.
pub fn merge(kind: Kind, x: Pending, y: Pending) -> Lut
    requires { Mergeable x y }
    ensures { result ≡ lut_of (merged kind (operand_of x) (operand_of y)) }
{
    let a = x.table;
    let b = y.table;
    let n = a.count as usize;
    let m = b.count as usize;
    let codes = a.inputs;
    let others = b.inputs;
    let inputs = union(&codes, n, others, m);
    let count = n + m;
    let u = turn(x.inverted, values(a.truth, &codes, n, &inputs, count));
    let v = turn(y.inverted, values(b.truth, &others, m, &inputs, count));
    Lut {
        net: 0,
        count: count as u8,
        inputs,
        truth: meet(kind, u, v) & ones(count),
    }
}

// The table of the other value: each bit of the truth table turned over.
pub fn inverted(mut t: Lut) -> Lut
    requires { Tabled t }
    ensures { result ≡ inverted_of t }
{
    t.truth = ones(t.count as usize) - t.truth;
    t
}

// A code put among the first inputs, which are in order.
fn insert(inputs: &mut [u16; 6], count: usize, code: u16)
    requires { (count < 6) × Ordered count inputs.old }
    ensures { inputs.new ≡ padded (insert_of code (take count inputs.old)) }
{
    let mut next = code;
    for i in 0..count {
        let x = inputs[i];
        let in_front = next <= x;
        if in_front {
            inputs[i] = next;
            next = x;
        }
    }
    inputs[count] = next;
}

// The first n codes put among the first inputs, which are in order.
fn union(codes: &[u16; 6], n: usize, inputs: [u16; 6], count: usize) -> [u16; 6]
    requires { (n + count ≤ 6) × MergeRoom n codes.now × Ordered count inputs }
    ensures { result ≡ padded (sorted (take n codes.now ++ take count inputs)) }
{
    let mut out = inputs;
    let mut size = count;
    for i in (0..n).rev() {
        insert(&mut out, size, codes[i]);
        size += 1;
    }
    out
}
