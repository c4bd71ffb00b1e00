// Tests of the inputs of one record: of the first `n`, those in use, and of the rest.
#![tactic(auto)]

ghost use Rattle.std.specs.Prelude.{◌≡◌, ◌≤◌, ltb, take, drop};
ghost use Rattle.lists.specs.Trusted.Tests.{all, elem, pairwise};
ghost use Rattle.table.specs.Trusted.RecordTest.{all_zero, is_code};

use tree::{CODE_BASE, GREATEST_NET};

// The input is a net or names a table.
fn is_code(x: u16) -> bool
    ensures { result ≡ is_code x }
{
    (1..=GREATEST_NET).contains(&x) || CODE_BASE < x
}

// Each is a net or names a table.
pub fn all_codes(inputs: [u16; 6], n: usize) -> bool
    requires { n ≤ 6 }
    ensures { result ≡ all is_code (take n inputs) }
{
    inputs[..n].iter().all(|&x| is_code(x))
}

// The inputs from the place on are zero.
pub fn zero_from(inputs: [u16; 6], n: usize) -> bool
    requires { n ≤ 6 }
    ensures { result ≡ all_zero (drop n inputs) }
{
    inputs[n..].iter().all(|&x| x == 0)
}

// Each is above those before it.
pub fn rising(inputs: [u16; 6], n: usize) -> bool
    requires { n ≤ 6 }
    ensures { result ≡ pairwise ltb (take n inputs) }
{
    inputs[..n].is_sorted_by(|a, b| a < b)
}

// The net is one of them.
pub fn reads_net(inputs: [u16; 6], n: usize, net: u16) -> bool
    requires { n ≤ 6 }
    ensures { result ≡ elem net (take n inputs) }
{
    inputs[..n].contains(&net)
}
