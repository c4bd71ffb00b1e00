// 01's points of a record after the records before it, by what is kept of these: of each a test, equal to the test of that name with
// In after it in table/specs/PrefixTest.
#![tactic(auto)]

ghost use Rattle.std.specs.Prelude.{◌≡◌, ◌≤◌, take};
ghost use Rattle.lists.specs.Trusted.Tests.{all};
ghost use Rattle.table.specs.PrefixTest.{sourced_in, unclaimed_in, keeps_points_in};

use flags::flag;
use record_rules::{coded, padded, sized};
use table::{Prefix, Table, in_use};
use table_inputs::reads_net;
use tree::CODE_BASE;

// An input that names a table names one of the records before, and that one drives no net.
fn sourced(drives: &[u64], count: u16, x: u16) -> bool
    ensures { result ≡ sourced_in drives.now count x }
{
    if x <= CODE_BASE {
        return true;
    }
    let t = x - CODE_BASE - 1;
    t < count && !flag(drives, usize::from(t))
}

// So for the first n inputs.
fn all_sourced(drives: &[u64], count: u16, inputs: [u16; 6], n: usize) -> bool
    requires { n ≤ 6 }
    ensures { result ≡ all (sourced_in drives.now count) (take n inputs) }
{
    inputs[..n].iter().all(|&x| sourced(drives, count, x))
}

// The net driven, if any, is claimed by no record before, and the record does not read it.
fn unclaimed(claimed: &[u64], r: Table) -> bool
    ensures { result ≡ unclaimed_in claimed.now r }
{
    r.net == 0
        || (!flag(claimed, usize::from(r.net)) && !reads_net(r.inputs, in_use(r.count), r.net))
}

// The record keeps 01's points after the records before.
pub fn keeps_points(prefix: Prefix, k: u8, r: Table) -> bool
    ensures { result ≡ keeps_points_in k prefix r }
{
    padded(r)
        && coded(r)
        && sized(k, r)
        && all_sourced(&prefix.drives, prefix.count, r.inputs, in_use(r.count))
        && unclaimed(&prefix.claimed, r)
}
