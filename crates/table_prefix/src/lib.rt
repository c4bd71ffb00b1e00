// What is kept of the records so far: of none, and of one more after others.
// table/specs/PrefixTest defines it, and table/specs/PrefixLaws has the proof that it stands for the records.
#![tactic(auto)]

ghost use Rattle.std.specs.Prelude.{◌≡◌, ◌≤◌, take};
ghost use Rattle.table.specs.PrefixTest.{claim_all, empty_prefix, with_driver, prefix_after};

use flags::raise;
use table::{NET_WORDS, Prefix, TABLE_ROOM, TABLE_WORDS, Table, in_use};

// Of no record.
pub fn empty_prefix() -> Prefix
    ensures { result ≡ empty_prefix }
{
    Prefix {
        count: 0,
        claimed: [0; NET_WORDS],
        drives: [0; TABLE_WORDS],
    }
}

// The nets among the first n inputs are claimed.
fn claim_all(claimed: &mut [u64], inputs: [u16; 6], n: usize)
    requires { n ≤ 6 }
    ensures { claimed.new ≡ claim_all claimed.old (take n inputs) }
{
    for &net in &inputs[..n] {
        raise(claimed, usize::from(net));
    }
}

// Record `at` drives the net; none where that is 0.
fn mark_driver(drives: &mut [u64], net: u16, at: usize)
    ensures { drives.new ≡ with_driver drives.old net at }
{
    let driven = net != 0;
    if driven {
        raise(drives, at);
    }
}

// Of one more record, after the others; unchanged where there is no room for it.
pub fn after(mut prefix: Prefix, r: Table) -> Prefix
    ensures { result ≡ prefix_after prefix r }
{
    let at = usize::from(prefix.count);
    if at < TABLE_ROOM as usize {
        raise(&mut prefix.claimed, usize::from(r.net));
        claim_all(&mut prefix.claimed, r.inputs, in_use(r.count));
        mark_driver(&mut prefix.drives, r.net, at);
        prefix.count += 1;
    }
    prefix
}
