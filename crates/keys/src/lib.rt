// What the search does with keys: the join of two, which operands it places, the order, and the most leaves.
#![tactic(auto)]

ghost use Rattle.std.specs.Prelude.{◌≡◌, true, false, ◌<◌};
ghost use Rattle.plan.specs.Key.{join as join_of, cuts, ◌≼◌};
ghost use Rattle.plan.specs.Volume.{volume as volume_of};
ghost use Rattle.plan.specs.Entries.{Joinable, Joined};

use plan::{Cuts, Key};

// The key of two operands under one gate: both held by its table; or the wider one placed; or both.
pub fn join(k: u8, a: Key, b: Key) -> Key
    requires { Joinable k a b }
    ensures { result ≡ join_of k a b }
{
    let below = a.below + b.below;
    let width = a.width + b.width;
    if width <= k {
        return Key { below, width };
    }
    let narrow = a.width.min(b.width);
    if narrow < k {
        Key {
            below: below + 1,
            width: narrow + 1,
        }
    } else {
        Key {
            below: below + 2,
            width: 2,
        }
    }
}

// Which operands of that join are placed.
pub fn cuts_of(k: u8, a: Key, b: Key) -> Cuts
    requires { Joinable k a b }
    ensures { result ≡ record { left = (cuts k a b).0; right = (cuts k a b).1 } }
{
    if a.width + b.width <= k {
        return Cuts {
            left: false,
            right: false,
        };
    }
    let right_wider = a.width <= b.width;
    if a.width.min(b.width) >= k {
        Cuts {
            left: true,
            right: true,
        }
    } else if right_wider {
        Cuts {
            left: false,
            right: true,
        }
    } else {
        Cuts {
            left: true,
            right: false,
        }
    }
}

// Whether a key comes before another: fewer tables below, or as many and fewer inputs.
pub fn precedes(a: Key, b: Key) -> bool
    ensures { (result ≡ true → a ≼ b) × (result ≡ false → b ≼ a) }
{
    a < b
}

// The most leaves that a cover with that key can have: each table below stands for one input and brings k.
pub fn volume(k: u8, a: Key) -> u16
    requires { Joined k a }
    ensures { result ≡ volume_of k a }
{
    (k as u16 - 1) * a.below as u16 + a.width as u16
}
