// Mapping a gate of two fanins.
ghost use Rattle.std.specs.Prelude.{◌≡◌};
ghost use Rattle.mapper_laws.specs.CodeMap.{Mappable};
ghost use Rattle.mapper_laws.specs.CodePair.{two_tables, pair_of, pair_mapped};

use crate::fanin::key_of;
use gate_run::hold;
use keys::{cuts_of, join};
use mapper_laws::{Held, MappedPair};
use merge::merge;
use pending::{Lut, Pending};
use tree::Kind;

// The tables of two operands, of which the left one may not be placed.
fn two_tables(left: bool, x: Lut, y: Lut) -> [Lut; 2]
    ensures { result ≡ two_tables left x y }
{
    if left { [x, y] } else { [y, y] }
}

// Maps a gate of those two fanins without a search: there is one way to join them.
pub fn map_pair(
    k: u8,
    first: u16,
    kind: Kind,
    i: bool,
    low: Held,
    j: bool,
    high: Held,
) -> MappedPair
    requires { Mappable k first (pair_of i low j high) }
    ensures { result ≡ pair_mapped k first kind i low j high }
{
    let a = key_of(high);
    let b = key_of(low);
    let key = join(k, a, b);
    let cuts = cuts_of(k, a, b);
    let table = high.table;
    let x = hold(first, 0, cuts.left, Pending { inverted: j, table });
    let other = low.table;
    let y = hold(
        first,
        u8::from(cuts.left),
        cuts.right,
        Pending {
            inverted: i,
            table: other,
        },
    );
    MappedPair {
        held: Held {
            below: key.below,
            table: merge(kind, x, y),
        },
        placed: u8::from(cuts.left) + u8::from(cuts.right),
        tables: two_tables(cuts.left, table, other),
    }
}
