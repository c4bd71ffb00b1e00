// What a fanin reads: a net, or a mapped gate that is not placed.
ghost use Rattle.std.specs.Prelude.{◌≡◌};
ghost use Rattle.mapper_laws.specs.CodeMap.{leaf_of};
ghost use Rattle.mapper_laws.specs.CodePair.{read_as, key_in};

use mapper_laws::Held;
use merge::single;
use plan::Key;
use sheet::Source;

// A net as a fanin.
pub fn leaf(net: u16) -> Held
    ensures { result ≡ leaf_of net }
{
    Held {
        below: 0,
        table: single(net),
    }
}

// What a fanin reads, where `held` is the gate, if it is one.
pub fn read_from(source: Source, held: Held) -> Held
    ensures { result ≡ read_as source held }
{
    match source {
        Source::Net(n) => leaf(n),
        Source::Gate(_) => held,
    }
}

// The key of what a fanin reads.
pub fn key_of(held: Held) -> Key
    ensures { result ≡ key_in held }
{
    Key {
        below: held.below,
        width: held.table.count,
    }
}
