// Mapping a gate of any number of fanins.
ghost use Rattle.std.specs.Prelude.{◌≡◌, ◌<◌};
ghost use Rattle.mapper_laws.specs.CodeMap.{Begun, with_fanin, Mappable, GateRun, GateMapped, Reaches, Gathers};
ghost use Rattle.mapper_laws.specs.CodeRun.{Runnable};

use crate::fanin::{key_of, read_from};
use gate_fanins::{fanins_of, place_of};
use gate_run::{follow, operand};
use mapper_laws::{Held, MappedGate, Operands};
use pending::Pending;
use plan::{Key, Plan};
use search::best_plan;
use sheet::{Edge, FANIN_ROOM, Gate, MOST_GATES};
use tree::Kind;

// No fanins.
fn no_operands() -> Operands
    ensures { Begun result }
{
    let table = pending::zero_lut();
    let none = Pending {
        inverted: false,
        table,
    };
    let key = Key { below: 0, width: 0 };
    Operands {
        count: 0,
        fanins: [none; 10],
        keys: [key; 10],
    }
}

// One fanin more.
fn with_fanin(mut operands: Operands, inverted: bool, held: Held) -> Operands
    requires { operands.count < 10 }
    ensures { result ≡ with_fanin operands inverted held }
{
    let at = operands.count as usize;
    operands.fanins[at] = Pending {
        inverted,
        table: held.table,
    };
    operands.keys[at] = key_of(held);
    operands.count += 1;
    operands
}

// The fanins of a gate, among its sheet's, where `held` has the gates before it.
pub fn gather(gate: Gate, fanins: &[Edge; FANIN_ROOM], held: &[Held; MOST_GATES]) -> Operands
    requires { Reaches fanins.now gate }
    ensures { Gathers fanins.now gate held.now result }
{
    let mut operands = no_operands();
    for edge in fanins_of(gate, fanins) {
        let at = place_of(edge.source);
        operands = with_fanin(operands, edge.inverted, read_from(edge.source, held[at]));
    }
    operands
}

// Maps a gate with those fanins by a plan, where so many tables stand before those that it places. The count of tables below is that of the plan's key.
pub fn run_gate(first: u16, kind: Kind, operands: Operands, plan: Plan) -> MappedGate
    requires { Runnable first kind operands plan }
    ensures { GateRun first kind operands plan result }
{
    let run = follow(first, kind, operands, plan);
    let held = Held {
        below: plan.key.below,
        table: operand(run, 0).table,
    };
    MappedGate { held, run }
}

// Maps a gate with those fanins, where so many tables stand before those that it places.
pub fn map_gate(k: u8, first: u16, kind: Kind, operands: Operands) -> MappedGate
    requires { Mappable k first operands }
    ensures { GateMapped k first kind operands result }
{
    let count = operands.count;
    let keys = operands.keys;
    let p = best_plan(k, count, keys).unwrap();
    run_gate(first, kind, operands, p)
}
