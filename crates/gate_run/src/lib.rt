// The run of a gate's plan on pending tables.
#![tactic(auto)]

ghost use Rattle.std.specs.Prelude.{◌≡◌, ◌+◌, ◌<◌, ◌≤◌};
ghost use Rattle.mapper_laws.specs.CodeRun.{pushed, placed_if, operand_at, replaced, held_if, joined, Joins, Holds, Advances, Advanced, Runnable, Ran};

use mapper_laws::{Operands, PlanRun};
use merge::{merge, single};
use pending::{Lut, Pending, zero_lut};
use plan::{Plan, Token};
use tree::Kind;

// One operand more.
fn push(mut run: PlanRun, x: Pending) -> PlanRun
    requires { run.depth < 10 }
    ensures { result ≡ pushed run x }
{
    run.stack[run.depth as usize] = x;
    run.depth += 1;
    run
}

// A table placed, where the flag says so.
fn place(mut run: PlanRun, cut: bool, t: Lut) -> PlanRun
    requires { run.placed < 18 }
    ensures { result ≡ placed_if cut run t }
{
    if cut {
        run.tables[run.placed as usize] = t;
        run.placed += 1;
    }
    run
}

// The operand i, counted from the bottom.
pub fn operand(run: PlanRun, i: usize) -> Pending
    requires { i < 10 }
    ensures { result ≡ operand_at run i }
{
    run.stack[i]
}

// The two operands on top replaced by one that is read upright.
fn replace(mut run: PlanRun, t: Lut) -> PlanRun
    requires { (2 ≤ run.depth) × (run.depth ≤ 10) }
    ensures { result ≡ replaced run t }
{
    run.stack[run.depth as usize - 2] = Pending {
        inverted: false,
        table: t,
    };
    run.depth -= 1;
    run
}

// An operand held; or, where the flag says so, the code of the table in which it is placed, the next one after those before the run and
// those placed.
pub fn hold(first: u16, placed: u8, cut: bool, x: Pending) -> Pending
    requires { (first < 2000) × (placed < 18) }
    ensures { result ≡ held_if cut first placed x }
{
    if cut {
        let code = tree::CODE_BASE + (first + placed as u16) + 1;
        Pending {
            inverted: x.inverted,
            table: single(code),
        }
    } else {
        x
    }
}

// The two operands on top joined, each placed first where its flag says so.
fn join(run: PlanRun, first: u16, kind: Kind, l: bool, r: bool) -> PlanRun
    requires { Joins first l r run }
    ensures { result ≡ joined first kind l r run }
{
    let depth = run.depth as usize;
    let x = operand(run, depth - 2);
    let y = operand(run, depth - 1);
    let a = hold(first, run.placed, l, x);
    let left = place(run, l, x.table);
    let b = hold(first, left.placed, r, y);
    let both = place(left, r, y.table);
    replace(both, merge(kind, a, b))
}

// A step of the plan of a gate with those fanins.
fn advance(run: PlanRun, first: u16, kind: Kind, operands: Operands, token: Token) -> PlanRun
    requires { Advances first kind operands token run }
    ensures { Advanced first kind operands token run result }
{
    match token {
        Token::Push(i) => push(run, operands.fanins[i as usize]),
        Token::Join(l, r) => join(run, first, kind, l, r),
    }
}

// A run that has not begun.
fn start() -> PlanRun
    ensures { Holds result × (result.depth ≡ 0) × (result.placed ≡ 0) }
{
    let table = zero_lut();
    let none = Pending {
        inverted: false,
        table,
    };
    PlanRun {
        depth: 0,
        stack: [none; 10],
        placed: 0,
        tables: [table; 18],
    }
}

// Follows the plan of a gate with those fanins, where so many tables stand before those that it places.
pub fn follow(first: u16, kind: Kind, operands: Operands, plan: Plan) -> PlanRun
    requires { Runnable first kind operands plan }
    ensures { Ran first kind operands plan result }
{
    let mut run = start();
    for token in &plan.steps[..plan.len as usize] {
        run = advance(run, first, kind, operands, *token);
    }
    run
}
