// One line of a sheet: where it ends, its fields, and what line 1 and a gate's line say.
#![tactic(auto)]

ghost use Rattle.std.specs.Prelude.{◌≡◌, IfSome};
ghost use Rattle.sheet.specs.Trusted.Answers.{found};
ghost use Rattle.sheet.specs.Trusted.Read.{counts, head_of, kind_of};
ghost use Rattle.sheet_line.specs.Inside.{LineEnds, value_of, numbers_of, FieldsRoom, FieldsRead, head_step, GateHeadRead, GateLineRead};

use lists::within;
use sheet::{MOST_GATES, Refusal};
use tree::{FEWEST_FANINS, Kind, MOST_FANINS};

// The most fields of a line.
const MOST_FIELDS: usize = 12;

// The first line feed from a place on.
pub fn line_end(text: &[u8], start: usize) -> Option<usize>
    ensures { LineEnds text.now start result }
{
    for i in start..text.len() {
        if text[i] == b'\n' {
            return Some(i);
        }
    }
    None
}

// The number in a field: its sign apart, since on a net or a fanin it says that the value is inverted. The sign is 1 for a minus sign,
// else 0: in as many bytes as the magnitude, so that no bytes lie between the fields, which a copy would take one by one.
#[derive(Clone, Copy, Debug, PartialEq, Eq)]
pub struct FieldValue {
    pub sign: u32,
    pub magnitude: u32,
}

// The fields of a line: the numbers in them. What stands past the count is of no matter.
#[derive(Clone, Copy)]
pub struct Fields {
    pub count: usize,
    pub numbers: [FieldValue; MOST_FIELDS],
}

// The fields of the bytes before a line feed: one to twelve, each a number in six columns.
pub fn read_fields(line: &[u8]) -> Option<Fields>
    ensures { FieldsRead line.now result }
{
    if line.len() % decimal::COLUMNS != 0 {
        return None;
    }
    let count = line.len() / decimal::COLUMNS;
    if count == 0 || MOST_FIELDS < count {
        return None;
    }
    let zero = FieldValue {
        sign: 0,
        magnitude: 0,
    };
    let mut numbers = [zero; MOST_FIELDS];
    for i in 0..count {
        let at = i * decimal::COLUMNS;
        let v = decimal_reader::read(&line[at..at + decimal::COLUMNS])?;
        numbers[i] = FieldValue {
            sign: decimal::negative(v) as u32,
            magnitude: decimal::magnitude(v),
        };
    }
    Some(Fields { count, numbers })
}

// A count has no sign.
fn counts(low: u32, high: u32, x: FieldValue) -> bool
    ensures { result ≡ counts low high (value_of x) }
{
    x.sign == 0 && within(low, high, x.magnitude)
}

// What line 1 says: the output net, whether the tree's value is inverted, and the number of gates.
#[derive(Clone, Copy, Debug, PartialEq, Eq)]
pub struct Head {
    pub out: u16,
    pub inverted: bool,
    pub count: u8,
}

pub fn read_head(fields: Option<Fields>) -> Result<Head, Refusal>
    requires { IfSome fields FieldsRoom }
    ensures { head_of (numbers_of fields) ≡ head_step result }
{
    let Some(f) = fields else {
        return Err(Refusal::Layout);
    };
    if f.count != 2 {
        return Err(Refusal::Layout);
    }
    let out = f.numbers[0];
    let gates = f.numbers[1];
    let net = out.magnitude;
    if !within(1, tree::GREATEST_NET as u32, net) {
        return Err(Refusal::OutputNet);
    }
    if !counts(1, MOST_GATES as u32, gates) {
        return Err(Refusal::GateCount);
    }
    Ok(Head {
        out: net as u16,
        inverted: out.sign != 0,
        count: gates.magnitude as u8,
    })
}

fn read_kind(x: FieldValue) -> Option<Kind>
    ensures { kind_of (value_of x) ≡ found result }
{
    if counts(1, 1, x) {
        return Some(Kind::And);
    }
    if counts(2, 2, x) {
        return Some(Kind::Or);
    }
    None
}

// What the first two fields of a gate's line say: its kind and its fanin count, which the line has fields for.
#[derive(Clone, Copy)]
struct GateHead {
    kind: Kind,
    count: u8,
}

fn read_gate_head(f: Fields) -> Result<GateHead, Refusal>
    requires { FieldsRoom f }
    ensures { GateHeadRead f result }
{
    if f.count < 2 {
        return Err(Refusal::Layout);
    }
    let Some(kind) = read_kind(f.numbers[0]) else {
        return Err(Refusal::GateKind);
    };
    let second = f.numbers[1];
    if !counts(FEWEST_FANINS as u32, MOST_FANINS as u32, second) {
        return Err(Refusal::FaninCount);
    }
    let n = second.magnitude;
    if n as usize != f.count - 2 {
        return Err(Refusal::Layout);
    }
    Ok(GateHead {
        kind,
        count: n as u8,
    })
}

// A gate's line: its kind, its fanin count, the place after the line, and the line's numbers.
#[derive(Clone, Copy)]
pub struct GateLine {
    pub kind: Kind,
    pub count: u8,
    pub end: usize,
    pub numbers: [FieldValue; MOST_FIELDS],
}

// The gate's line from a place on, up to its fanins.
pub fn read_gate_line(text: &[u8], start: usize) -> Result<GateLine, Refusal>
    ensures { GateLineRead text.now start result }
{
    let Some(end) = line_end(text, start) else {
        return Err(Refusal::Layout);
    };
    let Some(fields) = read_fields(&text[start..end]) else {
        return Err(Refusal::Layout);
    };
    let numbers = fields.numbers;
    let head = read_gate_head(fields)?;
    Ok(GateLine {
        kind: head.kind,
        count: head.count,
        end: end + 1,
        numbers,
    })
}
