// One line of a list, written into a lent buffer that has room for it, and whether it has.
#![tactic(auto)]

ghost use Rattle.std.specs.Prelude.{◌≡◌, [], ◌∷◌, ◌+◌, ◌*◌, ◌≤◌, leb, length, take};
ghost use Rattle.decimal.specs.Trusted.Columns.{field_of, fields_of};
ghost use Rattle.list_line.specs.Trusted.TableLine.{table_line};
ghost use Rattle.list_line.specs.Trusted.Writes.{pasted};
ghost use Rattle.list_line.specs.Line.{top_line, table_width};

use table::{Table, in_use};

// The columns of a field, and of a truth table's.
const FIELD: usize = 6;

const TRUTH: usize = 21;

// So many bytes fit from the place to the buffer's end.
pub fn has_room(len: usize, at: usize, count: usize) -> bool
    ensures { result ≡ leb (at + count) len }
{
    at <= len && count <= len - at
}

// A number of a field, from the place on.
fn put_field(buf: &mut [u8], at: usize, n: u16)
    requires { at + 6 ≤ length buf.old }
    ensures { buf.new ≡ pasted buf.old at (field_of 6 n) }
{
    let _ = decimal_writer::write_at(buf, at, FIELD, n as u64);
}

// A truth table, from the place on.
fn put_truth(buf: &mut [u8], at: usize, truth: u64)
    requires { at + 21 ≤ length buf.old }
    ensures { buf.new ≡ pasted buf.old at (field_of 21 truth) }
{
    let _ = decimal_writer::write_at(buf, at, TRUTH, truth);
}

// A line feed at the place.
fn put_line_feed(buf: &mut [u8], at: usize)
    requires { at + 1 ≤ length buf.old }
    ensures { buf.new ≡ pasted buf.old at (10 ∷ []) }
{
    buf[at] = b'\n';
}

// The first n inputs, each in a field.
fn put_inputs(buf: &mut [u8], at: usize, inputs: [u16; 6], n: usize)
    requires { (n ≤ 6) × (at + 6 * n ≤ length buf.old) }
    ensures { buf.new ≡ pasted buf.old at (fields_of (take n inputs)) }
{
    for i in 0..n {
        put_field(buf, at + FIELD * i, inputs[i]);
    }
}

// Three numbers, each in a field.
fn put_three(buf: &mut [u8], at: usize, first: u16, second: u16, third: u16)
    requires { at + 18 ≤ length buf.old }
    ensures { buf.new ≡ pasted buf.old at (fields_of (first ∷ second ∷ third ∷ [])) }
{
    put_field(buf, at, first);
    put_field(buf, at + 6, second);
    put_field(buf, at + 12, third);
}

// Line 0: K, the capacity and the used count.
pub fn put_top(buf: &mut [u8], at: usize, k: u8, capacity: u16, used: u16)
    requires { at + 19 ≤ length buf.old }
    ensures { buf.new ≡ pasted buf.old at (top_line k capacity used) }
{
    put_three(buf, at, k as u16, capacity, used);
    put_line_feed(buf, at + 18);
}

// The bytes of a table's line.
pub fn table_width(r: Table) -> usize
    ensures { (result ≡ table_width r) × (result ≤ 76) }
{
    40 + FIELD * in_use(r.count)
}

// The line of table t.
pub fn put_table(buf: &mut [u8], at: usize, t: u16, r: Table)
    requires { at + table_width r ≤ length buf.old }
    ensures { buf.new ≡ pasted buf.old at (table_line t r) }
{
    let inputs = r.inputs;
    let n = in_use(r.count);
    let truth = at + 18 + FIELD * n;
    put_three(buf, at, t, r.net, r.count as u16);
    put_inputs(buf, at + 18, inputs, n);
    put_truth(buf, truth, r.truth);
    put_line_feed(buf, truth + TRUTH);
}
