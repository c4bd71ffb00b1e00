// The list of a part, written into a lent buffer: one line, or the whole list.
#![tactic(auto)]

ghost use Rattle.std.specs.Prelude.{◌≡◌, ◌+◌, ◌≤◌, length, true};
ghost use Rattle.part.specs.Trusted.SoundTest.{sound as isSound};
ghost use Rattle.list_line.specs.Trusted.Writes.{pasted};
ghost use Rattle.listing.specs.Trusted.WriteAnswers.{result_of};
ghost use Rattle.listing.specs.Lines.{line_written, list_written, table_lines};

use list_line::{has_room, put_table, put_top, table_width};
use part::Part;

// The bytes of line 0: three fields and the line feed.
const TOP: usize = 19;

// Why nothing was written. WriteAnswers in specs/Trusted gives the refusals' numbers.
#[derive(Clone, Copy, Debug, PartialEq, Eq)]
pub enum WriteError {
    NotSound,
    NoLine,
    NoRoom,
}

// Writes a line of the part's list from the place on, line 0 or the line of a table, and gives how many bytes that is.
pub fn write_line(p: Part, line: u32, buf: &mut [u8], at: usize) -> Result<usize, WriteError>
    ensures { record { result = result_of result; bytes = buf.new } ≡ line_written p line buf.old at }
{
    if !p.sound() {
        return Err(WriteError::NotSound);
    }
    if line > p.used as u32 {
        return Err(WriteError::NoLine);
    }
    if line == 0 {
        if !has_room(buf.len(), at, TOP) {
            return Err(WriteError::NoRoom);
        }
        put_top(buf, at, p.k, p.capacity, p.used);
        return Ok(TOP);
    }
    let t = (line - 1) as usize;
    let r = p.tables[t];
    let width = table_width(r);
    if !has_room(buf.len(), at, width) {
        return Err(WriteError::NoRoom);
    }
    put_table(buf, at, line as u16, r);
    Ok(width)
}

// The bytes of the lines of the part's tables.
fn tables_width(p: Part) -> usize
    requires { p.used ≤ 800 }
    ensures { (result ≡ length (table_lines p p.used)) × (result ≤ 60800) }
{
    let used = p.used as usize;
    let mut width: usize = 0;
    for t in 0..used {
        let r = p.tables[t];
        width += table_width(r);
    }
    width
}

// The lines of the part's tables, one after another, from the place on.
fn put_tables(buf: &mut [u8], at: usize, p: Part)
    requires { (p.used ≤ 800) × (at + length (table_lines p p.used) ≤ length buf.old) }
    ensures { buf.new ≡ pasted buf.old at (table_lines p p.used) }
{
    let used = p.used as usize;
    let mut place = at;
    for t in 0..used {
        let r = p.tables[t];
        put_table(buf, place, (t + 1) as u16, r);
        place += table_width(r);
    }
}

// Writes the list of a sound part from the place on, and gives how many bytes that is.
pub fn write_sound_list(p: Part, buf: &mut [u8], at: usize) -> Result<usize, WriteError>
    requires { isSound p ≡ true }
    ensures { record { result = result_of result; bytes = buf.new } ≡ list_written p buf.old at }
{
    let width = TOP + tables_width(p);
    if !has_room(buf.len(), at, width) {
        return Err(WriteError::NoRoom);
    }
    put_top(buf, at, p.k, p.capacity, p.used);
    put_tables(buf, at + TOP, p);
    Ok(width)
}

// Writes the part's list from the place on: every line, after one test of soundness.
pub fn write_list(p: Part, buf: &mut [u8], at: usize) -> Result<usize, WriteError>
    ensures { record { result = result_of result; bytes = buf.new } ≡ list_written p buf.old at }
{
    if !p.sound() {
        return Err(WriteError::NotSound);
    }
    write_sound_list(p, buf, at)
}
