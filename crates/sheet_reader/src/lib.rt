// The reader of a sheet: its line 1, its gates, and what is tested after them.
#![tactic(auto)]

ghost use Rattle.std.specs.Prelude.{drop};
ghost use Rattle.sheet.specs.Trusted.Cut.{next_read};
ghost use Rattle.sheet.specs.Trusted.Promise.{SheetRead, NextRead};
ghost use Rattle.sheet_reader.specs.Inside.{EndRead, read_front};

use sheet::{Next, Refusal, Sheet, SheetError, at_line};
use sheet_gates::{Lines, first_unread, gate_lines};
use sheet_line::{Head, line_end, read_fields, read_head};

// What comes after the gates: bytes beyond the last line, and gates that are never read.
fn read_end(text: &[u8], lines: &Lines, head: Head, last: bool) -> Result<Next, SheetError>
    ensures { EndRead text.now lines.now head last result }
{
    let more = last && lines.end < text.len();
    if more {
        return Err(SheetError {
            why: Refusal::Layout,
            line: head.count as u16 + 2,
        });
    }
    if let Some(line) = first_unread(&lines.seen, head.count) {
        return Err(SheetError {
            why: Refusal::GateUnread,
            line,
        });
    }
    let gates = lines.gates;
    let fanins = lines.fanins;
    let sheet = Sheet {
        out: head.out,
        inverted: head.inverted,
        count: head.count,
        gates,
        fanins,
    };
    Ok(Next {
        sheet,
        end: lines.end,
    })
}

// A sheet from a place on, after which bytes may follow unless it is the last.
fn read_front(text: &[u8], start: usize, last: bool) -> Result<Next, SheetError>
    ensures { NextRead text.now (read_front last (drop start text.now)) result }
{
    let Some(end) = line_end(text, start) else {
        return Err(SheetError {
            why: Refusal::Layout,
            line: 1,
        });
    };
    let fields = read_fields(&text[start..end]);
    let head = at_line(read_head(fields), 1)?;
    let lines = gate_lines(text, end + 1, head.out, head.count)?;
    read_end(text, &lines, head, last)
}

// The sheet that a text is.
// `SheetRead`: the sheet, or the refusal, is what 01's reading gives for the text (`read_sheet`).
pub fn read(text: &[u8]) -> Result<Sheet, SheetError>
    ensures { SheetRead text.now result }
{
    let next = read_front(text, 0, true)?;
    Ok(next.sheet)
}

// The sheet at a place of a text, and the place after it, from which the text may go on.
// `NextRead`: the same of the text from the place on (`next_read`), after whose sheet bytes may follow.
pub fn read_next(text: &[u8], start: usize) -> Result<Next, SheetError>
    ensures { NextRead text.now (next_read (drop start text.now)) result }
{
    read_front(text, start, false)
}
