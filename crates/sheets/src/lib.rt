// The sheets of an input, added to a part of no tables one after the other. `program` and `fast_sheets` alone call this, and prove that
// the part is sound and has none.
#![tactic(auto)]

ghost use Rattle.std.specs.Prelude.{◌≡◌, ◌<◌, length, drop};
ghost use Rattle.table.specs.LevelTest.{LevelsStand};
ghost use Rattle.part.specs.Trusted.Parts.{tables_of};
ghost use Rattle.part.specs.Trusted.Sound.{Sound};
ghost use Rattle.part.specs.Trusted.Ways.{least};
ghost use Rattle.sheets.specs.Promises.{Stepped, Ended};

use part::{AddError, Choose, Least, NumberedRefusal, Part};
use table::CODE_ROOM;

// Adds the sheet at a place of the input to a part that is sound, in the way, and gives the place after it. The array has the levels of
// the part's codes, before and after.
fn add_next<W: Choose>(
    part: &mut Part,
    input: &[u8],
    at: usize,
    levels: &mut [u16],
) -> Result<usize, AddError>
    requires { Sound part.old × LevelsStand levels.old (tables_of part.old) × (at < length input.now) }
    ensures { Stepped W.way input.now part.old at part.new result × LevelsStand levels.new (tables_of part.new) }
{
    let next = sheet_reader::read_next(input, at)?;
    part.offer_sheet::<W>(&next.sheet, levels)?;
    Ok(next.end)
}

// Adds the sheets from the place to the input's end, in the way, up to the first that is refused: the refusal has its position. An
// accepted one takes a table or more, so the capacity bounds their number. The levels of the part's codes go along from sheet to sheet.
pub fn add_sheets_by<W: Choose>(
    part: &mut Part,
    input: &[u8],
    start: usize,
) -> Result<(), NumberedRefusal>
    requires { Sound part.old × (part.old.used ≡ 0) }
    ensures { Ended W.way part.old (drop start input.now) part.new result }
{
    let mut levels = [0u16; CODE_ROOM];
    let mut at = start;
    let mut sheet: u16 = 0;
    while at < input.len() {
        sheet += 1;
        match add_next::<W>(part, input, at, &mut levels) {
            Ok(end) => at = end,
            Err(why) => return Err(why.numbered(sheet)),
        }
    }
    Ok(())
}

// The same by the fewest tables.
pub fn add_sheets(part: &mut Part, input: &[u8], start: usize) -> Result<(), NumberedRefusal>
    requires { Sound part.old × (part.old.used ≡ 0) }
    ensures { Ended least part.old (drop start input.now) part.new result }
{
    add_sheets_by::<Least>(part, input, start)
}
