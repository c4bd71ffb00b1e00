// Mapping a sheet with its chained gates joined.
#![tactic(auto)]

ghost use Rattle.sheet.specs.Trusted.Answers.{drawn_sheet};
ghost use Rattle.sheet.specs.Trusted.Formed.{WellFormed};
ghost use Rattle.mapper_laws.specs.CodeMap.{Sheetable};
ghost use Rattle.joined_mapper.specs.JoinedMap.{CoversAs, JoinedMapped};

use chained_gates::none_joined;
use joiner::joined;
use mapper::map;
use mapper_laws::Mapping;
use sheet::Sheet;

// Joins the chained gates of a sheet that was read, so that it draws what is covered; one that has none stays as it is.
pub fn join_chained(sheet: &mut Sheet)
    requires { WellFormed (drawn_sheet sheet.old) }
    ensures { CoversAs sheet.old sheet.new }
{
    let chained = !none_joined(*sheet);
    if chained {
        *sheet = joined(*sheet);
    }
}

// Maps a sheet that was read with its chained gates joined.
pub fn map_joined(mut sheet: Sheet, k: u8, used: u16) -> Mapping
    requires { Sheetable k used sheet }
    ensures { JoinedMapped k used sheet result }
{
    join_chained(&mut sheet);
    map(sheet, k, used)
}
