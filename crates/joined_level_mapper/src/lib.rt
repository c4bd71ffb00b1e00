// Mapping a sheet with its chained gates joined to the fewest levels.
#![tactic(auto)]

ghost use Rattle.mapper_laws.specs.CodeMap.{Sheetable};
ghost use Rattle.level_sheets.specs.Lined.{net_level};
ghost use Rattle.level_mapping.specs.FastMapping.{LevelsLow};
ghost use Rattle.joined_level_mapper.specs.JoinedFast.{JoinedFast};

use joined_mapper::join_chained;
use level_mapper::map_fast;
use mapper_laws::Mapping;
use sheet::Sheet;

// Maps a sheet that was read with its chained gates joined to the fewest levels, and then to the fewest tables, where the nets have these levels.
pub fn map_joined_fast(mut sheet: Sheet, k: u8, used: u16, levels: &[u16]) -> Mapping
    requires { Sheetable k used sheet × LevelsLow levels.now }
    ensures { JoinedFast k used (net_level levels.now) sheet result }
{
    join_chained(&mut sheet);
    map_fast(sheet, k, used, levels)
}
