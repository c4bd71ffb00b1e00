// The ways in which the tables of a sheet are chosen.
ghost use Rattle.sheet.specs.Trusted.Answers.{drawn_sheet};
ghost use Rattle.sheet.specs.Trusted.Formed.{WellFormed};
ghost use Rattle.table.specs.LevelTest.{LevelsStand};
ghost use Rattle.part.specs.Trusted.Parts.{tables_of};
ghost use Rattle.part.specs.Trusted.Sound.{Sound};
ghost use Rattle.part.specs.Trusted.Ways.{Way, least, fastest};
ghost use Rattle.part.specs.Storing.{MappedBy};

use crate::Part;
use joined_level_mapper::map_joined_fast;
use joined_mapper::map_joined;
use mapper_laws::Mapping;
use sheet::Sheet;

// A way. It is a type, so that a program that maps in one way alone holds the mapper of that way alone.
pub trait Choose {
    ghost way: { Way };

    // The tables of a sheet on a part that is sound. The array has the levels of the part's codes.
    fn mapped(part: &Part, sheet: &Sheet, levels: &[u16]) -> Mapping
        requires { Sound part.now × WellFormed (drawn_sheet sheet.now) × LevelsStand levels.now (tables_of part.now) }
        ensures { MappedBy way part.now sheet.now result };
}

// A cover of the fewest tables.
pub struct Least;

impl Choose for Least {
    ghost way = { least };

    fn mapped(part: &Part, sheet: &Sheet, _levels: &[u16]) -> Mapping {
        map_joined(*sheet, part.k, part.used)
    }
}

// A cover with the least root level, and of those one of the fewest tables.
pub struct Fastest;

impl Choose for Fastest {
    ghost way = { fastest };

    fn mapped(part: &Part, sheet: &Sheet, levels: &[u16]) -> Mapping {
        map_joined_fast(*sheet, part.k, part.used, levels)
    }
}
