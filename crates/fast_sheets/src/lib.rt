// The sheets of an input, added to a part of no tables one after the other, each mapped to the fewest levels. `fast_program` alone calls
// this, and proves that the part is sound and has none.
#![tactic(auto)]

ghost use Rattle.std.specs.Prelude.{◌≡◌, drop};
ghost use Rattle.part.specs.Trusted.Sound.{Sound};
ghost use Rattle.part.specs.Trusted.Ways.{fastest};
ghost use Rattle.sheets.specs.Promises.{Ended};

use part::{Fastest, NumberedRefusal, Part};
use sheets::add_sheets_by;

// Adds the sheets from the place to the input's end, by the fewest levels, up to the first that is refused.
pub fn add_sheets_fast(part: &mut Part, input: &[u8], start: usize) -> Result<(), NumberedRefusal>
    requires { Sound part.old × (part.old.used ≡ 0) }
    ensures { Ended fastest part.old (drop start input.now) part.new result }
{
    add_sheets_by::<Fastest>(part, input, start)
}
