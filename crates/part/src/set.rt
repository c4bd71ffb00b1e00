// Adding a set of sheets to a part, all or none.
ghost use Rattle.std.specs.Prelude.{List, length};
ghost use Rattle.table.specs.LevelTest.{LevelsStand};
ghost use Rattle.set_lengths.specs.Trusted.Lengths.{Whole, cut};
ghost use Rattle.part.specs.Trusted.Parts.{tables_of};
ghost use Rattle.part.specs.Trusted.Sound.{Sound};
ghost use Rattle.part.specs.Trusted.Tries.{Try};
ghost use Rattle.part.specs.Trusted.Sets.{InTurn, AddSet};
ghost use Rattle.part.specs.Trusted.SetAnswers.{set_result, Positioned};

use crate::{Least, Part, SetAdded, SetError};

impl Part {
    // Adds the sheets of a set in turn to a part that is sound, all of them or none. The array has the levels of the part's codes.
    fn take_each(
        &mut self,
        text: &[u8],
        lengths: &[u32],
        levels: &mut [u16],
    ) -> Result<(), SetError>
        requires { Sound self.old × LevelsStand levels.old (tables_of self.old) × Whole lengths.now (length text.now) }
        ensures { (ts : List Try) × InTurn self.old 1 (cut lengths.now text.now) self.old (set_result self.new result ts) × Positioned result }
    {
        let mut part = *self;
        let mut at = 0;
        for i in 0..lengths.len() {
            let end = at + lengths[i] as usize;
            if let Err(why) = part.take::<Least>(&text[at..end], levels) {
                let position = i as u8 + 1;
                return Err(SetError::SheetRefused(why, position));
            }
            at = end;
        }
        *self = part;
        Ok(())
    }

    // Adds a set in place.
    fn add_set_in_place(&mut self, text: &[u8], lengths: &[u32]) -> Result<(), SetError>
        ensures { (ts : List Try) × AddSet self.old lengths.now text.now (set_result self.new result ts) × Positioned result }
    {
        let mut levels = self.levels().ok_or(SetError::Unsound)?;
        if !set_lengths::whole(lengths, text.len()) {
            return Err(SetError::LengthsUnfit);
        }
        self.take_each(text, lengths, &mut levels)
    }

    // Adds the sheets of a set, all or none: their text one after the other, with the length of each. The conditions that refuse it are
    // tested in 02's order: 20, 33, then each sheet's on the part with those before it.
    pub fn add_set(mut self, text: &[u8], lengths: &[u32]) -> SetAdded
        ensures { (ts : List Try) × AddSet self lengths.now text.now (set_result result.part result.answer ts) × Positioned result.answer }
    {
        let answer = self.add_set_in_place(text, lengths);
        SetAdded { part: self, answer }
    }
}
