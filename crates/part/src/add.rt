// Adding a sheet to a part.
ghost use Rattle.std.specs.Prelude.{ℕ, ◌≡◌, ◌<◌, ◌≤◌, length};
ghost use Rattle.table.specs.Trusted.Limits.{table_room};
ghost use Rattle.table.specs.LevelTest.{LevelsStand};
ghost use Rattle.part.specs.Trusted.Parts.{tables_of, available};
ghost use Rattle.part.specs.Trusted.Sound.{Sound};
ghost use Rattle.part.specs.Trusted.Ways.{least, fastest};
ghost use Rattle.part.specs.Trusted.Add.{Add, Offer, is_driven, net_read};
ghost use Rattle.part.specs.Storing.{Storable, Offered, stored};
ghost use Rattle.sheet.specs.Trusted.Answers.{drawn_sheet};
ghost use Rattle.sheet.specs.Trusted.Formed.{WellFormed};
ghost use Rattle.joined_mapper.specs.JoinedMap.{circuit_of};
ghost use Rattle.part.specs.Trusted.AddAnswers.{adding_answer};

use crate::{AddError, Added, Choose, Fastest, Least, Part};
use mapper_laws::Mapping;
use part_records::{Uses, with_table};
use sheet::Sheet;
use table::Table;
use table_levels::next_level;

impl Part {
    // What the tables of a part that is sound do with a net.
    fn uses(&self, net: u16) -> Uses
        requires { Sound self.now × (0 < net) }
        ensures { (is_driven net (tables_of self.now) ≡ result.driven) × (net_read net (tables_of self.now) ≡ result.read) }
    {
        let mut uses = Uses {
            driven: false,
            read: false,
        };
        for i in 0..self.used as usize {
            uses = with_table(uses, self.tables[i], net);
        }
        uses
    }

    // Stores the mapping's tables after those of a part that is sound and has room for them, each with its level. The array has the
    // levels of the part's codes, before and after.
    fn store(&mut self, mapping: Mapping, levels: &mut [u16])
        requires { Sound self.old × ((out : ℕ) × Storable out mapping) × (mapping.count ≤ available self.old) × LevelsStand levels.old (tables_of self.old) }
        ensures { (self.new ≡ stored self.old mapping) × LevelsStand levels.new (tables_of self.new) }
    {
        let first = self.used as usize;
        let count = mapping.count as usize;
        for n in 0..count {
            let at = first + n;
            let lut = mapping.tables[n];
            let inputs = lut.inputs;
            let level = next_level(levels, at, lut.net, lut.count, inputs);
            self.tables[at] = Table {
                net: lut.net,
                count: lut.count,
                inputs,
                truth: lut.truth,
                level,
            };
        }
        self.used += mapping.count as u16;
    }

    // Offers in place.
    fn offer_in_place(
        &mut self,
        out: u16,
        mapping: Mapping,
        levels: &mut [u16],
    ) -> Result<(), AddError>
        requires { Sound self.old × Storable out mapping × LevelsStand levels.old (tables_of self.old) }
        ensures { Offered self.old out mapping self.new (adding_answer result) × LevelsStand levels.new (tables_of self.new) }
    {
        let uses = self.uses(out);
        if uses.driven {
            return Err(AddError::OutputDriven);
        }
        if uses.read {
            return Err(AddError::OutputRead);
        }
        let needed = mapping.count as u16;
        let is_full = needed > self.capacity - self.used - self.reservation.count;
        if is_full {
            return Err(AddError::Full);
        }
        self.store(mapping, levels);
        Ok(())
    }

    // Adds a sheet that was mapped to a part that is sound: its tables after the old ones, each with its level, whichever way they
    // were chosen in. The conditions that refuse it are tested in 01's order: 21, 22, 23. The array has the levels of the part's codes,
    // before and after.
    pub fn offer(mut self, out: u16, mapping: Mapping, levels: &mut [u16]) -> Added
        requires { Sound self × Storable out mapping × LevelsStand levels.old (tables_of self) }
        ensures { Offered self out mapping result.part (adding_answer result.answer) × LevelsStand levels.new (tables_of result.part) }
    {
        let answer = self.offer_in_place(out, mapping, levels);
        Added { part: self, answer }
    }

    // Adds a sheet that was read to a part that is sound, its tables chosen in the way, as an offer does. Its records are as many as its type
    // says.
    pub fn offer_sheet<W: Choose>(
        &mut self,
        sheet: &Sheet,
        levels: &mut [u16],
    ) -> Result<(), AddError>
        requires { Sound self.old × WellFormed (drawn_sheet sheet.now) × LevelsStand levels.old (tables_of self.old) }
        ensures { Offer W.way self.old (circuit_of sheet.now) self.new (adding_answer result) × LevelsStand levels.new (tables_of self.new) × (length self.old.tables ≡ table_room) }
    {
        let mapping = W::mapped(self, sheet, levels);
        self.offer_in_place(sheet.out, mapping, levels)
    }

    // Adds the sheet that the text is to a part that is sound, in the way. The array has the levels of the part's codes, before and after.
    pub(crate) fn take<W: Choose>(
        &mut self,
        text: &[u8],
        levels: &mut [u16],
    ) -> Result<(), AddError>
        requires { Sound self.old × LevelsStand levels.old (tables_of self.old) }
        ensures { Add W.way self.old text.now self.new (adding_answer result) × LevelsStand levels.new (tables_of self.new) }
    {
        let sheet = sheet_reader::read(text)?;
        self.offer_sheet::<W>(&sheet, levels)
    }

    // Adds the sheet that the text is, in the way.
    fn add_by<W: Choose>(&mut self, text: &[u8]) -> Result<(), AddError>
        ensures { Add W.way self.old text.now self.new (adding_answer result) }
    {
        let mut levels = self.levels().ok_or(AddError::Unsound)?;
        self.take::<W>(text, &mut levels)
    }

    // Adds the sheet that the text is. The conditions that refuse it are tested in 01's order: 20, the sheet's own, then an offer's.
    pub fn add(mut self, text: &[u8]) -> Added
        ensures { Add least self text.now result.part (adding_answer result.answer) }
    {
        let answer = self.add_by::<Least>(text);
        Added { part: self, answer }
    }

    // Adds the sheet that the text is, its tables those of a cover with the least root level, and of those one of the fewest tables. The conditions
    // that refuse it are those of an add, in the same order; 23 goes by that number of tables.
    pub fn add_fast(mut self, text: &[u8]) -> Added
        ensures { Add fastest self text.now result.part (adding_answer result.answer) }
    {
        let answer = self.add_by::<Fastest>(text);
        Added { part: self, answer }
    }
}
