// Reserving tables for a sheet, and closing the reservation by a commit or a withdrawal.
ghost use Rattle.std.specs.Prelude.{◌≡◌, List, []};
ghost use Rattle.table.specs.LevelTest.{LevelsStand};
ghost use Rattle.part.specs.Trusted.Parts.{tables_of, released as releasedPart};
ghost use Rattle.part.specs.Trusted.Sound.{Sound};
ghost use Rattle.part.specs.Trusted.Ways.{least};
ghost use Rattle.part.specs.Trusted.Tries.{Try};
ghost use Rattle.part.specs.Trusted.Reservations.{Reserves, Reserve, Committed, Commit, reservation_open, withdrawn};
ghost use Rattle.part.specs.Trusted.AddAnswers.{adding_answer, adding_result};

use crate::{AddError, Added, Least, Part};
use part_records::Reservation;

impl Part {
    // A reservation is open.
    fn is_reserved(&self) -> bool
        ensures { result ≡ reservation_open self.now }
    {
        self.reservation.count != 0
    }

    // Closes it.
    fn release(&mut self)
        ensures { self.new ≡ releasedPart self.old }
    {
        let none = Reservation { count: 0, net: 0 };
        self.reservation = none;
    }

    // Sets aside the tables of the sheet that the text is, on a part that is sound. The array has the levels of the part's codes.
    fn set_aside(&mut self, text: &[u8], levels: &mut [u16]) -> Result<(), AddError>
        requires { Sound self.old × LevelsStand levels.old (tables_of self.old) }
        ensures { Reserves least self.old text.now self.new (adding_answer result) }
    {
        let sheet = sheet_reader::read(text)?;
        let mut filled = *self;
        filled.offer_sheet::<Least>(&sheet, levels)?;
        self.reservation = Reservation {
            count: filled.used - self.used,
            net: sheet.out,
        };
        Ok(())
    }

    // Reserves in place.
    fn reserve_in_place(&mut self, text: &[u8]) -> Result<(), AddError>
        ensures { (ts : List Try) × Reserve self.old text.now (adding_result self.new result ts) }
    {
        let mut levels = self.levels().ok_or(AddError::Unsound)?;
        if self.is_reserved() {
            return Err(AddError::AlreadyReserved);
        }
        self.set_aside(text, &mut levels)
    }

    // Sets aside the least number of tables of the sheet that the text is, for its output net, and takes no table. The conditions that
    // refuse it are tested in 02's order: 20, 35, then those of an add.
    pub fn reserve(mut self, text: &[u8]) -> Added
        ensures { (ts : List Try) × Reserve self text.now (adding_result result.part result.answer ts) }
    {
        let answer = self.reserve_in_place(text);
        Added { part: self, answer }
    }

    // Adds the sheet that the text is, whose output net must be the reserved one, to a part that is sound, and closes the reservation. The
    // array has the levels of the part's codes.
    fn commit_sheet(&mut self, text: &[u8], levels: &mut [u16]) -> Result<(), AddError>
        requires { Sound self.old × LevelsStand levels.old (tables_of self.old) }
        ensures { (ts : List Try) × Committed self.old text.now (adding_result self.new result ts) }
    {
        let sheet = sheet_reader::read(text)?;
        if sheet.out != self.reservation.net {
            return Err(AddError::NotReserved);
        }
        let mut closed = *self;
        closed.release();
        closed.offer_sheet::<Least>(&sheet, levels)?;
        *self = closed;
        Ok(())
    }

    // Commits in place.
    fn commit_in_place(&mut self, text: &[u8]) -> Result<(), AddError>
        ensures { (ts : List Try) × Commit self.old text.now (adding_result self.new result ts) }
    {
        let mut levels = self.levels().ok_or(AddError::Unsound)?;
        if !self.is_reserved() {
            return Err(AddError::NotReserved);
        }
        self.commit_sheet(text, &mut levels)
    }

    // Adds the sheet that the text is, whose output net must be the reserved one, with the tables set aside to be used, and closes the
    // reservation. The conditions that refuse it are tested in 02's order: 20, 36 where none is open, the sheet's own, 36 for another output
    // net, then 21, 22 and 23. A refused commit keeps the reservation.
    pub fn commit(mut self, text: &[u8]) -> Added
        ensures { (ts : List Try) × Commit self text.now (adding_result result.part result.answer ts) }
    {
        let answer = self.commit_in_place(text);
        Added { part: self, answer }
    }

    // Withdraws in place.
    fn withdraw_in_place(&mut self) -> Result<(), AddError>
        ensures { adding_result self.new result [] ≡ withdrawn self.old }
    {
        if !self.sound() {
            return Err(AddError::Unsound);
        }
        let is_open = self.is_reserved();
        if !is_open {
            return Err(AddError::NotReserved);
        }
        self.release();
        Ok(())
    }

    // Closes the reservation, and takes no table. The conditions that refuse it are tested in 02's order: 20, then 36 where none is open.
    pub fn withdraw(mut self) -> Added
        ensures { adding_result result.part result.answer [] ≡ withdrawn self }
    {
        let answer = self.withdraw_in_place();
        Added { part: self, answer }
    }
}
