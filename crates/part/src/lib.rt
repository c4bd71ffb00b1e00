// Parts of the row module: a device that holds lookup tables.
#![tactic(auto)]

mod add;
mod reserve;
mod set;
mod way;

ghost use Rattle.std.specs.Prelude.{◌≡◌, ◌<◌, true, false, MatchOption};
ghost use Rattle.table.specs.LevelTest.{LevelsStand};
ghost use Rattle.part.specs.Trusted.Answers.{refused, empty as emptyPart};
ghost use Rattle.part.specs.Trusted.Parts.{tables_of};
ghost use Rattle.part.specs.declared.AddError.TheVariants.{Misread};
ghost use Rattle.part.specs.Trusted.Add.{opened};
ghost use Rattle.part.specs.Trusted.OpenAnswers.{open_refusal, opening_result};
ghost use Rattle.part.specs.Trusted.AddAnswers.{add_refusal};
ghost use Rattle.part.specs.Trusted.SetAnswers.{set_refusal, refused_position};
ghost use Rattle.part.specs.Trusted.SoundTest.{sound as isSound};

use lists::within;
use part_records::Reservation;
use sheet::SheetError;
use table::{CODE_ROOM, INPUT_ROOM, TABLE_ROOM, Table, blank};
pub use way::{Choose, Fastest, Least};

// A part of the row module: the most inputs of a table, how many tables it can hold, how many it holds, what is reserved, and the tables.
#[derive(Clone, Copy)]
pub struct Part {
    pub k: u8,
    pub capacity: u16,
    pub used: u16,
    pub reservation: Reservation,
    pub tables: [Table; 800],
}

// Why an opening is refused. OpenAnswers in specs/Trusted gives the numbers.
#[derive(Clone, Copy, Debug, PartialEq, Eq)]
pub enum OpenError {
    KOutOfRange,
    CapacityOutOfRange,
}

// The part that an opening hands back, all zeros where it is refused, and the answer.
#[derive(Clone, Copy)]
pub struct Opened {
    pub part: Part,
    pub answer: Result<(), OpenError>,
}

// Why an add is refused, a reservation, a commit or a withdrawal. AddAnswers in specs/Trusted gives the numbers and places.
#[derive(Clone, Copy, Debug, PartialEq, Eq)]
pub enum AddError {
    Unsound,
    Misread(SheetError),
    OutputDriven,
    OutputRead,
    Full,
    AlreadyReserved,
    NotReserved,
}

// The part that such a call hands back, the one it got where it is refused, and the answer.
#[derive(Clone, Copy)]
pub struct Added {
    pub part: Part,
    pub answer: Result<(), AddError>,
}

// Why a set of sheets is refused: of a sheet why, and its position in the set, from 1. SetAnswers in specs/Trusted gives the numbers,
// places and positions.
#[derive(Clone, Copy, Debug, PartialEq, Eq)]
pub enum SetError {
    Unsound,
    LengthsUnfit,
    SheetRefused(AddError, u8),
}

// The part that adding a set hands back, the one it got where it is refused, and the answer.
#[derive(Clone, Copy)]
pub struct SetAdded {
    pub part: Part,
    pub answer: Result<(), SetError>,
}

// What is told of a refusal: its number, the position of the sheet that is refused, from 1, or 0, and the line of that sheet, or 0.
#[derive(Clone, Copy, Debug, PartialEq, Eq)]
pub struct NumberedRefusal {
    pub number: u8,
    pub sheet: u16,
    pub line: u16,
}

impl OpenError {
    pub fn numbered(self) -> NumberedRefusal
        ensures { (open_refusal self ≡ refused result.number result.line) × (result.sheet ≡ 0) × (0 < result.number) }
    {
        let number = match self {
            OpenError::KOutOfRange => 2,
            OpenError::CapacityOutOfRange => 3,
        };
        NumberedRefusal {
            number,
            sheet: 0,
            line: 0,
        }
    }
}

impl From<SheetError> for AddError {
    ghost from_gives = { λ error why. why ≡ Misread error };

    fn from(error: SheetError) -> AddError {
        AddError::Misread(error)
    }
}

impl AddError {
    // The refusal of the sheet at a position, 0 where it has none.
    pub fn numbered(self, sheet: u16) -> NumberedRefusal
        ensures { (add_refusal self ≡ refused result.number result.line) × (result.sheet ≡ sheet) × (0 < result.number) }
    {
        let (number, line) = match self {
            AddError::Unsound => (20, 0),
            AddError::Misread(error) => (sheet::number(error.why), error.line),
            AddError::OutputDriven => (21, 0),
            AddError::OutputRead => (22, 0),
            AddError::Full => (23, 0),
            AddError::AlreadyReserved => (35, 0),
            AddError::NotReserved => (36, 0),
        };
        NumberedRefusal {
            number,
            sheet,
            line,
        }
    }
}

impl SetError {
    pub fn numbered(self) -> NumberedRefusal
        ensures { (set_refusal self ≡ refused result.number result.line) × (result.sheet ≡ refused_position self) × (0 < result.number) }
    {
        match self {
            SetError::Unsound => NumberedRefusal {
                number: 20,
                sheet: 0,
                line: 0,
            },
            SetError::LengthsUnfit => NumberedRefusal {
                number: 33,
                sheet: 0,
                line: 0,
            },
            SetError::SheetRefused(why, position) => why.numbered(position as u16),
        }
    }
}

// A part with this K and this capacity that holds no table and has nothing reserved.
pub fn empty(k: u8, capacity: u16) -> Part
    ensures { result ≡ emptyPart k capacity }
{
    Part {
        k,
        capacity,
        used: 0,
        reservation: Reservation { count: 0, net: 0 },
        tables: [blank(); 800],
    }
}

// An opening that is refused.
fn unopened(why: OpenError) -> Opened
    ensures { opening_result result ≡ record { part = emptyPart 0 0; answer = open_refusal why } }
{
    Opened {
        part: empty(0, 0),
        answer: Err(why),
    }
}

impl Part {
    // A part of no tables. K is tested before the capacity.
    pub fn open(k: u32, capacity: u32) -> Opened
        ensures { opening_result result ≡ opened k capacity }
    {
        if !within(2, INPUT_ROOM, k) {
            return unopened(OpenError::KOutOfRange);
        }
        if !within(1, TABLE_ROOM, capacity) {
            return unopened(OpenError::CapacityOutOfRange);
        }
        Opened {
            part: empty(k as u8, capacity as u16),
            answer: Ok(()),
        }
    }

    // The levels of the part's codes, where it is sound.
    fn levels(&self) -> Option<[u16; CODE_ROOM]>
        ensures { MatchOption result (isSound self.now ≡ false) (λ levels. (isSound self.now ≡ true) × LevelsStand levels (tables_of self.now)) }
    {
        let mut levels = [0u16; CODE_ROOM];
        let is_sound = part_records::sound(
            self.k,
            self.capacity,
            self.used,
            self.reservation,
            self.tables,
            &mut levels,
        );
        if is_sound { Some(levels) } else { None }
    }

    // The part keeps 01's five points of soundness, its tables have their levels and its reservation is one that it may have, whatever its fields hold.
    pub fn sound(&self) -> bool
        ensures { result ≡ isSound self.now }
    {
        self.levels().is_some()
    }
}
