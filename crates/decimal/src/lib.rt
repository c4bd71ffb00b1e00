// Decimal numbers in the columns of a field: when one is too wide for its field, and a value taken apart into its sign and its absolute value.
// The formats are those of 01, "Sheet" and "List". The reader is the crate `decimal_reader`, the writer `decimal_writer`.
#![tactic(auto)]

ghost use Rattle.std.specs.Prelude.{◌≡◌};
ghost use Rattle.decimal.specs.Trusted.Reading.{number_of_int};

// The columns of a field.
pub const COLUMNS: usize = 6;

// Why a number was not written: its field has too few columns.
#[derive(Clone, Copy, Debug, PartialEq, Eq)]
pub struct TooWide;

// The absolute value.
pub fn magnitude(v: i32) -> u32
    ensures { result ≡ (number_of_int v).magnitude }
{
    v.unsigned_abs()
}

// Whether it is below zero.
pub fn negative(v: i32) -> bool
    ensures { result ≡ (number_of_int v).negative }
{
    v.is_negative()
}
