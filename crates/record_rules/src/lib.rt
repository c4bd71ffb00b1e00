// The rules of one record by itself: of each rule a test, equal to the test of that name in table/specs/Trusted/RecordTest.
#![tactic(auto)]

ghost use Rattle.std.specs.Prelude.{◌≡◌, true, ◌^◌, ltb};
ghost use Rattle.table.specs.Trusted.RecordTest.{is_padded, is_coded, is_sized, is_blank};

use table::{Table, in_use};
use table_inputs::{all_codes, rising, zero_from};
use tree::GREATEST_NET;

// A whole record is zero.
pub fn is_blank(r: Table) -> bool
    ensures { result ≡ is_blank r }
{
    r.net == 0 && r.count == 0 && zero_from(r.inputs, 0) && r.truth == 0 && r.level == 0
}

// Unused inputs are zero.
pub fn padded(r: Table) -> bool
    ensures { result ≡ is_padded r }
{
    zero_from(r.inputs, in_use(r.count))
}

// The net driven is a net or 0, and each input is a net or names a table.
pub fn coded(r: Table) -> bool
    ensures { result ≡ is_coded r }
{
    r.net <= GREATEST_NET && all_codes(r.inputs, in_use(r.count))
}

// The truth table has no bit from 2^count up. Six inputs or more use all 64 bits.
fn truth_fits(count: u8, truth: u64) -> bool
    ensures { result ≡ ltb truth (2 ^ (2 ^ count)) }
{
    match count {
        0 => truth < 2,
        1 => truth < 4,
        2 => truth < 16,
        3 => truth < 256,
        4 => truth < 65536,
        5 => truth < 4294967296,
        _ => true,
    }
}

// The count of inputs is from 2 to k, the inputs rise, and the truth table fits.
pub fn sized(k: u8, r: Table) -> bool
    ensures { result ≡ is_sized k r }
{
    2 <= r.count
        && r.count <= k
        && rising(r.inputs, in_use(r.count))
        && truth_fits(r.count, r.truth)
}
