// Tables that are in no part yet: the types, and the laws of merging two by a gate. The code is in the crates `rows` and `merge`.
#![tactic(auto)]

ghost use Rattle.std.specs.Prelude.{◌≡◌};
ghost use Rattle.pending.specs.Luts.{zero_lut};

// A lookup table that is in no part yet, as a record without a level, which it gets where it is placed.
#[derive(Clone, Copy)]
pub struct Lut {
    pub net: u16,
    pub count: u8,
    pub inputs: [u16; 6],
    pub truth: u64,
}

// A table that is not placed yet, and whether what reads it reads it inverted.
#[derive(Clone, Copy)]
pub struct Pending {
    pub inverted: bool,
    pub table: Lut,
}

// A table of zeros.
pub fn zero_lut() -> Lut
    ensures { result ≡ zero_lut }
{
    Lut {
        net: 0,
        count: 0,
        inputs: [0u16; 6],
        truth: 0,
    }
}
