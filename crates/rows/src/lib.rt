// Words with a bit for each of 64 rows: a truth table's values in the rows of given inputs, and what a gate makes of them.
#![tactic(auto)]

ghost use Rattle.std.specs.Prelude.{◌≡◌, ◌-◌, ◌^◌, ◌≤◌, length, take, get_or};
ghost use Rattle.tree.specs.Trusted.Tree.{turned, meet as meet_of};
ghost use Rattle.cover.specs.Trusted.Bits.{bit as bit_of, digit as digit_of, place as place_of};
ghost use Rattle.table.specs.Trusted.Limits.{input_room};
ghost use Rattle.pending.specs.Merging.{padded, columns_of, row_value, Rows, Words, MergeRoom, Filled};

use tree::Kind;

// For each place of an input the rows' bits there. No row has a bit at 6.
const COLUMNS: [u64; 7] = [
    0xAAAA_AAAA_AAAA_AAAA,
    0xCCCC_CCCC_CCCC_CCCC,
    0xF0F0_F0F0_F0F0_F0F0,
    0xFF00_FF00_FF00_FF00,
    0xFFFF_0000_FFFF_0000,
    0xFFFF_FFFF_0000_0000,
    0,
];

// A one for each row of n inputs.
pub fn ones(n: usize) -> u64
    requires { n ≤ input_room }
    ensures { result ≡ 2 ^ 2 ^ n - 1 }
{
    u64::MAX >> (64 - (1u64 << n))
}

// The values in the rows, turned over where the flag says so.
pub fn turn(inverted: bool, w: u64) -> u64
    ensures { Rows (λ row. turned inverted (bit_of w row)) result }
{
    if inverted { u64::MAX - w } else { w }
}

// The values of a gate of two fanins in the rows.
pub fn meet(kind: Kind, a: u64, b: u64) -> u64
    ensures { Rows (λ row. meet_of kind (bit_of a row) (bit_of b row)) result }
{
    match kind {
        Kind::And => a & b,
        Kind::Or => a | b,
    }
}

// The place of a code among the first inputs, from 0; their count where it is none of them.
fn place(code: u16, inputs: &[u16; 6], count: usize) -> usize
    requires { MergeRoom count inputs.now }
    ensures { result ≡ place_of code (take count inputs.now) }
{
    for i in 0..count {
        if inputs[i] == code {
            return i;
        }
    }
    count
}

// The columns of the first n codes among the first inputs.
fn columns<'a>(codes: &'a [u16; 6], n: usize, inputs: &'a [u16; 6], count: usize) -> [u64; 6]
    requires { MergeRoom n codes.now × MergeRoom count inputs.now }
    ensures { result ≡ padded (columns_of (take n codes.now) (take count inputs.now)) }
{
    let table = COLUMNS;
    let mut out = [0u64; 6];
    for i in 0..n {
        let p = place(codes[i], inputs, count);
        out[i] = table[p];
    }
    out
}

// The bits of a truth table made words, two bits a word: the second in the rows where the column has a one, else the first.
fn pairs(words: &mut [u64; 32], size: usize, truth: u64, column: u64)
    requires { (size ≤ 32) × (length words.old ≡ 32) }
    ensures { Words (λ j row. bit_of truth (digit_of (bit_of column row) j)) size words.new }
{
    let cases = [0, u64::MAX - column, column, u64::MAX];
    for j in 0..size {
        let two = (truth >> (2 * j)) % 4;
        words[j] = cases[two as usize];
    }
}

// Two words made one: the second in the rows where the column has a one, else the first.
fn fold(words: &mut [u64; 32], size: usize, column: u64)
    requires { (size ≤ 16) × (length words.old ≡ 32) }
    ensures { Words (λ j row. bit_of (get_or words.old (digit_of (bit_of column row) j) 0) row) size words.new }
{
    for j in 0..size {
        let w = words[2 * j];
        words[j] = w ^ ((w ^ words[1 + 2 * j]) & column);
    }
}

// The values of a table in the rows, by the columns of its first n inputs.
fn spread(truth: u64, columns: &[u64; 6], n: usize) -> u64
    requires { Filled n columns.now }
    ensures { Rows (row_value truth (take n columns.now)) result }
{
    let mut words = [0u64; 32];
    pairs(&mut words, ((1usize << n) + 1) / 2, truth, columns[0]);
    for i in 1..n {
        fold(&mut words, 1usize << (n - i - 1), columns[i]);
    }
    words[0]
}

// The values of a table in the rows of the first inputs, among which its first n codes are.
pub fn values<'a>(
    truth: u64,
    codes: &'a [u16; 6],
    n: usize,
    inputs: &'a [u16; 6],
    count: usize,
) -> u64
    requires { MergeRoom n codes.now × MergeRoom count inputs.now }
    ensures { Rows (row_value truth (columns_of (take n codes.now) (take count inputs.now))) result }
{
    let cs = columns(codes, n, inputs, count);
    spread(truth, &cs, n)
}
