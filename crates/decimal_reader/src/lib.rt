// The reader of a field: the decimal number in its six columns, or in any number of columns where it has no minus sign.
#![tactic(auto)]

ghost use Rattle.std.specs.Prelude.{◌≡◌, ◌+◌, ◌≤◌, ◌<◌, IfSome, not, ◌==◌, position, length, [], ◌∷◌};
ghost use Rattle.decimal.specs.Trusted.Number.{columns, digits, natural, signed, in_word};
ghost use Rattle.decimal.specs.Trusted.Reading.{field_answer, field_read, parsed, word_read};

use decimal::COLUMNS;

// So many digits are always below 2^64.
const SHORT: usize = 19;

// The number in the six columns of a field. A slice that is not six bytes long holds no number.
pub fn read(s: &[u8]) -> Option<i32>
    ensures { result ≡ field_read s.now }
{
    if s.len() != COLUMNS {
        return None;
    }
    signed(&s[first_other(s)?..])
}

// The number in the columns, without a minus sign and below 2^64.
pub fn read_word(s: &[u8]) -> Option<u64>
    ensures { result ≡ word_read s.now }
{
    let number = &s[first_other(s)?..];
    if number.len() <= SHORT {
        natural(number)
    } else {
        long(number)
    }
}

// Where the first byte stands that is no blank.
fn first_other(s: &[u8]) -> Option<usize>
    ensures { result ≡ position (λ b. not (b == 32)) s.now }
{
    s.iter().position(|&b| b != b' ')
}

// The number that the bytes make, with its sign. "-0" is no number.
fn signed(s: &[u8]) -> Option<i32>
    requires { length s.now ≤ columns }
    ensures { result ≡ field_answer (signed s.now) }
{
    match s {
        [b'-', magnitude @ ..] => {
            let n = natural(magnitude)?;
            let is_zero = n == 0;
            if is_zero { None } else { Some(-(n as i32)) }
        }
        _ => Some(natural(s)? as i32),
    }
}

// The number that the bytes make, 19 of them at most: one digit or more, with no leading zero.
fn natural(s: &[u8]) -> Option<u64>
    requires { length s.now ≤ 19 }
    ensures { result ≡ parsed (natural s.now) }
{
    match s {
        [] => None,
        [b'0', _, ..] => None,
        _ => digits(s),
    }
}

// The number that the bytes make, if each is a digit. So few digits cannot reach 2^64: nothing is tested.
fn digits(s: &[u8]) -> Option<u64>
    requires { length s.now ≤ 19 }
    ensures { result ≡ parsed (digits 0 s.now) }
{
    let mut n: u64 = 0;
    for &b in s {
        n = 10 * n + digit(b)?;
    }
    Some(n)
}

// The number below 2^64 that the bytes make, more than 19 of them.
fn long(s: &[u8]) -> Option<u64>
    requires { 19 < length s.now }
    ensures { result ≡ parsed (in_word (natural s.now)) }
{
    if s[0] == b'0' {
        return None;
    }
    let mut n: u64 = 0;
    for &b in s {
        n = n.checked_mul(10)?.checked_add(digit(b)?)?;
    }
    Some(n)
}

// The value of a digit.
fn digit(b: u8) -> Option<u64>
    ensures read { result ≡ parsed (digits 0 (b ∷ [])) }
    ensures value { IfSome result (λ d. (d ≤ 9) × (b ≡ 48 + d)) }
{
    if b.is_ascii_digit() {
        Some((b - b'0') as u64)
    } else {
        None
    }
}
