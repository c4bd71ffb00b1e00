// The writer of a field: a number right-justified after blanks, into a whole field or into a part of a longer line.
#![tactic(auto)]

ghost use Rattle.std.specs.Prelude.{◌≡◌, length};
ghost use Rattle.decimal.specs.Trusted.Columns.{field_of};
ghost use Rattle.decimal.specs.Trusted.Reading.{number_of_int};
ghost use Rattle.decimal.specs.Trusted.Writing.{field_written, signed_written, field_written_at, signed_written_at};
ghost use Rattle.decimal.specs.Inside.{digit_of, DigitCount};

use decimal::{TooWide, magnitude, negative};

// Writes a number right-justified after blanks into the whole of `dst`, if it has room there.
pub fn write(dst: &mut [u8], n: u64) -> Result<(), TooWide>
    ensures { record { answer = result; bytes = dst.new } ≡ field_written dst.old n }
{
    if dst.len() < digit_count(n) {
        return Err(TooWide);
    }
    put(dst, n);
    Ok(())
}

// The same of a signed number, with a minus sign before the digits of one below zero.
pub fn write_signed(dst: &mut [u8], v: i32) -> Result<(), TooWide>
    ensures { record { answer = result; bytes = dst.new } ≡ signed_written dst.old (number_of_int v) }
{
    let n = magnitude(v) as u64;
    if !negative(v) {
        return write(dst, n);
    }
    let count = digit_count(n);
    if dst.len() <= count {
        return Err(TooWide);
    }
    put(dst, n);
    let sign = dst.len() - count - 1;
    dst[sign] = b'-';
    Ok(())
}

// Writes a number into the field of `width` bytes that starts at `at`. Bytes outside the field stay.
pub fn write_at(buf: &mut [u8], at: usize, width: usize, n: u64) -> Result<(), TooWide>
    ensures { record { answer = result; bytes = buf.new } ≡ field_written_at buf.old at width n }
{
    if buf.len() < at || buf.len() - at < width {
        return Err(TooWide);
    }
    let end = at + width;
    write(&mut buf[at..end], n)
}

// The same of a signed number.
pub fn write_signed_at(buf: &mut [u8], at: usize, width: usize, v: i32) -> Result<(), TooWide>
    ensures { record { answer = result; bytes = buf.new } ≡ signed_written_at buf.old at width (number_of_int v) }
{
    if buf.len() < at || buf.len() - at < width {
        return Err(TooWide);
    }
    let end = at + width;
    write_signed(&mut buf[at..end], v)
}

// How many digits a number has.
fn digit_count(n: u64) -> usize
    ensures { DigitCount n result }
{
    n.max(1).ilog10() as usize + 1
}

// The lowest digits of a number, one to a column, with blanks left of the number.
fn put(dst: &mut [u8], n: u64)
    ensures { dst.new ≡ field_of (length dst.old) n }
{
    let width = dst.len();
    let mut left = n;
    for right in 0..width {
        dst[width - right - 1] = digit(left, right == 0);
        left = left / 10;
    }
}

// The byte of a column: `left` is the number without the digits of the columns to its right.
fn digit(left: u64, last: bool) -> u8
    ensures { result ≡ digit_of left last }
{
    if left == 0 && !last {
        b' '
    } else {
        b'0' + ((left % 10) as u8)
    }
}
