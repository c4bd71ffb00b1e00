// One line of a list, read: line 0, and the line of a table. list_layout/specs/Trusted/Layout defines what they say.
#![tactic(auto)]

ghost use Rattle.std.specs.Prelude.{◌≡◌, map, ◌≤◌, drop};
ghost use Rattle.decimal.specs.Trusted.Reading.{parsed};
ghost use Rattle.list_layout.specs.Trusted.Layout.{first_number};
ghost use Rattle.list_layout.specs.Taken.{narrow, input_count, NumbersTaken, LineFeedTaken, TopTaken, TableTaken};

use decimal::COLUMNS;
use decimal_reader::read_word;
use list_layout::{ListTop, TableRead};
use lists::within;
use table::{INPUT_ROOM, Table};

// The columns of a truth table.
const TRUTH: usize = 21;

// The number in so many columns from the place on; nothing where the text ends before.
fn number_at(text: &[u8], at: usize, width: usize) -> Option<u64>
    ensures { result ≡ parsed (first_number width (drop at text.now)) }
{
    let len = text.len();
    if len < at || len - at < width {
        return None;
    }
    read_word(&text[at..at + width])
}

// The numbers of n fields from the place on, with zeros after them.
fn numbers_at(text: &[u8], at: usize, n: usize) -> Option<[u32; 6]>
    requires { n ≤ 6 }
    ensures { NumbersTaken text.now at n result }
{
    let mut numbers = [0u32; 6];
    for i in 0..n {
        let x = number_at(text, at + COLUMNS * i, COLUMNS)?;
        numbers[i] = x as u32;
    }
    Some(numbers)
}

// Whether a line feed stands at the place.
fn line_feed_at(text: &[u8], at: usize) -> bool
    ensures { LineFeedTaken text.now at result }
{
    at < text.len() && text[at] == b'\n'
}

// Line 0: K, the capacity and the used count.
pub fn read_top(text: &[u8]) -> Option<ListTop>
    ensures { TopTaken text.now result }
{
    let numbers = numbers_at(text, 0, 3)?;
    if !line_feed_at(text, 18) {
        return None;
    }
    Some(ListTop {
        k: numbers[0],
        capacity: numbers[1],
        used: numbers[2],
    })
}

// As a record holds the number.
fn narrow(n: u32) -> u16
    ensures { result ≡ narrow n }
{
    u16::try_from(n).unwrap_or(u16::MAX)
}

fn narrow_all(numbers: [u32; 6]) -> [u16; 6]
    ensures { result ≡ map narrow numbers }
{
    numbers.map(narrow)
}

// How many inputs the first three fields of table t's line say, where they are those of such a line.
fn input_count(head: [u32; 6], t: u16) -> Option<usize>
    ensures { result ≡ input_count head t }
{
    if head[0] != t as u32 {
        return None;
    }
    let u = head[2];
    if within(2, INPUT_ROOM, u) {
        Some(u as usize)
    } else {
        None
    }
}

// The line of table t, from the place on. It does not say the level, which is held as 0.
pub fn read_table(text: &[u8], at: usize, t: u16) -> Option<TableRead>
    ensures { TableTaken text.now at t result }
{
    let head = numbers_at(text, at, 3)?;
    let n = input_count(head, t)?;
    let first = at + 3 * COLUMNS;
    let inputs = numbers_at(text, first, n)?;
    let place = first + COLUMNS * n;
    let truth = number_at(text, place, TRUTH)?;
    let end = place + TRUTH;
    if !line_feed_at(text, end) {
        return None;
    }
    let table = Table {
        net: narrow(head[1]),
        count: n as u8,
        inputs: narrow_all(inputs),
        truth,
        level: 0,
    };
    Some(TableRead {
        table,
        end: end + 1,
    })
}
