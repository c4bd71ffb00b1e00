// What each refusal's number means, in plain words.
#![tactic(auto)]

ghost use Rattle.std.specs.Prelude.{◌≡◌, ◌≤◌, ◌==◌, length, drop};
ghost use Rattle.std.specs.List.{position_or_len};
ghost use Rattle.refusals.specs.Trusted.Sentences.{refusal_text, front_write};
ghost use Rattle.refusals.specs.Lines.{after_lines, text_line};

// Writes a text to the front of the buffer and gives its length; 0, with the buffer as it was, where it does not fit.
fn put(text: &[u8], out: &mut [u8]) -> usize
    ensures { record { count = result; bytes = out.new } ≡ front_write text.now out.old }
{
    if text.len() > out.len() {
        return 0;
    }
    let count = text.len();
    out[..count].copy_from_slice(text);
    count
}

// Where the line of a number starts in a text whose lines are counted from 0; the text's end, where it has no such line.
fn line_start(text: &[u8], number: u32) -> usize
    ensures { (result ≤ length text.now) × (drop result text.now ≡ after_lines number text.now) }
{
    let mut left = number;
    for (i, &byte) in text.iter().enumerate() {
        if left == 0 {
            return i;
        }
        if byte == b'\n' {
            left -= 1;
        }
    }
    text.len()
}

// How many bytes stand before a text's first line feed: all of them, where there is none.
fn line_len(text: &[u8]) -> usize
    ensures { result ≡ position_or_len (λ b. b == 10) text.now }
{
    text.iter()
        .position(|&byte| byte == b'\n')
        .unwrap_or(text.len())
}

// Writes the line of a number to the front of the buffer, as `put` does.
fn put_line(text: &[u8], number: u32, out: &mut [u8]) -> usize
    ensures { record { count = result; bytes = out.new } ≡ front_write (text_line number text.now) out.old }
{
    let start = line_start(text, number);
    let rest = &text[start..];
    put(&rest[..line_len(rest)], out)
}

// Writes the sentence of a refusal to the front of the buffer and gives its length; 0, with the buffer as it was, for a number that is
// no refusal, and where the sentence does not fit. Each sentence stands in the line of its number; other lines are empty.
pub fn write(number: u32, out: &mut [u8]) -> usize
    ensures { record { count = result; bytes = out.new } ≡ front_write (refusal_text number) out.old }
{
    put_line(
        b"\n\
        the line is missing, has no line feed, has a wrong number of fields or a field that is not laid out, or follows the last line\n\
        K must be from 2 to 6\n\
        the capacity must be from 1 to 800\n\
        the output net must be from 1 to 9999, with or without a minus sign\n\
        the number of gates must be from 1 to 255\n\
        the kind must be 1 (AND) or 2 (OR)\n\
        the fanin count must be from 2 to 10\n\
        a fanin is neither a net (1 to 9999) nor an earlier gate (10000 plus its number)\n\
        a gate is read a second time\n\
        a net stands at a second leaf\n\
        the sheet's output net is one of its leaves\n\
        the sheet has more than 256 leaves\n\
        a gate other than the last is never read\n\
        the buffer has too little room from the place on\n\
        the part has no such line\n\
        \n\
        \n\
        \n\
        \n\
        the part is not sound\n\
        the output net is already driven\n\
        a table already reads the output net\n\
        the sheet needs more tables than the part has left\n\
        \n\
        \n\
        \n\
        \n\
        \n\
        \n\
        \n\
        a line of the list is missing, left over, or not laid out as the list has it\n\
        a rule of a sound part is broken at this line of the list, or the used count is above the capacity\n\
        a set of no sheets or of more than 16, or its lengths do not add up to its text's\n\
        the wanted level must be from 0 to 1024\n\
        a reservation is already open\n\
        no reservation is open, or it is for another output net\n",
        number,
        out,
    )
}
