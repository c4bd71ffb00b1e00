// The slacks of a part's nets, written into a lent buffer: a line for each table that drives a net, with the net and the slack.
#![tactic(auto)]

ghost use Rattle.std.specs.Prelude.{◌≡◌, ◌+◌, ◌≤◌, length};
ghost use Rattle.part.specs.Trusted.Parts.{in_use};
ghost use Rattle.list_line.specs.Trusted.Writes.{pasted};
ghost use Rattle.listing.specs.Lines.{fitted};
ghost use Rattle.printing.specs.Promises.{printed_result};
ghost use Rattle.slacks.specs.Trusted.Slack.{slack_line, drivers, slack_lines};
ghost use Rattle.slacks.specs.SlackText.{driver_line};

use list_line::has_room;
use part::Part;
use printing::NoRoom;

// The columns of a field.
const FIELD: usize = 6;

// The bytes of a line: two fields and the line feed.
const SLACK_LINE: usize = 13;

// How many of the part's tables drive a net.
fn count_drivers(p: Part) -> usize
    requires { p.used ≤ 800 }
    ensures { (result ≡ length (drivers (in_use p))) × (result ≤ 800) }
{
    let used = p.used as usize;
    let mut n: usize = 0;
    for t in 0..used {
        let r = p.tables[t];
        let net = r.net;
        if net != 0 {
            n += 1;
        }
    }
    n
}

// The line of a net whose table has this level: the slack is the wanted level minus it.
fn put_slack(buf: &mut [u8], at: usize, wanted: u16, net: u16, level: u16)
    requires { at + 13 ≤ length buf.old }
    ensures { buf.new ≡ pasted buf.old at (slack_line wanted net level) }
{
    let slack = wanted as i32 - level as i32;
    let _ = decimal_writer::write_at(buf, at, FIELD, net as u64);
    let _ = decimal_writer::write_signed_at(buf, at + 6, FIELD, slack);
    buf[at + 12] = b'\n';
}

// The line of a table that drives a net, and nothing for another. Gives the place after it.
fn put_driver(buf: &mut [u8], at: usize, wanted: u16, net: u16, level: u16) -> usize
    requires { at + length (driver_line wanted net level) ≤ length buf.old }
    ensures { (result ≡ at + length (driver_line wanted net level)) × (buf.new ≡ pasted buf.old at (driver_line wanted net level)) }
{
    if 0 < net {
        put_slack(buf, at, wanted, net, level);
        return at + SLACK_LINE;
    }
    at
}

// The lines of the part's tables that drive a net, one after another, from the place on.
fn put_slacks(buf: &mut [u8], at: usize, p: Part, wanted: u16)
    requires { (p.used ≤ 800) × (at + length (slack_lines wanted p) ≤ length buf.old) }
    ensures { buf.new ≡ pasted buf.old at (slack_lines wanted p) }
{
    let used = p.used as usize;
    let mut place = at;
    for t in 0..used {
        let r = p.tables[t];
        let net = r.net;
        let level = r.level;
        place = put_driver(buf, place, wanted, net, level);
    }
}

// Writes a line for each of the part's tables that drive a net, from the place on. Where there is not room for all of them no byte is altered.
pub fn print_slacks(output: &mut [u8], at: usize, part: Part, wanted: u16) -> Result<usize, NoRoom>
    requires { part.used ≤ 800 }
    ensures { record { result = printed_result result; bytes = output.new } ≡ fitted output.old at (slack_lines wanted part) }
{
    let width = SLACK_LINE * count_drivers(part);
    if !has_room(output.len(), at, width) {
        return Err(NoRoom);
    }
    put_slacks(output, at, part, wanted);
    Ok(width)
}
