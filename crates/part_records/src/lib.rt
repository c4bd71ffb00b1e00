// The records of a part: the test of its soundness and of what it may have reserved, and what its tables do with a net.
#![tactic(auto)]

ghost use Rattle.std.specs.Prelude.{◌≡◌, [], map, true, ◌&&◌, ◌-◌, ◌≤◌, ◌<◌, leb, take, drop};
ghost use Rattle.lists.specs.Trusted.Tests.{all};
ghost use Rattle.table.specs.Trusted.Limits.{table_room};
ghost use Rattle.table.specs.Trusted.Records.{table_of};
ghost use Rattle.table.specs.Trusted.RecordTest.{is_blank, is_none, tested};
ghost use Rattle.table.specs.Trusted.Rules.{Padded};
ghost use Rattle.table.specs.LevelTest.{no_levels, LevelsStand};
ghost use Rattle.part_records.specs.Trusted.Reservations.{is_reservable};
ghost use Rattle.part_records.specs.Uses.{with_table};

use record_rules::is_blank;
use records::test_rules;
use table::{INPUT_ROOM, TABLE_ROOM, Table};
use table_inputs::reads_net;
use tree::GREATEST_NET;

// The records past those in use are zero.
fn rest_blank(used: u16, tables: [Table; 800]) -> bool
    requires { used ≤ table_room }
    ensures { result ≡ all is_blank (drop used tables) }
{
    tables[usize::from(used)..].iter().all(|&t| is_blank(t))
}

// Tables set aside: how many, and the output net that they are for, both zero when nothing is reserved.
#[derive(Clone, Copy)]
pub struct Reservation {
    pub count: u16,
    pub net: u16,
}

// A part of which so many tables are not used may have the reservation.
fn is_reservable(left: u16, r: Reservation) -> bool
    ensures { result ≡ is_reservable left r }
{
    r.count <= left && (r.count == 0) == (r.net == 0) && r.net <= GREATEST_NET
}

// K, the capacity, the used count and the records of a part keep 01's five points of soundness, whatever they are, have their levels, and
// the reservation is one that the part may have. Where they do, the levels of the codes are in the array, which is handed in with zeros.
pub fn sound(
    k: u8,
    capacity: u16,
    used: u16,
    reservation: Reservation,
    tables: [Table; 800],
    levels: &mut [u16],
) -> bool
    requires { levels.old ≡ no_levels }
    ensures { (result ≡ (is_none (tested k capacity (take used tables)) && (leb used capacity && (all is_blank (drop used tables) && is_reservable (capacity - used) reservation))))
        × (result ≡ true → LevelsStand levels.new (map table_of (take used tables))) }
{
    (2..=INPUT_ROOM).contains(&u32::from(k))
        && (1..=TABLE_ROOM).contains(&u32::from(capacity))
        && used <= capacity
        && is_reservable(capacity - used, reservation)
        && rest_blank(used, tables)
        && test_rules(&tables[..usize::from(used)], k, capacity, levels).is_ok()
}

// What tables do with a net: one drives it, one reads it.
#[derive(Clone, Copy)]
pub struct Uses {
    pub driven: bool,
    pub read: bool,
}

// The same with one table more. Its unused inputs are zero, so all six are looked at.
pub fn with_table(uses: Uses, t: Table, net: u16) -> Uses
    requires { Padded t × (0 < net) }
    ensures { result ≡ with_table uses t net }
{
    Uses {
        driven: uses.driven || t.net == net,
        read: uses.read || reads_net(t.inputs, 6, net),
    }
}
