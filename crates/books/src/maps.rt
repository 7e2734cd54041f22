// The map of a book: bit g set if group g has a line.
ghost use Rattle.std.specs.Prelude.{◌≡◌, cond, ◌+◌, ◌^◌, ◌<◌};
ghost use Rattle.numbers.specs.Table.{entry};
ghost use Rattle.model.specs.Limits.{group_count};
ghost use Rattle.model.specs.Report.{book_map};
ghost use Rattle.positions.specs.Books.{book_number};

use classes::day::CheckedDay;
use day_file::GROUPS;
use presence::{BookTables, groups_held};

// The map with bit g of value `bit`, if it is set.
fn with_bit(map: u32, bit: u32, set: bool) -> u32
    requires { (map < 2 ^ group_count) × (bit < 2 ^ group_count) }
    ensures { result ≡ map + cond set bit 0 }
{
    if set { map + bit } else { map }
}

pub fn book_map(day: &CheckedDay, of: &BookTables) -> u32
    ensures { (result ≡ book_map day.now.words.now (entry of.now.nets.now) (entry of.now.dvps.now) (book_number of.now.book)) × (result < 2 ^ group_count) }
{
    let held = groups_held(day, of);
    let mut map: u32 = 0;
    let mut bit: u32 = 1;
    for g in 0..GROUPS {
        map = with_bit(map, bit, held[g]);
        bit *= 2;
    }
    map
}
