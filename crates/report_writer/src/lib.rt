// The whole report of an accepted account: header, maps, lines and totals; and row 40.
#![tactic(auto)]

ghost use Rattle.std.specs.Prelude.{◌≡◌, ◌+◌, ◌*◌, ◌^◌, ◌≤◌, ◌<◌, length};
ghost use Rattle.std.specs.Int.Count.{ones};
ghost use Rattle.numbers.specs.Put.{put};
ghost use Rattle.numbers.specs.Table.{entry};
ghost use Rattle.model.specs.Calls.{room_answer, written};
ghost use Rattle.model.specs.Report.{book_map, report_words, words_needed, words_for};
ghost use Rattle.model.specs.Limits.{group_count};
ghost use Rattle.positions.specs.Books.{book_number};
ghost use Rattle.holdings.specs.Seen.{day_of, net_of, dvp_of};

use books::book::write_book;
use books::maps::book_map;
use holdings::CoveredHoldings;
use line_words::{FRAME_WORDS, LINE_WORDS, write_headed_at};
use model::Check;
use positions::Book;
use presence::BookTables;
use report_head::{Maps, write_maps};
use rows::check_room;
use words::Kind;

// The report over the front of a memory that is long enough.
fn write_report(of: &CoveredHoldings, maps: Maps, count: u32, memory: &mut [u32])
    requires ordinary_value { maps.ordinary ≡ book_map (day_of of.now.after.now) (entry of.now.nets.now) (dvp_of of.now.after.now) 0 }
    requires fail_value { maps.fail ≡ book_map (day_of of.now.after.now) (entry of.now.nets.now) (dvp_of of.now.after.now) 1 }
    requires count_value { (count ≡ ones maps.ordinary + ones maps.fail) × (words_for count ≤ length memory.old) }
    ensures { memory.new ≡ put 0 (report_words (day_of of.now.after.now) (entry of.now.nets.now) (net_of of.now.after.now) (dvp_of of.now.after.now)) memory.old }
{
    write_maps(memory, count, maps);
    let ordinary_total = write_book(of, Book::Ordinary, maps.ordinary, memory, 3);
    let fails = 3 + LINE_WORDS * maps.ordinary.count_ones() as usize;
    let fail_total = write_book(of, Book::Fail, maps.fail, memory, fails);
    let totals = [ordinary_total, fail_total, ordinary_total + fail_total];
    write_headed_at(
        memory,
        3 + LINE_WORDS * count as usize,
        Kind::Totals,
        0,
        &totals,
    );
}

// The map of a book.
fn map_of(of: &CoveredHoldings, book: Book) -> u32
    ensures { (result ≡ book_map (day_of of.now.after.now) (entry of.now.nets.now) (dvp_of of.now.after.now) (book_number book)) × (result < 2 ^ group_count) }
{
    let tables = BookTables {
        nets: of.nets,
        dvps: of.after.dvps,
        book,
    };
    book_map(of.after.day, &tables)
}

// Row 40, or the report.
pub fn report_accepted(of: &CoveredHoldings, memory: &mut [u32]) -> Result<usize, Check>
    ensures value { result ≡ room_answer (words_needed (day_of of.now.after.now) (entry of.now.nets.now) (dvp_of of.now.after.now)) (length memory.old) }
    ensures memory_after { memory.new ≡ written result (report_words (day_of of.now.after.now) (entry of.now.nets.now) (net_of of.now.after.now) (dvp_of of.now.after.now)) memory.old }
{
    let maps = Maps {
        ordinary: map_of(of, Book::Ordinary),
        fail: map_of(of, Book::Fail),
    };
    let count = maps.line_count();
    let needed = check_room(FRAME_WORDS + LINE_WORDS * count as usize, memory.len())?;
    write_report(of, maps, count, memory);
    Ok(needed)
}
