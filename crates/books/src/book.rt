// The lines of a book, written one behind the other, and the book's total.
ghost use Rattle.std.specs.Prelude.{◌≡◌, ◌+◌, ◌*◌, ◌≤◌, ◌<◌, length};
ghost use Rattle.std.specs.Int.Count.{ones};
ghost use Rattle.numbers.specs.Put.{put};
ghost use Rattle.numbers.specs.Sums.{sum_where};
ghost use Rattle.numbers.specs.Table.{entry};
ghost use Rattle.model.specs.Limits.{group_count};
ghost use Rattle.model.specs.Report.{book_map, book_lines, words_a_line};
ghost use Rattle.model.specs.Steps.Lines.{has_line, total};
ghost use Rattle.model.specs.Steps.Margin.{margin};
ghost use Rattle.positions.specs.Books.{book_number};
ghost use Rattle.holdings.specs.Seen.{day_of, net_of, dvp_of};
ghost use Rattle.books.specs.Book.{one_line};

use holdings::{CoveredHoldings, GroupHoldings};
use line_words::{LINE_WORDS, write_headed_at};
use margin::line::group_line;
use positions::Book;
use words::Kind;

// The product groups.
const GROUPS: u32 = day_file::GROUPS as u32;

// Where the next line goes, and the margins so far.
#[derive(Drop)]
struct Progress {
    at: usize,
    total: i64,
}

// Group g: its line, if it has one, and its margin.
fn write_group(
    p: Progress,
    of: &CoveredHoldings,
    book: Book,
    map: u32,
    g: u32,
    memory: &mut [u32],
) -> Progress
    requires g_bound { g < group_count }
    requires map_value { map ≡ book_map (day_of of.now.after.now) (entry of.now.nets.now) (dvp_of of.now.after.now) (book_number book) }
    requires at_bound { (p.at ≤ 10000) × (p.at + length (one_line (day_of of.now.after.now) (entry of.now.nets.now) (net_of of.now.after.now) (dvp_of of.now.after.now) (book_number book) g) ≤ length memory.old) }
    requires total_value { p.total ≡ sum_where g (has_line (day_of of.now.after.now) (entry of.now.nets.now) (dvp_of of.now.after.now) (book_number book)) (margin (day_of of.now.after.now) (net_of of.now.after.now) (dvp_of of.now.after.now) (book_number book)) }
    ensures at_value { result.at ≡ p.at + length (one_line (day_of of.now.after.now) (entry of.now.nets.now) (net_of of.now.after.now) (dvp_of of.now.after.now) (book_number book) g) }
    ensures total_value_2 { result.total ≡ sum_where (g + 1) (has_line (day_of of.now.after.now) (entry of.now.nets.now) (dvp_of of.now.after.now) (book_number book)) (margin (day_of of.now.after.now) (net_of of.now.after.now) (dvp_of of.now.after.now) (book_number book)) }
    ensures memory_after { memory.new ≡ put p.at (one_line (day_of of.now.after.now) (entry of.now.nets.now) (net_of of.now.after.now) (dvp_of of.now.after.now) (book_number book) g) memory.old }
{
    if (map >> g) % 2 != 1 {
        return p;
    }
    let at = p.at;
    let held = GroupHoldings {
        account: of.after,
        book,
        group: g as usize,
    };
    let line = group_line(&held);
    let amounts = [
        line.spread,
        line.mtm,
        line.premium,
        line.requirement,
        line.margin,
        line.residual,
    ];
    write_headed_at(memory, at, Kind::Key, g + 32 * book.number(), &amounts);
    Progress {
        at: at + LINE_WORDS,
        total: p.total + line.margin,
    }
}

// The lines of a book from word `at` of the report's memory on; its total.
pub fn write_book(of: &CoveredHoldings, book: Book, map: u32, memory: &mut [u32], at: usize) -> i64
    requires map_value { map ≡ book_map (day_of of.now.after.now) (entry of.now.nets.now) (dvp_of of.now.after.now) (book_number book) }
    requires at_bound { (at ≤ 5000) × (at + words_a_line * ones map ≤ length memory.old) }
    ensures value { result ≡ total (day_of of.now.after.now) (entry of.now.nets.now) (net_of of.now.after.now) (dvp_of of.now.after.now) (book_number book) }
    ensures memory_after { memory.new ≡ put at (book_lines (day_of of.now.after.now) (entry of.now.nets.now) (net_of of.now.after.now) (dvp_of of.now.after.now) (book_number book)) memory.old }
{
    let mut p = Progress { at, total: 0 };
    for g in 0..GROUPS {
        p = write_group(p, of, book, map, g, memory);
    }
    p.total
}
