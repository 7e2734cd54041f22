// The margins of a book's lines, and the book's total.
ghost use Rattle.std.specs.Prelude.{◌≡◌, ◌<◌};
ghost use Rattle.model.specs.Limits.{group_count};
ghost use Rattle.model.specs.Steps.Margin.{margin};
ghost use Rattle.positions.specs.Books.{book_number};
ghost use Rattle.holdings.specs.Seen.{day_of, net_of, dvp_of};
ghost use Rattle.kept_account.specs.Margins.{margins_of, Room, with_line};

use day_file::GROUPS;
use holdings::{GroupHoldings, Holdings};
use margin::line::group_line;
use positions::Book;

#[derive(Drop)]
pub struct Margins {
    pub lines: [i64; GROUPS],
    pub total: i64,
}

// The margin of a group's line, 0 where it has none.
pub fn line_margin(account: &Holdings<'_>, book: Book, group: usize) -> i64
    requires { group < group_count }
    ensures { result ≡ margin (day_of account.now) (net_of account.now) (dvp_of account.now) (book_number book) group }
{
    group_line(&GroupHoldings {
        account,
        book,
        group,
    })
    .margin
}

impl Margins {
    // Those of a book, each line computed.
    pub fn of_book(account: &Holdings<'_>, book: Book) -> Self
        ensures { result ≡ margins_of (day_of account.now) (net_of account.now) (dvp_of account.now) (book_number book) }
    {
        let mut lines = [0i64; GROUPS];
        let mut total = 0;
        for g in 0..GROUPS {
            let margin = line_margin(account, book, g);
            lines[g] = margin;
            total += margin;
        }
        Margins { lines, total }
    }

    // With another margin of a group's line: the total moves by its change.
    pub fn put_line(&mut self, group: usize, margin: i64)
        requires { Room self.old group margin }
        ensures { self.new ≡ with_line self.old group margin }
    {
        self.total += margin - self.lines[group];
        self.lines[group] = margin;
    }
}
