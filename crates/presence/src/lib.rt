// Step 9: which groups have a line in a book.
#![tactic(auto)]

ghost use Rattle.std.specs.Prelude.{◌≡◌, ◌+◌, ◌*◌, ◌≤◌, ◌<◌};
ghost use Rattle.numbers.specs.Scan.{any_below};
ghost use Rattle.numbers.specs.Table.{tabulate};
ghost use Rattle.model.specs.Netting.{position, places};
ghost use Rattle.model.specs.Steps.Positions.{held};
ghost use Rattle.model.specs.Steps.Lines.{has_line};
ghost use Rattle.model.specs.Limits.{most_series};
ghost use Rattle.classes.specs.Tables.{entry};
ghost use Rattle.positions.specs.Books.{book_number, holding_number};
ghost use Rattle.presence.specs.Presence.{held_at, group_flags};

use classes::day::CheckedDay;
use positions::{Book, Holding, position_amount};

// A flag for each number that a class's group can have: five bits.
pub const GROUP_FLAGS: usize = 32;

// A book's nets and DVPs, in tables of both books.
#[derive(Clone, Copy)]
pub struct BookTables<'a> {
    pub nets: &'a [i64],
    pub dvps: &'a [i64],
    pub book: Book,
}

impl BookTables<'_> {
    // A position has net or DVP not zero.
    fn position_held(&self, holding: Holding, s: usize) -> bool
        requires { s < 2 * places }
        ensures { result ≡ held (entry self.now.nets.now) (entry self.now.dvps.now) (position (book_number self.now.book) (holding_number holding) s) }
    {
        position_amount(self.nets, self.book, holding, s) != 0
            || position_amount(self.dvps, self.book, holding, s) != 0
    }

    // One of the positions of series s has.
    fn series_held(&self, s: usize) -> bool
        requires { s < 2 * places }
        ensures { result ≡ held_at (entry self.now.nets.now) (entry self.now.dvps.now) (book_number self.now.book) s }
    {
        self.position_held(Holding::Open, s) || self.position_held(Holding::Exercised, s)
    }

    // One of `count` series from a on has.
    fn any_held(&self, a: usize, count: usize) -> bool
        requires { a + count ≤ most_series }
        ensures { result ≡ any_below count (λ i. held_at (entry self.now.nets.now) (entry self.now.dvps.now) (book_number self.now.book) (a + i)) }
    {
        (0..count).any(|i| self.series_held(a + i))
    }
}

// Which groups have a line in this book, in one pass over the classes.
pub fn groups_held(day: &CheckedDay, of: &BookTables) -> [bool; GROUP_FLAGS]
    ensures { result ≡ tabulate group_flags (has_line day.now.words.now (entry of.now.nets.now) (entry of.now.dvps.now) (book_number of.now.book)) }
{
    let mut present = [false; GROUP_FLAGS];
    for c in 0..day.class_count() {
        let g = day.class(c).group();
        let series = day.series_of(c);
        let was = present[g];
        present[g] = was | of.any_held(series.start, series.end - series.start);
    }
    present
}
