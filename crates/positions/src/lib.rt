// The amounts of positions, from a table by position key.
#![tactic(auto)]

ghost use Rattle.std.specs.Prelude.{◌≡◌, ◌*◌, ◌<◌, pos, get_or};
ghost use Rattle.model.specs.Netting.{position as position_of, places};
ghost use Rattle.positions.specs.Books.{book_number, holding_number};

use batch::PLACES;

// The book of a position.
#[derive(Clone, Copy)]
pub enum Book {
    Ordinary = 0,
    Fail = 1,
}

impl Book {
    pub fn number(self) -> u32
        ensures { result ≡ book_number self }
    {
        self as u32
    }
}

// Open, or exercised or assigned.
#[derive(Clone, Copy)]
pub enum Holding {
    Open = 0,
    Exercised = 1,
}

// The amount of a key in a table, 0 past its end.
pub fn amount_at(table: &[i64], key: usize) -> i64
    ensures { result ≡ get_or table.now key (pos 0) }
{
    table.get(key).copied().unwrap_or(0)
}

// The amount of a position of series s in a table, 0 past its end.
pub fn position_amount(table: &[i64], book: Book, holding: Holding, s: usize) -> i64
    requires { s < 2 * places }
    ensures { result ≡ get_or table.now (position_of (book_number book) (holding_number holding) s) (pos 0) }
{
    amount_at(
        table,
        s + PLACES * holding as usize + 2 * PLACES * book as usize,
    )
}
