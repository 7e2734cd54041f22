// What an account holds on a checked day file, and what it holds of one class in one book.
#![tactic(auto)]

ghost use Rattle.std.specs.Prelude.{◌<◌};
ghost use Rattle.numbers.specs.Table.{entry};
ghost use Rattle.model.specs.DayFile.{class_count, series_count};
ghost use Rattle.model.specs.Limits.{group_count};
ghost use Rattle.model.proofs.Fewest.{Few};

use classes::day::CheckedDay;
use positions::Book;

mod reading;

// Tables of nets and of DVPs, by position key, within what 256 records can hold. Two tables: cover writes the nets alone anew.
#[derive(Drop)]
pub struct Holdings<'a> {
    pub day: &'a CheckedDay<'a>,
    pub nets: &'a [i64],
    pub dvps: &'a [i64],
    pub ghost few: { Few day.now.words.now (entry nets.now) (entry dvps.now) },
}

// Those of one class in one book.
#[derive(Drop)]
pub struct ClassHoldings<'a> {
    pub account: &'a Holdings<'a>,
    pub book: Book,
    pub class: usize,
    pub ghost inside: { class < class_count account.now.day.now.words.now },
}

// The nets before cover, by which a group has a line, and what is held after it, by which a line has its amounts.
#[derive(Clone, Copy)]
pub struct CoveredHoldings<'a, 'b> {
    pub nets: &'a [i64],
    pub after: &'a Holdings<'b>,
}

// Those of one product group in one book.
#[derive(Drop)]
pub struct GroupHoldings<'a, 'b> {
    pub account: &'a Holdings<'b>,
    pub book: Book,
    pub group: usize,
    pub ghost inside: { group < group_count },
}

// Those of one series in one book.
#[derive(Drop)]
pub struct SeriesHoldings<'a, 'b> {
    pub class: &'a ClassHoldings<'b>,
    pub place: usize,
    pub ghost inside: { place < series_count class.now.account.now.day.now.words.now },
}
