// The account: its nets and DVPs, how many positions are held, and the margins of each book.
ghost use Rattle.std.specs.Prelude.{◌≡◌, ◌^◌, ◌≤◌, ◌<◌, not, nat_abs, ◌+ℤ◌, length};
ghost use Rattle.numbers.specs.Table.{entry};
ghost use Rattle.model.specs.Limits.{quantity_limit, dvp_amount_limit, group_count};
ghost use Rattle.model.specs.DayFile.{series_count};
ghost use Rattle.model.specs.Batch.{record_count, place, long, short, dvp_amount};
ghost use Rattle.model.specs.Netting.{position_count};
ghost use Rattle.model.specs.Locality.{record_at};
ghost use Rattle.model.specs.Steps.Margin.{margin};
ghost use Rattle.model.specs.Rewriting.{held_records};
ghost use Rattle.model.proofs.Fewest.{Few};
ghost use Rattle.positions.specs.Books.{book_number};
ghost use Rattle.day_steps.specs.Kept.{Kept};
ghost use Rattle.day_steps.specs.Step.{with_net, with_dvp, step_refused};
ghost use Rattle.kept_account.specs.Accounts.{nets_of, dvps_of, account_of, Tables, Whole, position_with, moved_by, margins_in, with_margin, stepped};
ghost use Rattle.kept_account.specs.Margins.{Room};

use crate::margins::{Margins, line_margin};
use crate::position::{Moved, book_of, is_bad, is_refused, one_if_held};
use batch::{Record, WholeBatch};
use classes::day::CheckedDay;
use holdings::Holdings;
use netting::{POSITIONS, change};
use positions::Book;

#[derive(Drop)]
pub struct Account {
    nets: [i64; POSITIONS],
    dvps: [i64; POSITIONS],
    held: usize,
    ordinary: Margins,
    fail: Margins,
}

impl Account {
    // From the tables of an opening, and the count of its positions held.
    pub fn new(
        day: &CheckedDay<'_>,
        nets: [i64; POSITIONS],
        dvps: [i64; POSITIONS],
        held: usize,
    ) -> Self
        requires lengths { (length nets ≡ position_count) × (length dvps ≡ position_count) }
        requires kept { Kept day.now.words.now (entry nets) (entry dvps) }
        requires held_value { held ≡ length (held_records (entry nets) (entry dvps)) }
        ensures { result ≡ account_of day.now.words.now (entry nets) (entry dvps) }
    {
        let tables = Holdings {
            day,
            nets: &nets,
            dvps: &dvps,
        };
        let ordinary = Margins::of_book(&tables, Book::Ordinary);
        let fail = Margins::of_book(&tables, Book::Fail);
        Account {
            nets,
            dvps,
            held,
            ordinary,
            fail,
        }
    }

    // Its margin: both books' totals.
    pub fn margin(&self) -> i64
        requires { (nat_abs self.now.ordinary.total < 2 ^ 63) × (nat_abs self.now.fail.total < 2 ^ 63) × (nat_abs (self.now.ordinary.total +ℤ self.now.fail.total) < 2 ^ 63) }
        ensures { result ≡ self.now.ordinary.total +ℤ self.now.fail.total }
    {
        self.ordinary.total + self.fail.total
    }

    // Its position with a record more.
    fn position_with(&self, trade: &Record<'_>) -> Moved
        requires tables { Tables self.now }
        requires limited { (long trade.now.batch.now trade.now.index ≤ quantity_limit) × (short trade.now.batch.now trade.now.index ≤ quantity_limit) × (nat_abs (dvp_amount trade.now.batch.now trade.now.index) ≤ dvp_amount_limit) }
        ensures { result ≡ position_with (nets_of self.now) (dvps_of self.now) (record_at trade.now.batch.now trade.now.index) }
    {
        let key = trade.key();
        let net = self.nets[key] + change(trade);
        let dvp = self.dvps[key] + trade.dvp_amount();
        let before = one_if_held(self.nets[key], self.dvps[key]);
        Moved {
            key,
            net,
            dvp,
            held: self.held + one_if_held(net, dvp) - before,
        }
    }

    // What a trade makes of its position; nothing where it would be refused.
    fn moved(&self, day: &CheckedDay<'_>, trade: &WholeBatch<'_>) -> Option<Moved>
        requires one { record_count trade.now.words.now ≡ 1 }
        requires whole { Whole day.now.words.now self.now }
        ensures { result ≡ moved_by day.now.words.now (nets_of self.now) (dvps_of self.now) (record_at trade.now.words.now 0) }
    {
        if is_bad(day.words, trade) {
            return None;
        }
        let record = trade.record(0);
        let moved = self.position_with(&record);
        if is_refused(day, record.place(), moved) {
            return None;
        }
        Some(moved)
    }

    // Computes the line of a group again.
    fn compute_line(&mut self, day: &CheckedDay<'_>, book: Book, group: usize)
        requires few { Few day.now.words.now (nets_of self.old) (dvps_of self.old) }
        requires group_bound { group < group_count }
        requires room { Room (margins_in self.old book) group (margin day.now.words.now (nets_of self.old) (dvps_of self.old) (book_number book) group) }
        ensures { self.new ≡ with_margin day.now.words.now self.old book group }
    {
        let margin = line_margin(
            &Holdings {
                day,
                nets: &self.nets,
                dvps: &self.dvps,
            },
            book,
            group,
        );
        match book {
            Book::Ordinary => self.ordinary.put_line(group, margin),
            Book::Fail => self.fail.put_line(group, margin),
        }
    }

    // The position moved, and its line computed again.
    fn store(&mut self, day: &CheckedDay<'_>, trade: &Record<'_>, moved: Moved)
        requires whole { Whole day.now.words.now self.old }
        requires place_bound { place trade.now.batch.now trade.now.index < series_count day.now.words.now }
        requires moved_value { moved ≡ position_with (nets_of self.old) (dvps_of self.old) (record_at trade.now.batch.now trade.now.index) }
        requires kept { Kept day.now.words.now (with_net (nets_of self.old) (record_at trade.now.batch.now trade.now.index)) (with_dvp (dvps_of self.old) (record_at trade.now.batch.now trade.now.index)) }
        ensures { self.new ≡ account_of day.now.words.now (with_net (nets_of self.old) (record_at trade.now.batch.now trade.now.index)) (with_dvp (dvps_of self.old) (record_at trade.now.batch.now trade.now.index)) }
    {
        self.nets[moved.key] = moved.net;
        self.dvps[moved.key] = moved.dvp;
        self.held = moved.held;
        let class = day.class(day.class_of(trade.place()));
        self.compute_line(day, book_of(trade), class.group());
    }

    // Adds a trade, a batch of one record, if it would not be refused; whether it was added.
    pub fn add(&mut self, day: &CheckedDay<'_>, trade: &WholeBatch<'_>) -> bool
        requires one { record_count trade.now.words.now ≡ 1 }
        requires whole { Whole day.now.words.now self.old }
        ensures added { result ≡ not (step_refused day.now.words.now (nets_of self.old) (dvps_of self.old) (record_at trade.now.words.now 0)) }
        ensures account { self.new ≡ stepped day.now.words.now self.old (record_at trade.now.words.now 0) }
    {
        match self.moved(day, trade) {
            Some(moved) => {
                self.store(day, &trade.record(0), moved);
                true
            }
            None => false,
        }
    }
}
