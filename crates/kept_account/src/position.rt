// What a trade makes of its position, and whether its own rows refuse it.
ghost use Rattle.std.specs.Prelude.{◌≡◌, ◌+◌, ◌*◌, ◌≤◌, ◌<◌, ◌||◌, ltb, nat_abs};
ghost use Rattle.model.specs.Limits.{contracts_limit, dvp_amount_limit, most_records, position_limit, quantity_limit};
ghost use Rattle.model.specs.DayFile.{multiplier, series_count};
ghost use Rattle.model.specs.Batch.{record_count, fail};
ghost use Rattle.model.specs.Locality.{record_at};
ghost use Rattle.model.proofs.GoodRecord.{bad};
ghost use Rattle.positions.specs.Books.{book_number};
ghost use Rattle.kept_account.specs.Positions.{held_number};

use batch::{MOST_RECORDS, Record, WholeBatch};
use batch_positions::check_positions;
use batch_words::check_words;
use classes::day::CheckedDay;
use dvp_check::dvp_too_large;
use net_check::net_too_large;
use positions::Book;

// The position's key, its net and its DVP, and how many positions are held with it.
#[derive(Clone, Copy)]
pub struct Moved {
    pub key: usize,
    pub net: i64,
    pub dvp: i64,
    pub held: usize,
}

// Rows 22 to 28 of a trade, which is a batch of one record.
pub fn is_bad(day: &[u32], trade: &WholeBatch<'_>) -> bool
    requires { record_count trade.now.words.now ≡ 1 }
    ensures { result ≡ bad day.now (record_at trade.now.words.now 0) }
{
    check_words(trade).is_err() || check_positions(day, trade).is_err()
}

// 1 for a position that is held, else 0.
pub fn one_if_held(net: i64, dvp: i64) -> usize
    ensures { result ≡ held_number net dvp }
{
    usize::from(net != 0 || dvp != 0)
}

// Rows 30 to 32 of a trade's position, which is of the series in this place.
pub fn is_refused(day: &CheckedDay<'_>, place: usize, moved: Moved) -> bool
    requires place_bound { place < series_count day.now.words.now }
    requires net_bound { nat_abs moved.net ≤ contracts_limit + quantity_limit }
    ensures { result ≡ (ltb position_limit (nat_abs moved.net * multiplier day.now.words.now place) || (ltb dvp_amount_limit (nat_abs moved.dvp) || ltb most_records moved.held)) }
{
    net_too_large(&day.series(place), moved.net)
        || dvp_too_large(moved.dvp)
        || MOST_RECORDS < moved.held
}

// The book of a record.
pub fn book_of(record: &Record<'_>) -> Book
    ensures { book_number result ≡ fail «record».now.batch.now «record».now.index }
{
    if record.is_fail() {
        return Book::Fail;
    }
    Book::Ordinary
}
