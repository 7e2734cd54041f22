// Which net shorts are covered before that of a series: those with a larger order key.
ghost use Rattle.std.specs.Prelude.{◌≡◌, true, ◌*◌, ◌<◌};
ghost use Rattle.model.specs.DayFile.{class_count, series_count, series_class, series_type};
ghost use Rattle.model.specs.Netting.{places};
ghost use Rattle.model.specs.Steps.Cover.{is_coverable, open_rank, short_size, cover_before};
ghost use Rattle.model.specs.Steps.Positions.{open_net};
ghost use Rattle.cover.specs.Accounts.{account_day, account_net};
ghost use Rattle.holdings.specs.Seen.{day_of, net_of};
ghost use Rattle.cover.specs.Keys.{order_key, key_adds, key_table};

use crate::account::Account;
use day_file::{MOST_SERIES, Series};
use holdings::Holdings;
use positions::{Book, Holding, position_amount};

// What an open future counts for in an order key, behind the places; an expiry, behind that; a net short, behind the expiries, of twelve bits.
const OPEN_UNIT: u64 = MOST_SERIES as u64;

const EXPIRY_UNIT: u64 = 2 * OPEN_UNIT;

const SHORT_UNIT: u64 = 4096 * EXPIRY_UNIT;

// An account, and the order keys of all series.
#[derive(Drop)]
pub(crate) struct Order<'a> {
    pub account: &'a Account<'a>,
    pub keys: [u64; MOST_SERIES],
    pub ghost keys_value: { keys ≡ key_table (account_day account.now) (account_net account.now) },
}

// The contracts of a net short, 0 for a net long.
pub(crate) fn short_size(z: i64) -> u64
    ensures { result ≡ short_size z }
{
    if z < 0 { 0 } else { z as u64 }
}

// The net short of series s in the ordinary book.
fn short_of(before: &Holdings<'_>, s: usize) -> u64
    requires { s < 2 * places }
    ensures { result ≡ short_size (open_net (net_of before.now) 0 s) }
{
    short_size(position_amount(before.nets, Book::Ordinary, Holding::Open, s))
}

// 1 for an open future, 0 for an expired one.
fn open_rank(series: &Series) -> u64
    ensures { (result ≡ open_rank series.now.day.now series.now.place) × (result < 2) }
{
    if series.is_future() { 1 } else { 0 }
}

// The order key of series s: the larger net short, among equals the further expiry, then an open future, then the lower place has the
// larger key. 0 if deposits do not cover it.
fn order_key(before: &Holdings<'_>, s: usize) -> u64
    requires { s < series_count (day_of before.now) }
    ensures { result ≡ order_key (day_of before.now) (net_of before.now) s }
{
    let series = before.day.series(s);
    if !series.is_coverable() {
        return 0;
    }
    let short = short_of(before, s);
    let expiry = u64::from(series.expiry());
    SHORT_UNIT * short
        + EXPIRY_UNIT * expiry
        + OPEN_UNIT * open_rank(&series)
        + (MOST_SERIES - 1 - s) as u64
}

// The order keys of all series. One number a series, since a comparison part by part took up to four times as long (docs/DECISIONS.md).
pub(crate) fn order_keys(before: &Holdings<'_>) -> [u64; MOST_SERIES]
    ensures { result ≡ key_table (day_of before.now) (net_of before.now) }
{
    let mut keys = [0u64; MOST_SERIES];
    for s in 0..before.day.series_count() {
        keys[s] = order_key(before, s);
    }
    keys
}

// What the series with this key adds to what is covered before the one whose key is `own`.
fn key_adds(own: u64, key: u64) -> u64
    ensures { result ≡ key_adds own key }
{
    if own < key { key / SHORT_UNIT } else { 0 }
}

impl Order<'_> {
    // The net shorts of class c that are covered before that of its series s.
    pub(crate) fn covered_before(&self, c: usize, s: usize) -> u64
        requires class_value { (c < class_count (account_day self.now.account.now)) × (series_class (account_day self.now.account.now) s ≡ c) }
        requires s_bound { (s < series_count (account_day self.now.account.now)) × (is_coverable (series_type (account_day self.now.account.now) s) ≡ true) }
        ensures { result ≡ cover_before (account_day self.now.account.now) (account_net self.now.account.now) s }
    {
        let own = self.keys[s];
        let mut sum: u64 = 0;
        let series = self.account.holdings.day.series_of(c);
        for t in series.start..series.end {
            sum += key_adds(own, self.keys[t]);
        }
        sum
    }
}
