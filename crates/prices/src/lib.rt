// The prices of a record at the ten points, and those that an open position has there.
#![tactic(auto)]

ghost use Rattle.std.specs.Prelude.{◌≡◌, ◌+◌, ◌*◌, max, ◌≤◌, ◌<◌, length, get_or, set};
ghost use Rattle.numbers.specs.Table.{tabulate};
ghost use Rattle.model.specs.Words.{payload as payload_of};
ghost use Rattle.model.specs.DayFile.{theoretical, projected, class_at, series_at};
ghost use Rattle.model.specs.Steps.Prices.{short_price, open_price};
ghost use Rattle.model.specs.Limits.{point_count};

use accumulator::Points;
use day_file::{CLASS_WORDS, Class, SERIES_WORDS, Series};
use words::payload;

// The first point.
const DOWNSIDE_5: usize = 0;

// The last point.
pub const UPSIDE_5: usize = Points::COUNT - 1;

// Upside 1, the first point of the upside.
pub const UPSIDE_1: usize = Points::COUNT / 2;

// Downside 1, the last point of the downside.
pub const DOWNSIDE_1: usize = UPSIDE_1 - 1;

// Ten payloads from word i on.
fn ten(day: &[u32], i: usize) -> [u32; Points::COUNT]
    requires { i + point_count ≤ length day.now }
    ensures { result ≡ tabulate point_count (λ k. payload_of (get_or day.now (i + k) 0)) }
{
    let mut row = [0u32; Points::COUNT];
    for k in 0..Points::COUNT {
        row[k] = payload(day[i + k]);
    }
    row
}

// The ten theoretical prices of a series.
fn theoretical_prices(series: &Series) -> [u32; Points::COUNT]
    ensures { result ≡ tabulate point_count (theoretical series.now.day.now series.now.place) }
{
    let classes = day_file::class_count(series.day);
    ten(
        series.day,
        1 + CLASS_WORDS * classes + SERIES_WORDS * series.place + 5,
    )
}

// The ten projected underlying prices of a class.
pub fn projected_prices(class: &Class) -> [u32; Points::COUNT]
    ensures { result ≡ tabulate point_count (projected class.now.day.now class.now.place) }
{
    ten(class.day, 1 + CLASS_WORDS * class.place + 10)
}

// Ten prices with the adjustment at point k where it is larger.
fn adjusted(prices: [u32; Points::COUNT], k: usize, adjustment: u32) -> [u32; Points::COUNT]
    requires { k < point_count }
    ensures { result ≡ set prices k (max (get_or prices k 0) adjustment) }
{
    let mut row = prices;
    row[k] = row[k].max(adjustment);
    row
}

// The ten prices of a net short of a series: a call is adjusted at upside 5, a put at downside 5.
fn short_prices(series: &Series) -> [u32; Points::COUNT]
    ensures { result ≡ tabulate point_count (short_price series.now.day.now series.now.place) }
{
    let prices = theoretical_prices(series);
    if series.is_call() {
        return adjusted(prices, UPSIDE_5, series.adjustment());
    }
    if series.is_put() {
        return adjusted(prices, DOWNSIDE_5, series.adjustment());
    }
    prices
}

// The ten prices of an open position of a series: the theoretical ones unless its net is short.
pub fn open_prices(series: &Series, net: i64) -> [u32; Points::COUNT]
    ensures { result ≡ tabulate point_count (open_price series.now.day.now series.now.place net) }
{
    if 0 < net {
        return short_prices(series);
    }
    theoretical_prices(series)
}
