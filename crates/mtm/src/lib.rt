// Step 3 of a class in a book: mark-to-market of its securities and expired futures.
#![tactic(auto)]

ghost use Rattle.std.specs.Prelude.{◌≡◌, cond, pos};
ghost use Rattle.model.specs.DayFile.{series_type, is_marked};
ghost use Rattle.model.specs.Steps.Mtm.{security_mtm, expired_mtm, mtm_of, mtm as mtm_sum};
ghost use Rattle.holdings.specs.Seen.{class_day, class_net, class_dvp, class_book, series_day, series_net, series_dvp, series_book};

use holdings::{ClassHoldings, SeriesHoldings};
use positions::Holding;

// Of a security: net × multiplier × closing price − DVP. A net of 0 keeps its DVP.
fn security_mtm(held: &SeriesHoldings) -> i64
    ensures { result ≡ security_mtm (series_day held.now) (series_net held.now) (series_dvp held.now) (series_book held.now) held.now.place }
{
    let price = i64::from(held.series().closing());
    held.position(Holding::Open).worth(price) - held.dvp(Holding::Open)
}

// Of an expired future: net × multiplier × (underlying − delivery price).
fn expired_mtm(held: &SeriesHoldings) -> i64
    ensures { result ≡ expired_mtm (series_day held.now) (series_net held.now) (series_book held.now) held.now.class.now.class held.now.place }
{
    held.position(Holding::Open).worth(held.above_strike())
}

// Of a series, 0 for one that is not marked to market.
fn series_mtm(held: &SeriesHoldings) -> i64
    ensures { result ≡ cond (is_marked (series_type (series_day held.now) held.now.place)) (mtm_of (series_day held.now) (series_net held.now) (series_dvp held.now) (series_book held.now) held.now.class.now.class held.now.place) (pos 0) }
{
    let series = held.series();
    if series.is_security() {
        return security_mtm(held);
    }
    if series.is_expired() {
        return expired_mtm(held);
    }
    0
}

// Of a class. A loop of its own: what bounds its sum is another law than premium's.
pub fn mtm(class: &ClassHoldings) -> i64
    ensures { result ≡ mtm_sum (class_day class.now) (class_net class.now) (class_dvp class.now) (class_book class.now) class.now.class }
{
    let mut sum = 0;
    let series = class.series();
    for s in series.start..series.end {
        sum += series_mtm(&SeriesHoldings { class, place: s });
    }
    sum
}
