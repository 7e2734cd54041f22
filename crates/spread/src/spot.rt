// The spot: the open future held with the earliest expiry.
ghost use Rattle.std.specs.Prelude.{◌≡◌};
ghost use Rattle.model.specs.Steps.Spread.{spot_size};
ghost use Rattle.holdings.specs.Seen.{class_day, class_net, class_book, series_day, series_net, series_book};
ghost use Rattle.spread.specs.Sides.{held_here};

use holdings::{ClassHoldings, SeriesHoldings};
use positions::Holding;

// An open future with a non-zero net.
fn held_future(held: &SeriesHoldings) -> bool
    ensures { result ≡ held_here (series_day held.now) (series_net held.now) (series_book held.now) held.now.place }
{
    if !held.series().is_future() {
        return false;
    }
    held.net(Holding::Open) != 0
}

// The absolute net of the spot: the first open future held, which has the earliest expiry.
pub fn spot_size(class: &ClassHoldings) -> i64
    ensures { result ≡ spot_size (class_day class.now) (class_net class.now) (class_book class.now) class.now.class }
{
    let series = class.series();
    for s in series.start..series.end {
        let held = SeriesHoldings { class, place: s };
        if held_future(&held) {
            return held.net(Holding::Open).abs();
        }
    }
    0
}
