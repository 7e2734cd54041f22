// The two sides of a class's open futures.
ghost use Rattle.std.specs.Prelude.{◌≡◌, ◌≤◌, ◌<◌, ◌^◌, pos, nat_abs, ◌+ℤ◌};
ghost use Rattle.model.specs.Steps.Spread.{short_side, long_side, total_short, total_long};
ghost use Rattle.model.specs.Limits.{contracts_limit};
ghost use Rattle.holdings.specs.Seen.{class_day, class_net, class_book, series_day, series_net, series_book};
ghost use Rattle.spread.specs.Sides.{future_short, future_long};

use holdings::{ClassHoldings, SeriesHoldings};
use positions::Holding;

// The two sides of some futures: contracts net short and net long. How large they can be is a fact of the class whose futures they are.
#[derive(Clone, Copy)]
pub struct Sides {
    pub short: i64,
    pub long: i64,
}

pub(crate) fn short_side(z: i64) -> i64
    ensures { result ≡ short_side z }
{
    z.max(0)
}

pub(crate) fn long_side(z: i64) -> i64
    requires { nat_abs z < 2 ^ 63 }
    ensures { result ≡ long_side z }
{
    (-z).max(0)
}

impl Sides {
    pub fn new() -> Self
        ensures { (result.short ≡ pos 0) × (result.long ≡ pos 0) }
    {
        Sides { short: 0, long: 0 }
    }

    // The sides with those of a series added, if it is an open future.
    pub fn add(self, held: &SeriesHoldings) -> Self
        requires { (nat_abs self.short ≤ contracts_limit) × (nat_abs self.long ≤ contracts_limit) }
        ensures { (result.short ≡ self.short +ℤ future_short (series_day held.now) (series_net held.now) (series_book held.now) held.now.place) × (result.long ≡ self.long +ℤ future_long (series_day held.now) (series_net held.now) (series_book held.now) held.now.place) }
    {
        if !held.series().is_future() {
            return self;
        }
        let z = held.net(Holding::Open);
        Sides {
            short: self.short + short_side(z),
            long: self.long + long_side(z),
        }
    }
}

// The sides of the class's open futures, total net short and total net long.
pub fn total_sides(class: &ClassHoldings) -> Sides
    ensures { (result.short ≡ total_short (class_day class.now) (class_net class.now) (class_book class.now) class.now.class) × (result.long ≡ total_long (class_day class.now) (class_net class.now) (class_book class.now) class.now.class) }
{
    let mut sum = Sides::new();
    let series = class.series();
    for s in series.start..series.end {
        sum = sum.add(&SeriesHoldings { class, place: s });
    }
    sum
}
