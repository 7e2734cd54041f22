// The class's ten amounts: each of its positions adds to what begins as ten zeros.
ghost use Rattle.std.specs.Prelude.{◌≡◌};
ghost use Rattle.numbers.specs.Table.{tabulate};
ghost use Rattle.model.specs.Steps.Points.{class_point};
ghost use Rattle.model.specs.Limits.{point_count};
ghost use Rattle.holdings.specs.Seen.{class_day, class_net, class_book};

use crate::series;
use accumulator::Points;
use holdings::SeriesHoldings;
use spread::quantity::ClassSpread;
use spread::sides::Sides;

// The spread quantity is taken from the earliest expiry on: `before` has the sides of the futures before s, which have taken what there is of it.
pub fn class_points(of: &ClassSpread) -> Points
    ensures { result.at ≡ tabulate point_count (class_point (class_day of.now.class.now) (class_net of.now.class.now) (class_book of.now.class.now) of.now.class.now.class) }
{
    let class = of.class;
    let mut sum = Points::new();
    let mut before = Sides::new();
    let series = class.series();
    for s in series.start..series.end {
        let held = SeriesHoldings { class, place: s };
        sum = series::add_series(sum, &held, of.quantity, before);
        before = before.add(&held);
    }
    sum
}
