// Step 7: the minimum of a class in a book.
#![tactic(auto)]

ghost use Rattle.std.specs.Prelude.{◌≡◌, ◌≤◌, pos, nat_abs, ◌*ℤ◌};
ghost use Rattle.numbers.specs.Extremes.{abs_z};
ghost use Rattle.numbers.specs.Table.{tabulate};
ghost use Rattle.model.specs.Steps.Minimum.{minimum_rate, type_net, minimum as minimum_of};
ghost use Rattle.model.specs.Limits.{contracts_limit, price_limit};
ghost use Rattle.series_types.specs.Types.{type_number};
ghost use Rattle.holdings.specs.Seen.{class_day, class_net, class_book};
ghost use Rattle.minimum.specs.Types.{type_slots};

use day_file::Class;
use holdings::{ClassHoldings, SeriesHoldings};
use positions::Holding;
use series_types::SeriesType;

// A slot for each number that a type can have: four bits.
const TYPE_SLOTS: usize = 16;

// The open nets of the class summed within each type, by the type's number, in one pass.
fn type_nets(class: &ClassHoldings) -> [i64; TYPE_SLOTS]
    ensures { result ≡ tabulate type_slots (type_net (class_day class.now) (class_net class.now) (class_book class.now) class.now.class) }
{
    let mut sums = [0i64; TYPE_SLOTS];
    let series = class.series();
    for s in series.start..series.end {
        let held = SeriesHoldings { class, place: s };
        let t = held.series().type_number() as usize;
        sums[t] += held.net(Holding::Open);
    }
    sums
}

// The rate of a type: calls and puts both have the options rate, an expired future has no minimum.
fn minimum_rate(class: &Class, t: SeriesType) -> u32
    ensures { result ≡ minimum_rate class.now.day.now class.now.place (type_number t) }
{
    match t {
        SeriesType::Future => class.future_rate(),
        SeriesType::Call | SeriesType::Put => class.option_rate(),
        SeriesType::Equity => class.equity_rate(),
        SeriesType::Warrant => class.warrant_rate(),
        SeriesType::Rights => class.rights_rate(),
        SeriesType::ExpiredFuture => 0,
    }
}

// The absolute value of a type's sum times its rate.
fn type_minimum(net: i64, rate: u32) -> i64
    requires { (nat_abs net ≤ contracts_limit) × (rate ≤ price_limit) }
    ensures { result ≡ abs_z net *ℤ pos rate }
{
    net.abs() * i64::from(rate)
}

// Over the types.
pub fn minimum(class: &ClassHoldings) -> i64
    ensures { result ≡ minimum_of (class_day class.now) (class_net class.now) (class_book class.now) class.now.class }
{
    let sums = type_nets(class);
    let of = class.class();
    let mut sum = 0;
    for t in SeriesType::WITH_MINIMUM {
        let net = sums[t.number() as usize];
        sum += type_minimum(net, minimum_rate(&of, t));
    }
    sum
}
