// The two positions of a series: open, and exercised or assigned.
ghost use Rattle.std.specs.Prelude.{◌≡◌, cond, ℕ, ◌*◌, ◌≤◌, ◌<◌, pos, nat_abs, ◌+ℤ◌, ◌*ℤ◌, get_or};
ghost use Rattle.numbers.specs.Table.{tabulate};
ghost use Rattle.model.specs.DayFile.{series_type, is_future, multiplier, underlying, projected};
ghost use Rattle.model.specs.Steps.Classes.{signed_by_type};
ghost use Rattle.model.specs.Steps.Spread.{spread_quantity, short_before, long_before};
ghost use Rattle.model.specs.Steps.Positions.{exercised_net};
ghost use Rattle.model.specs.Steps.Points.{point_of};
ghost use Rattle.model.specs.Limits.{contracts_limit, running_limit, worth_limit, point_count};
ghost use Rattle.holdings.specs.Seen.{series_day, series_net, series_book};
ghost use Rattle.spread.specs.Sides.{non_spread_of};
ghost use Rattle.points.specs.Series.{moves_from, moves_to, open_added, exercised_added};

use accumulator::{Points, Position};
use holdings::SeriesHoldings;
use positions::Holding;
use spread::sides::Sides;
use worth::SeriesNet;

// So many contracts that move with the underlying price, from it to the projected ones.
fn underlying_position(held: &SeriesHoldings, contracts: i64) -> Position
    ensures { (result.contracts ≡ contracts) × (result.base ≡ underlying (series_day held.now) held.now.class.now.class) × (result.prices ≡ tabulate point_count (projected (series_day held.now) held.now.class.now.class)) }
{
    let class = held.class.class();
    Position {
        contracts,
        base: class.underlying(),
        prices: prices::projected_prices(&class),
    }
}

// An open position moves from the closing price to its prices at the points, one of an expired future with the underlying price.
fn open_position(held: &SeriesHoldings, net: i64) -> Position
    requires { nat_abs net * multiplier (series_day held.now) held.now.place ≤ contracts_limit }
    ensures { (result.contracts ≡ net *ℤ pos (multiplier (series_day held.now) held.now.place)) × (result.base ≡ moves_from (series_day held.now) held.now.class.now.class held.now.place) × (result.prices ≡ tabulate point_count (moves_to (series_day held.now) held.now.class.now.class held.now.place net)) }
{
    let of = SeriesNet {
        series: held.series(),
        net,
    };
    if of.series.is_expired() {
        return underlying_position(held, of.contracts());
    }
    Position {
        contracts: of.contracts(),
        base: of.series.closing(),
        prices: prices::open_prices(&of.series, net),
    }
}

// An exercised or assigned one moves with the underlying price, a put the other way.
fn exercised_position(held: &SeriesHoldings) -> Position
    ensures { (result.contracts ≡ signed_by_type (series_type (series_day held.now) held.now.place) ((exercised_net (series_net held.now) (series_book held.now) held.now.place) *ℤ pos (multiplier (series_day held.now) held.now.place))) × (result.base ≡ underlying (series_day held.now) held.now.class.now.class) × (result.prices ≡ tabulate point_count (projected (series_day held.now) held.now.class.now.class)) }
{
    let of = held.position(Holding::Exercised);
    let contracts = worth::signed_by_type(of.series.type_number(), of.contracts());
    underlying_position(held, contracts)
}

// The open net that counts: open futures with only their non-spread net.
fn counted_net(held: &SeriesHoldings, net: i64, quantity: i64, before: Sides) -> i64
    requires { (nat_abs quantity ≤ contracts_limit) × (nat_abs before.short ≤ contracts_limit) × (nat_abs before.long ≤ contracts_limit) × (nat_abs net ≤ contracts_limit) }
    ensures { result ≡ cond (is_future (series_type (series_day held.now) held.now.place)) (non_spread_of quantity before.short before.long net) net }
{
    if !held.series().is_future() {
        return net;
    }
    spread::left::non_spread(quantity, before, net)
}

// The ten amounts with those of an open position; a net of 0 adds none, and its prices are not read.
fn add_open(points: Points, held: &SeriesHoldings, net: i64) -> Points
    requires limit { nat_abs net * multiplier (series_day held.now) held.now.place ≤ contracts_limit }
    requires by_index { (k : ℕ) → k < point_count → nat_abs (get_or points.at k (pos 0)) ≤ running_limit }
    ensures { result.at ≡ open_added (series_day held.now) held.now.class.now.class held.now.place points.at net }
{
    if net == 0 {
        return points;
    }
    points.add(open_position(held, net))
}

// The same of an exercised or assigned position. Apart, since each asks its net before it makes its position, whose prices cost most.
fn add_exercised(points: Points, held: &SeriesHoldings) -> Points
    requires { (k : ℕ) → k < point_count → nat_abs (get_or points.at k (pos 0)) ≤ running_limit }
    ensures { result.at ≡ exercised_added (series_day held.now) held.now.class.now.class held.now.place points.at (exercised_net (series_net held.now) (series_book held.now) held.now.place) }
{
    if held.net(Holding::Exercised) == 0 {
        return points;
    }
    points.add(exercised_position(held))
}

// The ten amounts with those of both positions of a series.
pub fn add_series(points: Points, held: &SeriesHoldings, quantity: i64, before: Sides) -> Points
    requires quantity_value { quantity ≡ spread_quantity (series_day held.now) (series_net held.now) (series_book held.now) held.now.class.now.class }
    requires before_value { (before.short ≡ short_before (series_day held.now) (series_net held.now) (series_book held.now) held.now.class.now.class held.now.place) × (before.long ≡ long_before (series_day held.now) (series_net held.now) (series_book held.now) held.now.class.now.class held.now.place) }
    requires by_index { (k : ℕ) → k < point_count → nat_abs (get_or points.at k (pos 0)) ≤ worth_limit }
    ensures { result.at ≡ tabulate point_count (λ k. get_or points.at k (pos 0) +ℤ point_of (series_day held.now) (series_net held.now) (series_book held.now) held.now.class.now.class k held.now.place) }
{
    let net = held.net(Holding::Open);
    let next = add_open(points, held, counted_net(held, net, quantity, before));
    add_exercised(next, held)
}
