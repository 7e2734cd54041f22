// The spread margin.
ghost use Rattle.std.specs.Prelude.{◌≡◌, ◌≤◌, nat_abs};
ghost use Rattle.model.specs.Steps.Spread.{spread as spread_of};
ghost use Rattle.model.specs.Limits.{contracts_limit, price_limit};
ghost use Rattle.holdings.specs.Seen.{class_day, class_net, class_book};
ghost use Rattle.spread.specs.Sides.{spread_amount};

use crate::quantity::ClassSpread;
use crate::spot;

// Spot spread and non-spot spread, each times its rate.
fn spread_amount(spot: i64, quantity: i64, near_rate: u32, far_rate: u32) -> i64
    requires { (nat_abs spot ≤ contracts_limit) × (nat_abs quantity ≤ contracts_limit) × (near_rate ≤ price_limit) × (far_rate ≤ price_limit) }
    ensures { result ≡ spread_amount spot quantity near_rate far_rate }
{
    let near = spot.min(quantity);
    let far = 2 * quantity - near;
    near * i64::from(near_rate) + far * i64::from(far_rate)
}

// The spread margin of a class.
pub fn spread(of: &ClassSpread) -> i64
    ensures { result ≡ spread_of (class_day of.now.class.now) (class_net of.now.class.now) (class_book of.now.class.now) of.now.class.now.class }
{
    let spot = spot::spot_size(of.class);
    let class = of.class.class();
    let spot_rate = class.spot_rate();
    let rate = class.non_spot_rate();
    spread_amount(spot, of.quantity, spot_rate, rate)
}
