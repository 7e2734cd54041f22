// House rule: on each side, spread contracts are taken from the earliest expiry on; the rest is non-spread.
ghost use Rattle.std.specs.Prelude.{◌≡◌, ◌≤◌, nat_abs};
ghost use Rattle.model.specs.Steps.Spread.{left_over};
ghost use Rattle.model.specs.Limits.{contracts_limit};
ghost use Rattle.spread.specs.Sides.{non_spread_of};

use crate::sides;
use crate::sides::Sides;

// What is left of one side of a series behind earlier ones whose contracts on this side are `before`.
fn left_over(quantity: i64, before: i64, size: i64) -> i64
    requires { (nat_abs quantity ≤ contracts_limit) × (nat_abs before ≤ contracts_limit) × (nat_abs size ≤ contracts_limit) }
    ensures { result ≡ left_over quantity before size }
{
    let rest = (quantity - before).max(0);
    size - size.min(rest)
}

// The non-spread net of a future: what is left of its short side − what is left of its long side.
pub fn non_spread(quantity: i64, before: Sides, net: i64) -> i64
    requires { (nat_abs quantity ≤ contracts_limit) × (nat_abs before.short ≤ contracts_limit) × (nat_abs before.long ≤ contracts_limit) × (nat_abs net ≤ contracts_limit) }
    ensures { result ≡ non_spread_of quantity before.short before.long net }
{
    let short = left_over(quantity, before.short, sides::short_side(net));
    let long = left_over(quantity, before.long, sides::long_side(net));
    short - long
}
