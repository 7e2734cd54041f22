// Steps 7 and 8: the line of a group in a book.
ghost use Rattle.std.specs.Prelude.{◌≡◌, [], ◌∷◌, ◌≤◌, pos, nat_abs, ◌+ℤ◌, get_or};
ghost use Rattle.numbers.specs.Extremes.{max_z, largest};
ghost use Rattle.model.specs.Steps.Margin.{line_amounts};
ghost use Rattle.model.specs.Limits.{mtm_limit, spread_limit, worth_limit, point_count};
ghost use Rattle.holdings.specs.Seen.{group_day, group_net, group_dvp, group_book};

use crate::group;
use accumulator::Points;
use holdings::GroupHoldings;

#[derive(Drop)]
pub struct Line {
    pub spread: i64,
    pub mtm: i64,
    pub premium: i64,
    pub requirement: i64,
    pub margin: i64,
    pub residual: i64,
}

// Additional requirement: the larger of additional and minimum.
fn additional_requirement(points: Points, minimum: i64) -> i64
    ensures { result ≡ max_z (largest point_count (λ k. get_or points.at k (pos 0))) minimum }
{
    additional::largest(points).max(minimum)
}

// Spread + MTM + premium + additional requirement.
fn group_sum(spread: i64, mtm: i64, premium: i64, requirement: i64) -> i64
    requires { (nat_abs spread ≤ spread_limit) × (nat_abs mtm ≤ mtm_limit) × (nat_abs premium ≤ worth_limit) × (nat_abs requirement ≤ worth_limit) }
    ensures { result ≡ spread +ℤ mtm +ℤ premium +ℤ requirement }
{
    spread + mtm + premium + requirement
}

// The line of a group: margin is the group sum if positive, residual credit its negative if negative. Inlined: as a function of its own the
// report of the largest account took 1.12 of plain Rust's time, and not 1.05.
#[inline(always)]
pub fn group_line(held: &GroupHoldings) -> Line
    ensures { (result.spread ∷ result.mtm ∷ result.premium ∷ result.requirement ∷ result.margin ∷ result.residual ∷ []) ≡ line_amounts (group_day held.now) (group_net held.now) (group_dvp held.now) (group_book held.now) held.now.group }
{
    let sums = group::group_amounts(held);
    let points = sums.points;
    let requirement = additional_requirement(points, sums.minimum);
    let total = group_sum(sums.spread, sums.mtm, sums.premium, requirement);
    Line {
        spread: sums.spread,
        mtm: sums.mtm,
        premium: sums.premium,
        requirement: requirement,
        margin: total.max(0),
        residual: (-total).max(0),
    }
}
