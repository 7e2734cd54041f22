// Step 6: a class's ten amounts after its offset, ten amounts added to ten, and the largest of ten.
#![tactic(auto)]

ghost use Rattle.std.specs.Prelude.{◌≡◌, ℕ, ◌*◌, ◌/◌, ◌≤◌, ◌<◌, pos, nat_abs, ◌+ℤ◌, get_or};
ghost use Rattle.numbers.specs.Extremes.{largest as largest_of};
ghost use Rattle.numbers.specs.Table.{tabulate};
ghost use Rattle.model.specs.Steps.Additional.{after_offset};
ghost use Rattle.model.specs.Limits.{worth_limit, point_count, whole_offset};

use accumulator::Points;

// An offset of the whole.
const WHOLE: u64 = day_file::WHOLE_OFFSET as u64;

// A product with an offset in units, rounded down.
fn in_units(product: u64) -> u64
    ensures { result ≡ product / whole_offset }
{
    product / WHOLE
}

// What the offset o leaves of a size. The product alone could wrap, so the quotient and the remainder by the whole go apart.
fn left(size: u64, o: u64) -> u64
    requires { (size ≤ worth_limit) × (o ≤ whole_offset) }
    ensures { result ≡ size * o / whole_offset }
{
    size / WHOLE * o + in_units(size % WHOLE * o)
}

// An amount after the offset o. Of a credit the size is rounded down, which rounds the credit toward zero; a debit is whole.
fn after_offset(o: u32, amount: i64) -> i64
    requires { (o ≤ whole_offset) × (nat_abs amount ≤ worth_limit) }
    ensures { result ≡ after_offset o amount }
{
    if amount < 0 {
        return -(left(amount.unsigned_abs(), u64::from(o)) as i64);
    }
    amount
}

// Ten amounts of a class after its offset o.
pub fn offset(points: Points, o: u32) -> Points
    requires o_le_whole_offset { o ≤ whole_offset }
    requires by_index { (k : ℕ) → k < point_count → nat_abs (get_or points.at k (pos 0)) ≤ worth_limit }
    ensures { result.at ≡ tabulate point_count (λ k. after_offset o (get_or points.at k (pos 0))) }
{
    let mut next = points;
    for k in 0..Points::COUNT {
        next.at[k] = after_offset(o, next.at[k]);
    }
    next
}

// Two sets of ten amounts added point by point.
pub fn plus(points: Points, more: Points) -> Points
    requires by_index { (k : ℕ) → k < point_count → nat_abs (get_or points.at k (pos 0)) ≤ worth_limit }
    requires by_index_2 { (k : ℕ) → k < point_count → nat_abs (get_or more.at k (pos 0)) ≤ worth_limit }
    ensures { result.at ≡ tabulate point_count (λ k. get_or points.at k (pos 0) +ℤ get_or more.at k (pos 0)) }
{
    let mut next = points;
    for k in 0..Points::COUNT {
        next.at[k] += more.at[k];
    }
    next
}

// The largest of ten amounts, or 0 if none is positive.
pub fn largest(points: Points) -> i64
    ensures { result ≡ largest_of point_count (λ k. get_or points.at k (pos 0)) }
{
    let mut most: i64 = 0;
    for amount in points.at {
        most = most.max(amount);
    }
    most
}
