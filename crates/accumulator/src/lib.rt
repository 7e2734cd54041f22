// The accumulator of step 5: ten running amounts, one for each point, D5 .. D1, U1 .. U5; and the limits of what it adds.
#![tactic(auto)]

ghost use Rattle.std.specs.Prelude.{◌≡◌, ℕ, ◌≤◌, ◌<◌, ltb, pos, nat_abs, get_or};
ghost use Rattle.numbers.specs.Table.{tabulate};
ghost use Rattle.model.specs.Limits.{price_limit, position_limit, contracts_limit, running_limit, point_count};
ghost use Rattle.accumulator.specs.Added.{change_amount, added};

// A position: net × multiplier, today's price, and the price at each point.
#[derive(Drop)]
pub struct Position {
    pub contracts: i64,
    pub base: u32,
    pub prices: [u32; Points::COUNT],
}

#[derive(Drop)]
pub struct Points {
    pub at: [i64; Points::COUNT],
}

// What a position adds at one point: net × multiplier × change of the price.
fn change_amount(contracts: i64, base: u32, price: u32) -> i64
    requires { (nat_abs contracts ≤ contracts_limit) × (base ≤ price_limit) × (price ≤ price_limit) }
    ensures { result ≡ change_amount contracts base price }
{
    contracts * (i64::from(price) - i64::from(base))
}

impl Points {
    pub const COUNT: usize = 10;

    // The largest price or rate that row 12 lets through.
    const PRICE_LIMIT: u32 = 500000000;

    // The largest absolute net × multiplier that row 30 lets through.
    const POSITION_LIMIT: u64 = 10000000;

    // A price or rate above its limit.
    pub fn price_too_large(price: u32) -> bool
        ensures { result ≡ ltb price_limit price }
    {
        Points::PRICE_LIMIT < price
    }

    // A position's absolute net × multiplier above its limit.
    pub fn position_too_large(size: u64) -> bool
        ensures { result ≡ ltb position_limit size }
    {
        Points::POSITION_LIMIT < size
    }

    // Ten zeros.
    pub fn new() -> Self
        ensures { result.at ≡ tabulate point_count (λ k. pos 0) }
    {
        Points {
            at: [0i64; Points::COUNT],
        }
    }

    // The ten amounts with what the position adds at each point.
    pub fn add(self, position: Position) -> Self
        requires contracts_bound { (nat_abs position.contracts ≤ contracts_limit) × (position.base ≤ price_limit) × ((k : ℕ) → k < point_count → get_or position.prices k 0 ≤ price_limit) }
        requires by_index { (k : ℕ) → k < point_count → nat_abs (get_or self.at k (pos 0)) ≤ running_limit }
        ensures { result.at ≡ added self.at position.contracts position.base position.prices }
    {
        let mut next = self;
        // by index: each point's amount with the price at the same point
        for k in 0..Points::COUNT {
            next.at[k] += change_amount(position.contracts, position.base, position.prices[k]);
        }
        next
    }
}
