// The spread quantity.
ghost use Rattle.std.specs.Prelude.{◌≡◌};
ghost use Rattle.model.specs.Steps.Spread.{spread_quantity};
ghost use Rattle.holdings.specs.Seen.{class_day, class_net, class_book};

use crate::sides::total_sides;
use holdings::ClassHoldings;

// A class with its spread quantity.
#[derive(Drop)]
pub struct ClassSpread<'a, 'b> {
    pub class: &'a ClassHoldings<'b>,
    pub quantity: i64,
    pub ghost value: { quantity ≡ spread_quantity (class_day class.now) (class_net class.now) (class_book class.now) class.now.class },
}

// The smaller of the two sides of the class's open futures.
pub fn spread_quantity(class: &ClassHoldings) -> i64
    ensures { result ≡ spread_quantity (class_day class.now) (class_net class.now) (class_book class.now) class.now.class }
{
    let sides = total_sides(class);
    sides.long.min(sides.short)
}
