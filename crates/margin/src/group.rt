// What a group has before the larger of additional and minimum is taken: its classes' amounts added.
ghost use Rattle.std.specs.Prelude.{◌≡◌, ◌+◌, ◌<◌};
ghost use Rattle.model.specs.DayFile.{class_count};
ghost use Rattle.holdings.specs.Seen.{group_day, group_net, group_dvp, group_book, class_day, class_net, class_dvp, class_book};
ghost use Rattle.margin.specs.Groups.{Small, no_amounts, added, class_amounts, amounts_below};

use accumulator::Points;
use holdings::{ClassHoldings, GroupHoldings};
use points::class_points;
use spread::quantity::{ClassSpread, spread_quantity};

#[derive(Drop)]
pub struct Amounts {
    pub spread: i64,
    pub mtm: i64,
    pub premium: i64,
    pub minimum: i64,
    pub points: Points,
}

// The amounts of a class, its points after its offset.
fn class_amounts(class: &ClassHoldings) -> Amounts
    ensures { result ≡ class_amounts (class_day class.now) (class_net class.now) (class_dvp class.now) (class_book class.now) class.now.class }
{
    let quantity = spread_quantity(class);
    let of = ClassSpread { class, quantity };
    let whole = class_points::class_points(&of);
    let after = additional::offset(whole, class.class().offset());
    Amounts {
        spread: spread::amount::spread(&of),
        mtm: mtm::mtm(class),
        premium: premium::premium(class),
        minimum: minimum::minimum(class),
        points: after,
    }
}

impl Amounts {
    pub fn new() -> Self
        ensures { result ≡ no_amounts }
    {
        let points = Points::new();
        Amounts {
            spread: 0,
            mtm: 0,
            premium: 0,
            minimum: 0,
            points: points,
        }
    }

    // Two sets of amounts added, the points one by one.
    pub fn add(self, more: Amounts) -> Self
        requires small { Small self }
        requires small_2 { Small more }
        ensures { result ≡ added self more }
    {
        let points = self.points;
        let others = more.points;
        let sum = additional::plus(points, others);
        Amounts {
            spread: self.spread + more.spread,
            mtm: self.mtm + more.mtm,
            premium: self.premium + more.premium,
            minimum: self.minimum + more.minimum,
            points: sum,
        }
    }
}

// The amounts of the group's classes below c, with class c if it is of the group.
fn add_class(sum: Amounts, held: &GroupHoldings, c: usize) -> Amounts
    requires c_bound { c < class_count (group_day held.now) }
    requires sum_value { sum ≡ amounts_below (group_day held.now) (group_net held.now) (group_dvp held.now) (group_book held.now) held.now.group c }
    ensures { result ≡ amounts_below (group_day held.now) (group_net held.now) (group_dvp held.now) (group_book held.now) held.now.group (c + 1) }
{
    let account = held.account;
    if account.day.class(c).group() != held.group {
        return sum;
    }
    sum.add(class_amounts(&ClassHoldings {
        account,
        book: held.book,
        class: c,
    }))
}

// The amounts of a group.
pub fn group_amounts(held: &GroupHoldings) -> Amounts
    ensures { result ≡ amounts_below (group_day held.now) (group_net held.now) (group_dvp held.now) (group_book held.now) held.now.group (class_count (group_day held.now)) }
{
    let mut sum = Amounts::new();
    for c in 0..held.account.day.class_count() {
        sum = add_class(sum, held, c);
    }
    sum
}
