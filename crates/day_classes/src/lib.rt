// Rows 13, 14 and 18: the order of the classes, their offsets by group, and the order of each one's prices.
#![tactic(auto)]

ghost use Rattle.std.specs.Prelude.{◌≡◌};
ghost use Rattle.numbers.specs.Scan.{first_bad};
ghost use Rattle.model.specs.DayFile.{class_count};
ghost use Rattle.model.specs.DayChecks.{row13, row14, row18, class_check};
ghost use Rattle.day_classes.specs.Offsets.{conflict};

use day_file::whole::WholeDay;
use day_file::{Class, class_count};
use model::{Check, ClassFault};
use prices::{DOWNSIDE_1, UPSIDE_1, UPSIDE_5, projected_prices};
use rows::{check_records, check_row};

// Row 13 of a class: its number is not above that of the one before.
#[tactic(auto, unfolding(model::specs::DayChecks::row13))]
fn out_of_order(class: &Class) -> bool
    ensures { result ≡ row13 class.now.day.now class.now.place }
{
    if class.place == 0 {
        return false;
    }
    let before = Class::new(class.day, class.place - 1);
    class.number() <= before.number()
}

// The group has another offset than o.
fn conflicts(last: Option<u32>, o: u32) -> bool
    ensures { result ≡ conflict last o }
{
    last.is_some_and(|l| l != o)
}

// Row 14, with a table of the offsets of the groups so far.
fn first_other_offset(day: &WholeDay<'_>) -> Option<usize>
    ensures { result ≡ first_bad (row14 day.now.words.now) (class_count day.now.words.now) }
{
    let mut last: [Option<u32>; 32] = [None; 32];
    for c in 0..class_count(day.words) {
        let class = day.class(c);
        let g = class.group();
        let o = class.offset();
        if conflicts(last[g], o) {
            return Some(c);
        }
        last[g] = Some(o);
    }
    None
}

// Row 18 of a class: a projected price is below the one before it, or the underlying price below downside 1 or above upside 1.
// No comparison branches, since almost every class is in order.
fn prices_out_of_order(class: &Class) -> bool
    ensures { result ≡ row18 class.now.day.now class.now.place }
{
    let prices = projected_prices(class);
    let underlying = class.underlying();
    let mut falls = false;
    for k in 0..UPSIDE_5 {
        falls |= prices[k + 1] < prices[k];
    }
    falls | (underlying < prices[DOWNSIDE_1]) | (prices[UPSIDE_1] < underlying)
}

pub fn check_classes(day: &WholeDay<'_>) -> Result<(), Check>
    ensures { result ≡ class_check day.now.words.now }
{
    let count = class_count(day.words);
    check_records(
        count,
        |c| out_of_order(&day.class(c)),
        |c| Check::Classes(ClassFault::ClassOrder, c),
    )?;
    let unlike = first_other_offset(day);
    check_row(unlike, |c| Check::Classes(ClassFault::OffsetDiffers, c))?;
    check_records(
        count,
        |c| prices_out_of_order(&day.class(c)),
        |c| Check::Classes(ClassFault::PriceOrder, c),
    )
}
