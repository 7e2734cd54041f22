// Step 4 of a class in a book: premium of its options.
#![tactic(auto)]

ghost use Rattle.std.specs.Prelude.{◌≡◌, cond, pos};
ghost use Rattle.model.specs.DayFile.{series_type, is_option};
ghost use Rattle.model.specs.Steps.Premium.{in_the_money, premium_of, premium as premium_sum};
ghost use Rattle.holdings.specs.Seen.{class_day, class_net, class_book, series_day, series_net, series_book};

use holdings::{ClassHoldings, SeriesHoldings};
use positions::Holding;

// Underlying − strike for a call, strike − underlying for a put, negative where it is so.
fn in_the_money(held: &SeriesHoldings) -> i64
    ensures { result ≡ in_the_money (series_day held.now) held.now.class.now.class held.now.place }
{
    worth::signed_by_type(held.series().type_number(), held.above_strike())
}

// Of a series, if it is an option: the open position at its closing price, the exercised or assigned one at its in-the-money amount.
fn series_premium(held: &SeriesHoldings) -> i64
    ensures { result ≡ cond (is_option (series_type (series_day held.now) held.now.place)) (premium_of (series_day held.now) (series_net held.now) (series_book held.now) held.now.class.now.class held.now.place) (pos 0) }
{
    let series = held.series();
    if !series.is_option() {
        return 0;
    }
    let price = i64::from(series.closing());
    let exercised = held.position(Holding::Exercised);
    let value = in_the_money(held);
    held.position(Holding::Open).worth(price) + exercised.worth(value)
}

// Of a class. A loop of its own: what bounds its sum is another law than mark-to-market's.
pub fn premium(class: &ClassHoldings) -> i64
    ensures { result ≡ premium_sum (class_day class.now) (class_net class.now) (class_book class.now) class.now.class }
{
    let mut sum = 0;
    let series = class.series();
    for s in series.start..series.end {
        sum += series_premium(&SeriesHoldings { class, place: s });
    }
    sum
}
