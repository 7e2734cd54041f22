// Rows 15 to 17: the class, the order and the type of the series.
#![tactic(auto)]

ghost use Rattle.std.specs.Prelude.{◌≡◌};
ghost use Rattle.model.specs.DayChecks.{series_check};

use day_file::series_count;
use day_file::whole::WholeDay;
use model::{Check, SeriesFault};
use rows::check_records;
use series_rows::{bad_type, class_absent, out_of_order, present_numbers};

pub fn check_series(day: &WholeDay<'_>) -> Result<(), Check>
    ensures { result ≡ series_check day.now.words.now }
{
    let count = series_count(day.words);
    let present = present_numbers(day.words);
    check_records(
        count,
        |s| class_absent(&day.series(s), &present),
        |s| Check::Series(SeriesFault::ClassAbsent, s),
    )?;
    check_records(
        count,
        |s| out_of_order(&day.series(s)),
        |s| Check::Series(SeriesFault::SeriesOrder, s),
    )?;
    check_records(
        count,
        |s| bad_type(&day.series(s)),
        |s| Check::Series(SeriesFault::BadType, s),
    )
}
