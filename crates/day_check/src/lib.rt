// The checks of a day file: rows 10 to 18, each over all records before the next.
#![tactic(auto)]

ghost use Rattle.std.specs.Prelude.{◌≡◌};
ghost use Rattle.model.specs.DayChecks.{row10, row11, record_check, day_check};

use day_classes::check_classes;
use day_file::whole::WholeDay;
use day_file::{
    CLASS_WORDS, MOST_CLASSES, MOST_SERIES, SERIES_WORDS, class_count, day_header, series_count,
};
use day_series::check_series;
use day_words::{first_bad_record, record_count};
use model::{Check, DayHeaderFault, DayLengthFault, DayWordsFault};
use rows::check_row;
use words::{Kind, bits, has_kind, payload};

// Row 10: no words, wrong kind, spare bits, C or S too large.
#[tactic(auto, unfolding(model::specs::DayChecks::row10))]
fn bad_header(day: &[u32]) -> bool
    ensures { result ≡ row10 day.now }
{
    let h = day_header(day);
    day.is_empty()
        || !has_kind(h, Kind::Header)
        || 0 < bits(payload(h), 16, 13)
        || MOST_CLASSES < class_count(day)
        || MOST_SERIES < series_count(day)
}

// Row 11: the length is not that of so many classes and series.
#[tactic(auto, unfolding(model::specs::DayChecks::row11))]
fn bad_length(day: &[u32]) -> bool
    ensures { result ≡ row11 day.now }
{
    day.len() != 1 + CLASS_WORDS * class_count(day) + SERIES_WORDS * series_count(day)
}

// Rows 12 to 18.
#[tactic(auto, using(model::proofs::Verdicts::verdicts), unfolding(model::specs::DayChecks::record_check))]
fn check_records(day: &WholeDay<'_>) -> Result<(), Check>
    ensures { result ≡ record_check day.now.words.now }
{
    let bad = first_bad_record(day, record_count(day.words));
    check_row(bad, |i| Check::DayWords(DayWordsFault::BadDayWord, i))?;
    check_classes(day)?;
    check_series(day)
}

// The first check that refuses the day file, for any words.
#[tactic(auto, using(model::proofs::Verdicts::verdicts, model::proofs::Verdicts::equal_of), unfolding(model::specs::DayChecks::day_check, model::specs::DayChecks::row11))]
pub fn check_day(day: &[u32]) -> Result<(), Check>
    ensures { result ≡ day_check day.now }
{
    if bad_header(day) {
        return Err(Check::DayHeader(DayHeaderFault::BadDayHeader, 0));
    }
    if bad_length(day) {
        return Err(Check::DayLength(DayLengthFault::BadDayLength, 0));
    }
    check_records(&WholeDay { words: day })
}
