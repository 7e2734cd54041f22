// Rows 23 to 26 of one record of a batch, for any day file.
#![tactic(auto)]

ghost use Rattle.std.specs.Prelude.{◌≡◌};
ghost use Rattle.model.specs.DayFile.{series_type};
ghost use Rattle.model.specs.Batch.{place};
ghost use Rattle.model.specs.BatchChecks.{row23, row24, row25, row26};

use batch::Record;
use day_file::{series_count, series_type_at};
use series_types::{is_option, is_security};

// The number of the type of a record's series, of any bits where the series is not there.
fn type_of(day: &[u32], r: &Record) -> u32
    ensures { result ≡ series_type day.now (place r.now.batch.now r.now.index) }
{
    series_type_at(day, r.place())
}

// Row 23 of a record: its series place is not below S.
#[tactic(auto, unfolding(model::specs::BatchChecks::row23))]
pub fn series_absent(day: &[u32], r: &Record) -> bool
    ensures { result ≡ row23 day.now r.now.batch.now r.now.index }
{
    series_count(day) <= r.place()
}

// Row 24 of a record: bit 8 on a non-option.
#[tactic(auto, unfolding(model::specs::BatchChecks::row24))]
pub fn exercised_non_option(day: &[u32], r: &Record) -> bool
    ensures { result ≡ row24 day.now r.now.batch.now r.now.index }
{
    r.is_exercised() && !is_option(type_of(day, r))
}

// Row 25 of a record: bit 9 on a non-security.
#[tactic(auto, unfolding(model::specs::BatchChecks::row25))]
pub fn fail_non_security(day: &[u32], r: &Record) -> bool
    ensures { result ≡ row25 day.now r.now.batch.now r.now.index }
{
    r.is_fail() && !is_security(type_of(day, r))
}

// Row 26 of a record: DVP not 0 on a non-security.
#[tactic(auto, unfolding(model::specs::BatchChecks::row26))]
pub fn dvp_non_security(day: &[u32], r: &Record) -> bool
    ensures { result ≡ row26 day.now r.now.batch.now r.now.index }
{
    0 < r.dvp_size() && !is_security(type_of(day, r))
}
