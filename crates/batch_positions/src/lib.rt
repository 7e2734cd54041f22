// Rows 23 to 26: each record of a batch against its series, for any day file.
#![tactic(auto)]

ghost use Rattle.std.specs.Prelude.{◌≡◌};
ghost use Rattle.model.specs.BatchChecks.{position_check};

use batch::WholeBatch;
use model::{Check, PositionFault};
use position_rows::{dvp_non_security, exercised_non_option, fail_non_security, series_absent};
use rows::check_records;

pub fn check_positions(day: &[u32], batch: &WholeBatch<'_>) -> Result<(), Check>
    ensures { result ≡ position_check day.now batch.now.words.now }
{
    let count = batch.record_count();
    check_records(
        count,
        |r| series_absent(day, &batch.record(r)),
        |r| Check::Positions(PositionFault::SeriesAbsent, r),
    )?;
    check_records(
        count,
        |r| exercised_non_option(day, &batch.record(r)),
        |r| Check::Positions(PositionFault::ExercisedNonOption, r),
    )?;
    check_records(
        count,
        |r| fail_non_security(day, &batch.record(r)),
        |r| Check::Positions(PositionFault::FailNonSecurity, r),
    )?;
    check_records(
        count,
        |r| dvp_non_security(day, &batch.record(r)),
        |r| Check::Positions(PositionFault::DvpNonSecurity, r),
    )
}
