// Row 31: a position whose DVP amounts sum to more than a record can hold.
#![tactic(auto)]

ghost use Rattle.std.specs.Prelude.{◌≡◌, ◌<◌, ltb, nat_abs};
ghost use Rattle.numbers.specs.Table.{tabulate};
ghost use Rattle.model.specs.Limits.{dvp_amount_limit};
ghost use Rattle.model.specs.Batch.{record_count};
ghost use Rattle.model.specs.Netting.{dvp as dvp_of, position_count};
ghost use Rattle.model.specs.RewritingChecks.{row31, dvp_check};

use model::{Check, NettingFault};
use netting::LimitedBatch;
use record_words::DVP_AMOUNT_LIMIT;
use rows::check_records;

// A DVP is above the limit of a record.
pub fn dvp_too_large(dvp: i64) -> bool
    ensures { result ≡ ltb dvp_amount_limit (nat_abs dvp) }
{
    DVP_AMOUNT_LIMIT < dvp.unsigned_abs()
}

// Row 31 at record r: the summed DVP of its position.
fn too_large(batch: &LimitedBatch<'_>, dvps: &[i64], r: usize) -> bool
    requires dvps_value { dvps.now ≡ tabulate position_count (dvp_of batch.now.words.now) }
    requires r_bound { r < record_count batch.now.words.now }
    ensures { result ≡ row31 batch.now.words.now r }
{
    let k = batch.record(r).key();
    dvp_too_large(dvps[k])
}

// Row 31.
#[tactic(auto, unfolding(model::specs::RewritingChecks::dvp_check))]
pub fn check_dvps(batch: &LimitedBatch<'_>, dvps: &[i64]) -> Result<(), Check>
    requires dvps_value { dvps.now ≡ tabulate position_count (dvp_of batch.now.words.now) }
    ensures { result ≡ dvp_check batch.now.words.now }
{
    check_records(
        batch.record_count(),
        |r| too_large(batch, dvps, r),
        |r| Check::Netting(NettingFault::DvpTooLarge, r),
    )
}
