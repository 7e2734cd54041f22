// The checks of a batch: rows 20 to 28; the lowest row that refuses it decides.
#![tactic(auto)]

ghost use Rattle.std.specs.Prelude.{◌≡◌};
ghost use Rattle.model.specs.Batch.{headed};
ghost use Rattle.model.specs.BatchChecks.{row20, row21, batch_form, batch_check};

use batch::{MOST_RECORDS, RECORD_WORDS, WholeBatch, batch_header};
use batch_positions::check_positions;
use batch_words::check_records;
use model::{BatchHeaderFault, BatchLengthFault, Check};
use words::{Kind, has_kind, payload};

// Row 20 of a batch with this header in place of its own: no words, wrong kind, P too large.
#[tactic(auto, unfolding(model::specs::BatchChecks::row20))]
fn bad_header_of(batch: &[u32], header: u32) -> bool
    ensures { result ≡ row20 (headed header batch.now) }
{
    batch.is_empty() || !has_kind(header, Kind::Header) || MOST_RECORDS < payload(header) as usize
}

// Row 21 of it: the length is not that of so many records.
#[tactic(auto, unfolding(model::specs::BatchChecks::row21))]
fn bad_length_of(batch: &[u32], header: u32) -> bool
    ensures { result ≡ row21 (headed header batch.now) }
{
    batch.len() != 1 + RECORD_WORDS * payload(header) as usize
}

// The same of the batch as it is.
pub fn bad_header(batch: &[u32]) -> bool
    ensures { result ≡ row20 batch.now }
{
    bad_header_of(batch, batch_header(batch))
}

pub fn bad_length(batch: &[u32]) -> bool
    ensures { result ≡ row21 batch.now }
{
    bad_length_of(batch, batch_header(batch))
}

// Rows 20 and 21 and those of the words, which need no day file, of a batch with this header in place of its own.
#[tactic(auto, using(model::proofs::Verdicts::verdicts, model::proofs::Verdicts::equal_of), unfolding(model::specs::BatchChecks::batch_form, model::specs::BatchChecks::row21))]
pub fn check_form_of(batch: &[u32], header: u32) -> Result<(), Check>
    ensures { result ≡ batch_form (headed header batch.now) }
{
    if bad_header_of(batch, header) {
        return Err(Check::BatchHeader(BatchHeaderFault::BadBatchHeader, 0));
    }
    if bad_length_of(batch, header) {
        return Err(Check::BatchLength(BatchLengthFault::BadBatchLength, 0));
    }
    check_records(batch, payload(header) as usize)
}

// Those of the batch as it is.
pub fn check_form(batch: &[u32]) -> Result<(), Check>
    ensures { result ≡ batch_form batch.now }
{
    check_form_of(batch, batch_header(batch))
}

// The first check that refuses the batch, for any words of it and of the day file.
#[tactic(auto, using(model::proofs::Verdicts::verdicts, model::proofs::Limits::form_length), unfolding(model::specs::BatchChecks::batch_check))]
pub fn check_batch(day: &[u32], batch: &[u32]) -> Result<(), Check>
    ensures { result ≡ batch_check day.now batch.now }
{
    check_form(batch)?;
    check_positions(day, &WholeBatch { words: batch })
}
