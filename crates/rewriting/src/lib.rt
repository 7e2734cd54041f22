// The calls over words that rewrite a batch with one record for each position held: of the batch as it is, and of one with a record added.
#![tactic(auto)]

ghost use Rattle.std.specs.Prelude.{◌≡◌, ◌+◌, ◌≤◌, length};
ghost use Rattle.numbers.specs.Put.{put};
ghost use Rattle.model.specs.Limits.{most_records};
ghost use Rattle.model.specs.Batch.{record_count as count_of, batch_words};
ghost use Rattle.model.specs.Calls.{outcome, written};
ghost use Rattle.model.specs.Rewriting.{rewriting, added};
ghost use Rattle.model.specs.RewritingCalls.{rewrite_answer, rewrite_after, add_answer, add_after};
ghost use Rattle.model.proofs.Added.{Parts};
ghost use Rattle.rewriting.specs.Stages.{lengths_check, added_check};

use batch::{MOST_RECORDS, RECORD_WORDS, WholeBatch, record_count};
use batch_check::{bad_header, bad_length, check_batch};
use batch_positions::check_positions;
use batch_words::check_words;
use checked_rewriting::rewrite_checked;
use classes::day::CheckedDay;
use model::{BatchHeaderFault, BatchLengthFault, Check};
use netting::LimitedBatch;
use report::checked_day;
use words::{Kind, word};

// The most words of a batch with a record added.
const ADDED_WORDS: usize = 1 + RECORD_WORDS * (MOST_RECORDS + 1);

// A batch of a checked day file rewritten: rows 20 to 40.
fn rewrite_of_day(day: &CheckedDay<'_>, batch: &[u32], memory: &mut [u32]) -> Result<usize, Check>
    ensures value { result ≡ rewrite_answer day.now.words.now batch.now (length memory.old) }
    ensures memory_after { memory.new ≡ rewrite_after day.now.words.now batch.now memory.old }
{
    check_batch(day.words, batch)?;
    rewrite_checked(day, &LimitedBatch { words: batch }, memory)
}

// A batch rewritten with one record for each position held: its length, or the check that refused.
pub fn rewrite(day: &[u32], batch: &[u32], memory: &mut [u32]) -> Result<usize, Check>
    ensures result { result ≡ rewrite_answer day.now batch.now (length memory.old) }
    ensures memory { memory.new ≡ rewrite_after day.now batch.now memory.old }
{
    rewrite_of_day(&checked_day(day)?, batch, memory)
}

// Rows 20 and 21 of the batch as given and of the record's length.
#[tactic(auto, using(model::proofs::Verdicts::verdicts), unfolding(model::specs::RewritingChecks::added_row21))]
fn check_lengths(batch: &[u32], record: &[u32]) -> Result<(), Check>
    ensures { result ≡ lengths_check batch.now «record».now }
{
    if bad_header(batch) {
        return Err(Check::BatchHeader(BatchHeaderFault::BadBatchHeader, 0));
    }
    if bad_length(batch) || record.len() != RECORD_WORDS {
        return Err(Check::BatchLength(BatchLengthFault::BadBatchLength, 0));
    }
    Ok(())
}

// The batch with the record as its last, over the front of a memory: its length.
fn write_added(batch: &[u32], record: &[u32], out: &mut [u32]) -> usize
    requires parts { Parts batch.now «record».now }
    requires room { batch_words (most_records + 1) ≤ length out.old }
    ensures value { result ≡ length (added batch.now «record».now) }
    ensures out_after { out.new ≡ put 0 (added batch.now «record».now) out.old }
{
    let n = batch.len();
    out[0] = word(Kind::Header, record_count(batch) as u32 + 1);
    out[1..n].copy_from_slice(&batch[1..]);
    out[n..n + RECORD_WORDS].copy_from_slice(record);
    n + RECORD_WORDS
}

// Rows 22 to 40 of a batch with a record added, or its rewriting.
fn rewrite_added(
    day: &CheckedDay<'_>,
    batch: &WholeBatch<'_>,
    memory: &mut [u32],
) -> Result<usize, Check>
    requires { count_of batch.now.words.now ≤ most_records + 1 }
    ensures value { result ≡ outcome (added_check day.now.words.now batch.now.words.now) (length (rewriting batch.now.words.now)) (length memory.old) }
    ensures memory_after { memory.new ≡ written result (rewriting batch.now.words.now) memory.old }
{
    check_words(batch)?;
    check_positions(day.words, batch)?;
    rewrite_checked(day, &LimitedBatch { words: batch.words }, memory)
}

// A record added to a batch of a checked day file: rows 20 to 40.
fn add_of_day(
    day: &CheckedDay<'_>,
    batch: &[u32],
    record: &[u32],
    memory: &mut [u32],
) -> Result<usize, Check>
    ensures value { result ≡ add_answer day.now.words.now batch.now «record».now (length memory.old) }
    ensures memory_after { memory.new ≡ add_after day.now.words.now batch.now «record».now memory.old }
{
    check_lengths(batch, record)?;
    let mut words = [0u32; ADDED_WORDS];
    let n = write_added(batch, record, &mut words);
    rewrite_added(day, &WholeBatch { words: &words[..n] }, memory)
}

// The rewriting of a batch with the record as its last: its length, or the check that refused.
pub fn add_record(
    day: &[u32],
    batch: &[u32],
    record: &[u32],
    memory: &mut [u32],
) -> Result<usize, Check>
    ensures result { result ≡ add_answer day.now batch.now «record».now (length memory.old) }
    ensures memory { memory.new ≡ add_after day.now batch.now «record».now memory.old }
{
    add_of_day(&checked_day(day)?, batch, record, memory)
}
