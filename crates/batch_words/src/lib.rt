// Rows 22, 27 and 28: the words of a batch, in one pass for all three; from its first bad record each row is tried over all words before the next.
#![tactic(auto)]

ghost use Rattle.std.specs.Prelude.{◌≡◌, ◌+◌, ◌≤◌, ◌<◌, None, length};
ghost use Rattle.numbers.specs.Scan.{first_bad};
ghost use Rattle.model.specs.Batch.{record_words, batch_words};
ghost use Rattle.model.specs.BatchChecks.{dvp_out_of_range, dvp_minus_zero, wrong_kind, out_of_range, minus_zero, row_of, fault_of, word_row, words_check, word_check};
ghost use Rattle.record_words.specs.BadRecord.{bad_record};

use batch::{RECORD_WORDS, Record, WholeBatch};
use model::{BatchWordsFault, Check, WordRow};
use record_words::{DVP_AMOUNT_LIMIT, first_bad_record, record_kind, record_limit};
use words::{bits, has_kind, negative, payload};

// Row 22 of word j of a record.
#[tactic(auto, unfolding(model::specs::BatchChecks::wrong_kind))]
fn wrong_kind(r: &Record, j: usize) -> bool
    requires { j < record_words }
    ensures { result ≡ wrong_kind r.now.batch.now r.now.index j }
{
    !has_kind(r.word(j), record_kind(j))
}

// The DVP amount has a spare bit or is too large.
#[tactic(auto, unfolding(model::specs::BatchChecks::dvp_out_of_range))]
fn dvp_out_of_range(r: &Record) -> bool
    ensures { result ≡ dvp_out_of_range r.now.batch.now r.now.index }
{
    0 < bits(payload(r.word(3)), 5, 23) || DVP_AMOUNT_LIMIT < r.dvp_size()
}

// Row 27: its payload, and at its first word the DVP amount.
#[tactic(auto, unfolding(model::specs::BatchChecks::out_of_range))]
fn out_of_range(r: &Record, j: usize) -> bool
    requires { j < record_words }
    ensures { result ≡ out_of_range r.now.batch.now r.now.index j }
{
    record_limit(j) < payload(r.word(j)) || (j == 3 && dvp_out_of_range(r))
}

// The DVP amount is minus zero.
#[tactic(auto, unfolding(model::specs::BatchChecks::dvp_minus_zero))]
fn dvp_minus_zero(r: &Record) -> bool
    ensures { result ≡ dvp_minus_zero r.now.batch.now r.now.index }
{
    negative(r.word(3)) && r.dvp_size() == 0
}

// Row 28: at its first word the DVP amount.
#[tactic(auto, unfolding(model::specs::BatchChecks::minus_zero))]
fn minus_zero(r: &Record, j: usize) -> bool
    requires { j < record_words }
    ensures { result ≡ minus_zero r.now.batch.now r.now.index j }
{
    j == 3 && dvp_minus_zero(r)
}

// The test of that row. With tests handed on as closures three functions asked two clauses more.
fn has_fault(row: WordRow, r: &Record, j: usize) -> bool
    requires { j < record_words }
    ensures { result ≡ row_of row r.now.batch.now (batch_words r.now.index + j) }
{
    match row {
        WordRow::Row22 => wrong_kind(r, j),
        WordRow::Row27 => out_of_range(r, j),
        WordRow::Row28 => minus_zero(r, j),
    }
}

// Its reason.
fn fault_of(row: WordRow) -> BatchWordsFault
    ensures { result ≡ fault_of row }
{
    match row {
        WordRow::Row22 => BatchWordsFault::WrongKind,
        WordRow::Row27 => BatchWordsFault::OutOfRange,
        WordRow::Row28 => BatchWordsFault::MinusZero,
    }
}

// The first word of a record that it refuses, by its place there.
fn first_in_record(row: WordRow, r: &Record) -> Option<usize>
    ensures { result ≡ first_bad (λ j. row_of row r.now.batch.now (batch_words r.now.index + j)) record_words }
{
    (0..RECORD_WORDS).find(|&j| has_fault(row, r, j))
}

// The first word of so many records that it refuses, by its index in the batch; none of those before record `from`.
#[tactic(auto, using(crate::specs::Scan::records, crate::specs::Scan::in_record))]
fn first_in_batch(row: WordRow, batch: &[u32], count: usize, from: usize) -> Option<usize>
    requires count_bound { batch_words count ≤ length batch.now }
    requires from_bound { from ≤ count }
    requires from_value { first_bad (row_of row batch.now) (batch_words from) ≡ None }
    ensures { result ≡ first_bad (row_of row batch.now) (batch_words count) }
{
    for r in from..count {
        if let Some(j) = first_in_record(row, &Record::new(batch, r)) {
            return Some(1 + RECORD_WORDS * r + j);
        }
    }
    None
}

// The row over all words of so many records.
fn check_word_row(row: WordRow, batch: &[u32], count: usize, from: usize) -> Result<(), Check>
    requires count_bound { batch_words count ≤ length batch.now }
    requires from_bound { from ≤ count }
    requires from_value { first_bad (row_of row batch.now) (batch_words from) ≡ None }
    ensures { result ≡ word_row row batch.now count }
{
    let found = first_in_batch(row, batch, count, from);
    rows::check_row(found, |i| Check::BatchWords(fault_of(row), i))
}

// The three rows, where no record before `from` is bad.
#[tactic(auto, using(model::proofs::Verdicts::verdicts))]
fn check_rows(batch: &[u32], count: usize, from: usize) -> Result<(), Check>
    requires count_bound { batch_words count ≤ length batch.now }
    requires from_bound { from ≤ count }
    requires from_value { first_bad (bad_record batch.now) from ≡ None }
    ensures { result ≡ words_check batch.now count }
{
    check_word_row(WordRow::Row22, batch, count, from)?;
    check_word_row(WordRow::Row27, batch, count, from)?;
    check_word_row(WordRow::Row28, batch, count, from)
}

// The same by one pass over the records: the rows are tried from the first bad one on.
pub fn check_records(batch: &[u32], count: usize) -> Result<(), Check>
    requires { batch_words count ≤ length batch.now }
    ensures { result ≡ words_check batch.now count }
{
    match first_bad_record(batch, count) {
        Some(r) => check_rows(batch, count, r),
        None => Ok(()),
    }
}

// The three rows of a batch, by its own count.
#[tactic(auto, unfolding(model::specs::BatchChecks::word_check))]
pub fn check_words(batch: &WholeBatch<'_>) -> Result<(), Check>
    ensures { result ≡ word_check batch.now.words.now }
{
    check_records(batch.words, batch.record_count())
}
