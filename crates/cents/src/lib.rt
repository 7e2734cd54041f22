// The calls over words that convert a batch to cents and from cents: its DVP amounts, and the bit of its header that tells the edition.
#![tactic(auto)]

ghost use Rattle.std.specs.Prelude.{◌≡◌, ◌≤◌, ◌<◌, ◌^◌, nat_abs, length};
ghost use Rattle.numbers.specs.Put.{put};
ghost use Rattle.model.specs.declared.Check.TheVariants.{BatchWords};
ghost use Rattle.model.specs.declared.BatchWordsFault.TheVariants.{NotWholeCents, CentsTooLarge};
ghost use Rattle.model.specs.Rows.{record_row};
ghost use Rattle.model.specs.Batch.{batch_words};
ghost use Rattle.model.specs.Calls.{room_answer, written};
ghost use Rattle.model.specs.Cents.{is_in_cents, record_with};
ghost use Rattle.model.specs.CentsChecks.{row33, row34, to_cents_check, from_cents_check};
ghost use Rattle.model.specs.CentsCalls.{to_cents_answer, to_cents_after, from_cents_answer, from_cents_after};
ghost use Rattle.cents.specs.Converted.{amount_in, batch_in, Small};

use batch::{RECORD_WORDS, Record, batch_header, record_count};
use batch_check::{check_form, check_form_of};
use model::{BatchHeaderFault, BatchWordsFault, Check};
use rows::{check_records, check_room};
use words::{bits, high_word, low_word, middle_word, payload};

// What the header's bit 28 counts: it is set where the amounts are in cents.
const CENTS_BIT: u32 = 268435456;

// A cent, in ten-thousandths of a euro.
const CENT: u32 = 100;

// The largest magnitude of an amount in cents.
const CENTS_LIMIT: u64 = 50000000000000;

// The edition that a batch is converted to: amounts in cents, or in ten-thousandths of a euro.
#[derive(Clone, Copy)]
enum Edition {
    Cents,
    Units,
}

// The header has the bit.
fn is_in_cents(batch: &[u32]) -> bool
    ensures { result ≡ is_in_cents batch.now }
{
    bits(payload(batch_header(batch)), 28, 1) == 1
}

// Row 33: the amount is no whole number of cents.
#[tactic(auto, unfolding(model::specs::CentsChecks::row33))]
fn not_whole_cents(r: &Record) -> bool
    ensures { result ≡ row33 r.now.batch.now r.now.index }
{
    0 < r.dvp_size() % u64::from(CENT)
}

// Row 34: the amount in cents is above its limit.
#[tactic(auto, unfolding(model::specs::CentsChecks::row34))]
fn cents_too_large(r: &Record) -> bool
    ensures { result ≡ row34 r.now.batch.now r.now.index }
{
    CENTS_LIMIT < r.dvp_size()
}

// The two rows over so many records.
fn check_whole_cents(batch: &[u32], count: usize) -> Result<(), Check>
    requires { batch_words count ≤ length batch.now }
    ensures { result ≡ record_row (BatchWords NotWholeCents) (row33 batch.now) count }
{
    check_records(
        count,
        |r| not_whole_cents(&Record::new(batch, r)),
        |r| Check::BatchWords(BatchWordsFault::NotWholeCents, r),
    )
}

fn check_cents_limit(batch: &[u32], count: usize) -> Result<(), Check>
    requires { batch_words count ≤ length batch.now }
    ensures { result ≡ record_row (BatchWords CentsTooLarge) (row34 batch.now) count }
{
    check_records(
        count,
        |r| cents_too_large(&Record::new(batch, r)),
        |r| Check::BatchWords(BatchWordsFault::CentsTooLarge, r),
    )
}

// Rows 20 to 33 of a batch to convert to cents.
#[tactic(auto, using(model::proofs::Verdicts::verdicts, model::proofs::Limits::form_length), unfolding(model::specs::CentsChecks::to_cents_check))]
fn check_to_cents(batch: &[u32]) -> Result<(), Check>
    ensures { result ≡ to_cents_check batch.now }
{
    check_form(batch)?;
    check_whole_cents(batch, record_count(batch))
}

// Rows 20 to 34 of a batch to convert from cents.
fn check_from_cents(batch: &[u32]) -> Result<(), Check>
    ensures { result ≡ from_cents_check batch.now }
{
    if !is_in_cents(batch) {
        return Err(Check::BatchHeader(BatchHeaderFault::BadBatchHeader, 0));
    }
    let header = batch_header(batch) - CENTS_BIT;
    check_form_of(batch, header)?;
    check_cents_limit(batch, payload(header) as usize)
}

// An amount in another edition.
fn amount_in(edition: Edition, z: i64) -> i64
    requires { nat_abs (amount_in edition z) < 2 ^ 63 }
    ensures { result ≡ amount_in edition z }
{
    match edition {
        Edition::Cents => z / i64::from(CENT),
        Edition::Units => z * i64::from(CENT),
    }
}

// The words of a record with this amount in place of its own.
fn record_with(r: &Record, z: i64) -> [u32; RECORD_WORDS]
    requires { nat_abs z < 2 ^ 63 }
    ensures { result ≡ record_with r.now.batch.now r.now.index z }
{
    [
        r.word(0),
        r.word(1),
        r.word(2),
        high_word(z),
        middle_word(z),
        low_word(z),
    ]
}

// A header and so many records of the batch with amounts in another edition, over the front of a memory.
fn write_converted(edition: Edition, batch: &[u32], header: u32, count: usize, out: &mut [u32])
    requires whole { batch_words count ≤ length batch.now }
    requires amounts { Small edition batch.now count }
    requires room { batch_words count ≤ length out.old }
    ensures { out.new ≡ put 0 (batch_in edition batch.now header count) out.old }
{
    out[0] = header;
    for i in 0..count {
        let record = Record::new(batch, i);
        let at = 1 + RECORD_WORDS * i;
        let amount = amount_in(edition, record.dvp_amount());
        out[at..at + RECORD_WORDS].copy_from_slice(&record_with(&record, amount));
    }
}

// Row 40, or the batch converted, all of its records behind this header: its length.
fn write_in_room(
    edition: Edition,
    batch: &[u32],
    header: u32,
    count: usize,
    memory: &mut [u32],
) -> Result<usize, Check>
    requires whole { length batch.now ≡ batch_words count }
    requires amounts { Small edition batch.now count }
    ensures value { result ≡ room_answer (length (batch_in edition batch.now header count)) (length memory.old) }
    ensures memory_after { memory.new ≡ written result (batch_in edition batch.now header count) memory.old }
{
    let needed = check_room(batch.len(), memory.len())?;
    write_converted(edition, batch, header, count, memory);
    Ok(needed)
}

// A batch in cents: its length, or the check that refused.
pub fn to_cents(batch: &[u32], memory: &mut [u32]) -> Result<usize, Check>
    ensures result { result ≡ to_cents_answer batch.now (length memory.old) }
    ensures memory { memory.new ≡ to_cents_after batch.now memory.old }
{
    check_to_cents(batch)?;
    write_in_room(
        Edition::Cents,
        batch,
        batch_header(batch) + CENTS_BIT,
        record_count(batch),
        memory,
    )
}

// A batch in cents brought back: its length, or the check that refused.
pub fn from_cents(batch: &[u32], memory: &mut [u32]) -> Result<usize, Check>
    ensures result { result ≡ from_cents_answer batch.now (length memory.old) }
    ensures memory { memory.new ≡ from_cents_after batch.now memory.old }
{
    check_from_cents(batch)?;
    let header = batch_header(batch) - CENTS_BIT;
    write_in_room(
        Edition::Units,
        batch,
        header,
        payload(header) as usize,
        memory,
    )
}
