// The C entries, as host/mars.h declares them: each is the library's function, under the same clauses.
#![tactic(auto)]

ghost use Rattle.std.specs.Prelude.{◌≡◌, ◌+◌, ◌*◌, ◌^◌, length};
ghost use Rattle.model.specs.Answers.{packed};
ghost use Rattle.model.specs.Bytes.{byte_answer, bytes_after};
ghost use Rattle.model.specs.Calls.{answer, memory_after};
ghost use Rattle.model.specs.ManyAccounts.{reports_answer, results_after, reports_after};
ghost use Rattle.model.specs.RewritingCalls.{rewrite_answer, rewrite_after, add_answer, add_after};
ghost use Rattle.model.specs.WorstMoment.{worst_answer, value_0, part_after};
ghost use Rattle.model.specs.CentsCalls.{to_cents_answer, to_cents_after, from_cents_answer, from_cents_after};
ghost use Rattle.model.specs.TextReading.{text_says, text_number, text_value, total_after};

// Number × 2^32 + value: 0 and the report's length in words, or the refusal's number and place.
#[unsafe(no_mangle)]
pub extern "C" fn mars_report(day: &[u8], batch: &[u8], report: &mut [u8]) -> u64
    ensures result { result ≡ packed (byte_answer day.now batch.now (length report.old)) }
    ensures report { report.new ≡ bytes_after day.now batch.now report.old }
{
    mars::mars_report(day, batch, report)
}

// The same of files of words, with deposits.
#[unsafe(no_mangle)]
pub extern "C" fn mars_report_words(
    day: &[u32],
    batch: &[u32],
    deposits: &[u32],
    report: &mut [u32],
) -> u64
    ensures result { result ≡ packed (answer day.now batch.now deposits.now (length report.old)) }
    ensures report { report.new ≡ memory_after day.now batch.now deposits.now report.old }
{
    mars::mars_report_words(day, batch, deposits, report)
}

// The same of all accounts of a broker: 0 and the words written in all, or the number and place of row 60 or 61.
#[unsafe(no_mangle)]
pub extern "C" fn mars_reports(
    day: &[u32],
    batches: &[u32],
    lengths: &[u32],
    results: &mut [u32],
    report: &mut [u32],
) -> u64
    ensures result { result ≡ packed (reports_answer day.now batches.now lengths.now (length results.old) (length report.old)) }
    ensures results { results.new ≡ results_after day.now batches.now lengths.now results.old (length report.old) }
    ensures report { report.new ≡ reports_after day.now batches.now lengths.now (length results.old) report.old }
{
    mars::mars_reports(day, batches, lengths, results, report)
}

// The same of a batch rewritten with one record for each position held: 0 and its length, or the refusal's number and place.
#[unsafe(no_mangle)]
pub extern "C" fn mars_rewrite(day: &[u32], batch: &[u32], out: &mut [u32]) -> u64
    ensures result { result ≡ packed (rewrite_answer day.now batch.now (length out.old)) }
    ensures out { out.new ≡ rewrite_after day.now batch.now out.old }
{
    mars::mars_rewrite(day, batch, out)
}

// The same of the rewriting of a batch with a record more.
#[unsafe(no_mangle)]
pub extern "C" fn mars_add_record(
    day: &[u32],
    batch: &[u32],
    record: &[u32],
    out: &mut [u32],
) -> u64
    ensures result { result ≡ packed (add_answer day.now batch.now «record».now (length out.old)) }
    ensures out { out.new ≡ add_after day.now batch.now «record».now out.old }
{
    mars::mars_add_record(day, batch, record, out)
}

// Number × 2^32 + value: 0 and 0, and the moment's numbers are stored; or the refusal's number and place.
#[unsafe(no_mangle)]
pub extern "C" fn mars_worst_moment(
    day: &[u32],
    batch: &[u32],
    trades: &[u32],
    margin: &mut i64,
    step: &mut u32,
    applied: &mut u32,
    left_out: &mut u32,
) -> u64
    ensures result { result ≡ packed (value_0 (worst_answer day.now batch.now trades.now)) }
    ensures margin { margin.new ≡ part_after (λ m. m.margin) (worst_answer day.now batch.now trades.now) margin.old }
    ensures step { step.new ≡ part_after (λ m. m.step) (worst_answer day.now batch.now trades.now) step.old }
    ensures applied { applied.new ≡ part_after (λ m. m.applied) (worst_answer day.now batch.now trades.now) applied.old }
    ensures left_out { left_out.new ≡ part_after (λ m. m.left_out) (worst_answer day.now batch.now trades.now) left_out.old }
{
    mars::mars_worst_moment(day, batch, trades, margin, step, applied, left_out)
}

// Number × 2^32 + value: 0 and the length of the batch in cents, or the refusal's number and place.
#[unsafe(no_mangle)]
pub extern "C" fn mars_to_cents(batch: &[u32], out: &mut [u32]) -> u64
    ensures result { result ≡ packed (to_cents_answer batch.now (length out.old)) }
    ensures out { out.new ≡ to_cents_after batch.now out.old }
{
    mars::mars_to_cents(batch, out)
}

// The same of a batch in cents brought back.
#[unsafe(no_mangle)]
pub extern "C" fn mars_from_cents(batch: &[u32], out: &mut [u32]) -> u64
    ensures result { result ≡ packed (from_cents_answer batch.now (length out.old)) }
    ensures out { out.new ≡ from_cents_after batch.now out.old }
{
    mars::mars_from_cents(batch, out)
}

// Number × 2^32 + value: 0 and the line count of a printed report, whose totals are stored, a refusal's number and place, or
// 2^32 − 1 and 0.
#[unsafe(no_mangle)]
pub extern "C" fn mars_read_text(
    text: &[u8],
    ordinary: &mut i64,
    fail: &mut i64,
    account: &mut i64,
) -> u64
    ensures result { result ≡ text_number (text_says text.now) * 2 ^ 32 + text_value (text_says text.now) }
    ensures ordinary { ordinary.new ≡ total_after (λ t. t.ordinary) (text_says text.now) ordinary.old }
    ensures fail { fail.new ≡ total_after (λ t. t.fail) (text_says text.now) fail.old }
    ensures account { account.new ≡ total_after (λ t. t.account) (text_says text.now) account.old }
{
    mars::mars_read_text(text, ordinary, fail, account)
}
