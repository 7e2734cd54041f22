// All accounts of a broker in one call: the day file is checked once, the reports are written end to end.
#![tactic(auto)]

ghost use Rattle.std.specs.Prelude.{◌≡◌, length};
ghost use Rattle.model.specs.ManyAccounts.{batch_of, report_start, memory_to, results_to, reports_answer, results_after, reports_after};
ghost use Rattle.model.proofs.ManyAccounts.{AccountsRows};

use account_results::words_in;
use account_turn::day::DayOutcome;
use account_turn::turn;
use accounts_check::check_accounts;
use model::Check;

// All accounts in turn, past rows 60 and 61; the words written.
fn report_all(
    day: &DayOutcome<'_>,
    batches: &[u32],
    lengths: &[u32],
    results: &mut [u32],
    memory: &mut [u32],
) -> usize
    requires { AccountsRows batches.now lengths.now (length results.old) }
    ensures value { result ≡ report_start day.now.words.now (batch_of batches.now lengths.now) (length memory.old) (length lengths.now) }
    ensures results_after { results.new ≡ results_to day.now.words.now (batch_of batches.now lengths.now) (length memory.old) results.old (length lengths.now) }
    ensures memory_after { memory.new ≡ memory_to day.now.words.now (batch_of batches.now lengths.now) memory.old (length lengths.now) }
{
    let mut at: usize = 0;
    let mut from: usize = 0;
    for i in 0..lengths.len() {
        let n = lengths[i] as usize;
        let answer = turn(day, &batches[from..from + n], i, results, &mut memory[at..]);
        at += words_in(answer);
        from += n;
    }
    at
}

// The reports of all accounts, one behind the other: the words written in all, or row 60 or 61.
pub fn reports(
    day: &[u32],
    batches: &[u32],
    lengths: &[u32],
    results: &mut [u32],
    memory: &mut [u32],
) -> Result<usize, Check>
    ensures result { result ≡ reports_answer day.now batches.now lengths.now (length results.old) (length memory.old) }
    ensures results { results.new ≡ results_after day.now batches.now lengths.now results.old (length memory.old) }
    ensures memory { memory.new ≡ reports_after day.now batches.now lengths.now (length results.old) memory.old }
{
    check_accounts(batches, lengths, results.len())?;
    let day = DayOutcome::new(day);
    Ok(report_all(&day, batches, lengths, results, memory))
}
