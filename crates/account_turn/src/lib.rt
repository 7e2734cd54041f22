// One account of many, of a day file that was checked once: its report at the front of the memory still left, its two numbers in the
// result list.
#![tactic(auto)]

ghost use Rattle.std.specs.Prelude.{◌≡◌, [], ◌+◌, ◌*◌, ◌^◌, ◌≤◌, ◌<◌, length};
ghost use Rattle.numbers.specs.Put.{put};
ghost use Rattle.model.specs.Answers.{value_of};
ghost use Rattle.model.specs.Calls.{answer as answer_to, memory_after};
ghost use Rattle.model.specs.Limits.{most_accounts};
ghost use Rattle.model.specs.ManyAccounts.{result_numbers, pair_of};

use account_results::write_pair;
use day::DayOutcome;
use model::Check;
use report::report_of_day;

pub mod day;

// The answer to one account, without deposits, whose value fits a word: the day file's refusal, or rows 20 to 40.
fn account(day: &DayOutcome<'_>, batch: &[u32], memory: &mut [u32]) -> Result<usize, Check>
    ensures value { (result ≡ answer_to day.now.words.now batch.now [] (length memory.old)) × (value_of result < 2 ^ 32) }
    ensures memory_after { memory.new ≡ memory_after day.now.words.now batch.now [] memory.old }
{
    match &day.checked {
        Ok(day) => report_of_day(day, batch, &[], memory),
        Err(check) => Err(*check),
    }
}

// Account i, in its turn: its answer.
pub fn turn(
    day: &DayOutcome<'_>,
    batch: &[u32],
    i: usize,
    results: &mut [u32],
    memory: &mut [u32],
) -> Result<usize, Check>
    requires { (i < most_accounts) × (result_numbers * i + result_numbers ≤ length results.old) }
    ensures { (result ≡ answer_to day.now.words.now batch.now [] (length memory.old)) × (results.new ≡ put (result_numbers * i) (pair_of result) results.old) × (memory.new ≡ memory_after day.now.words.now batch.now [] memory.old) }
{
    let answer = account(day, batch, memory);
    write_pair(results, i, answer);
    answer
}
