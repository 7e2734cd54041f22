// What an account's answer says: the words that it wrote, and its two numbers in the result list.
#![tactic(auto)]

ghost use Rattle.std.specs.Prelude.{◌≡◌, ◌+◌, ◌*◌, ◌^◌, ◌≤◌, ◌<◌, length};
ghost use Rattle.numbers.specs.Put.{put};
ghost use Rattle.model.specs.Answers.{value_of};
ghost use Rattle.model.specs.Limits.{most_accounts};
ghost use Rattle.model.specs.ManyAccounts.{result_numbers, words_in, pair_of};

use accounts_check::RESULT_NUMBERS;
use model::Check;

// The words that an answer wrote: a refusal none.
pub fn words_in(answer: Result<usize, Check>) -> usize
    ensures { result ≡ words_in answer }
{
    answer.unwrap_or(0)
}

// The two numbers of account i.
pub fn write_pair(results: &mut [u32], i: usize, answer: Result<usize, Check>)
    requires i_lt_most_accounts { (i < most_accounts) × (result_numbers * i + result_numbers ≤ length results.old) }
    requires answer_bound { value_of answer < 2 ^ 32 }
    ensures { results.new ≡ put (result_numbers * i) (pair_of answer) results.old }
{
    let at = RESULT_NUMBERS * i;
    let pair = [answers::status(answer), answers::value(answer) as u32];
    results[at..at + RESULT_NUMBERS].copy_from_slice(&pair);
}
