// Rows 60 and 61, before every other: the list of lengths and the room for the results.
#![tactic(auto)]

ghost use Rattle.std.specs.Prelude.{◌≡◌, ◌≤◌, length};
ghost use Rattle.model.specs.Limits.{most_accounts};
ghost use Rattle.model.specs.ManyAccounts.{words_before, row60, row61, accounts_check};

use model::{AccountsFault, Check};

// The accounts of one call.
const MOST_ACCOUNTS: usize = 64;

// The numbers of an account in the result list.
pub const RESULT_NUMBERS: usize = 2;

// The words of all accounts.
fn sum(lengths: &[u32]) -> usize
    requires { length lengths.now ≤ most_accounts }
    ensures { result ≡ words_before lengths.now (length lengths.now) }
{
    lengths.iter().map(|n| *n as usize).sum()
}

// Row 60: too many accounts, or lengths that do not add up to the words given.
fn bad_lengths(batches: &[u32], lengths: &[u32]) -> bool
    ensures { result ≡ row60 batches.now lengths.now }
{
    MOST_ACCOUNTS < lengths.len() || sum(lengths) != batches.len()
}

// Row 61: a result list too short for its accounts.
fn short_results(lengths: &[u32], entries: usize) -> bool
    ensures { result ≡ row61 lengths.now entries }
{
    entries < RESULT_NUMBERS * lengths.len()
}

// Both rows, where the result list has this many entries.
pub fn check_accounts(batches: &[u32], lengths: &[u32], entries: usize) -> Result<(), Check>
    ensures { result ≡ accounts_check batches.now lengths.now entries }
{
    if bad_lengths(batches, lengths) {
        return Err(Check::Accounts(AccountsFault::BadLengths, 0));
    }
    if short_results(lengths, entries) {
        return Err(Check::Accounts(AccountsFault::ShortResults, 0));
    }
    Ok(())
}
