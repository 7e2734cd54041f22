// Rows 50 and 51: the deposits.
#![tactic(auto)]

ghost use Rattle.std.specs.Prelude.{◌≡◌, ◌<◌, Some};
ghost use Rattle.numbers.specs.Distinct.{again};
ghost use Rattle.numbers.specs.Scan.{first_bad};
ghost use Rattle.model.specs.DayFile.{class_count, series_count};
ghost use Rattle.model.specs.Deposits.{named_number};
ghost use Rattle.model.specs.DepositChecks.{odd_words, row50, unlike as unlike_of, row51, deposit_check};
ghost use Rattle.model.specs.Steps.Cover.{coverable_of};
ghost use Rattle.deposit_check.specs.Unlike.{differing};

use classes::day::CheckedDay;
use deposits::{DEPOSIT_WORDS, Deposit, deposit_count};
use model::{Check, NettingFault};
use rows::check_records;

// The most shares of a deposit.
const SHARES_LIMIT: u32 = 10000000;

// The words are not whole deposits.
#[tactic(auto, unfolding(model::specs::DepositChecks::odd_words))]
fn odd_words(deposits: &[u32]) -> bool
    ensures { result ≡ odd_words deposits.now }
{
    0 < deposits.len() % DEPOSIT_WORDS
}

// An earlier deposit names the same class.
fn named_before(deposit: &Deposit) -> bool
    ensures { result ≡ again (named_number deposit.now.deposits.now) deposit.now.index }
{
    let n = deposit.number();
    (0..deposit.index).any(|j| Deposit::new(deposit.deposits, j).number() == n)
}

// Row 50 at a deposit.
#[tactic(auto, unfolding(model::specs::DepositChecks::row50))]
fn bad_deposit(day: &CheckedDay<'_>, deposit: &Deposit) -> bool
    ensures { result ≡ row50 day.now.words.now deposit.now.deposits.now deposit.now.index }
{
    day.class_with(deposit.number()).is_none()
        || named_before(deposit)
        || SHARES_LIMIT < deposit.shares()
}

// The first of the series of class c that deposits cover. A day and a place: a view of both would hold the same bound on the place.
fn first_coverable(day: &CheckedDay<'_>, c: usize) -> Option<usize>
    requires { c < class_count day.now.words.now }
    ensures { result ≡ first_bad (coverable_of day.now.words.now c) (series_count day.now.words.now) }
{
    day.series_of(c).find(|&s| day.series(s).is_coverable())
}

// Deposits cover series s, and it has another multiplier than series `first`.
fn differs(day: &CheckedDay<'_>, first: usize, s: usize) -> bool
    requires { (first < series_count day.now.words.now) × (s < series_count day.now.words.now) }
    ensures { result ≡ differing day.now.words.now first s }
{
    let series = day.series(s);
    series.is_coverable() && day.series(first).multiplier() != series.multiplier()
}

// One of the series of class c that deposits cover has another multiplier than the first of them.
fn any_differs(day: &CheckedDay<'_>, c: usize, first: usize) -> bool
    requires c_bound { c < class_count day.now.words.now }
    requires first_value { first_bad (coverable_of day.now.words.now c) (series_count day.now.words.now) ≡ Some first }
    ensures { result ≡ unlike_of day.now.words.now c }
{
    (first..day.series_of(c).end).any(|s| differs(day, first, s))
}

// The series of class c that deposits cover have unlike multipliers. No `is_some_and`: its contract says nothing of what the closure gives.
fn unlike(day: &CheckedDay<'_>, c: usize) -> bool
    requires { c < class_count day.now.words.now }
    ensures { result ≡ unlike_of day.now.words.now c }
{
    match first_coverable(day, c) {
        Some(first) => any_differs(day, c, first),
        None => false,
    }
}

// Row 51 at a deposit.
fn unlike_class(day: &CheckedDay<'_>, deposit: &Deposit) -> bool
    ensures { result ≡ row51 day.now.words.now deposit.now.deposits.now deposit.now.index }
{
    match day.class_with(deposit.number()) {
        Some(c) => unlike(day, c),
        None => false,
    }
}

// Rows 50 and 51.
#[tactic(auto, using(model::proofs::Verdicts::verdicts), unfolding(model::specs::DepositChecks::deposit_check))]
pub fn check_deposits(day: &CheckedDay<'_>, deposits: &[u32]) -> Result<(), Check>
    ensures { result ≡ deposit_check day.now.words.now deposits.now }
{
    if odd_words(deposits) {
        return Err(Check::Netting(NettingFault::BadDeposit, 0));
    }
    let count = deposit_count(deposits);
    check_records(
        count,
        |i| bad_deposit(day, &Deposit::new(deposits, i)),
        |i| Check::Netting(NettingFault::BadDeposit, i),
    )?;
    check_records(
        count,
        |i| unlike_class(day, &Deposit::new(deposits, i)),
        |i| Check::Netting(NettingFault::UnlikeMultipliers, i),
    )
}
