// A row over records, words or deposits, by the first of them that it found; and row 40.
#![tactic(auto)]

ghost use Rattle.std.specs.Prelude.{◌≡◌, ℕ, ◌<◌, Bool};
ghost use Rattle.model.specs.declared.Check.{Check as CheckOf};
ghost use Rattle.model.specs.Calls.{room_answer};
ghost use Rattle.model.specs.Rows.{found_row, record_row};

use model::{Check, ReportFault};

// Refused at that place, by the check that `refusal` makes of it; passed where none was found.
pub fn check_row<F: Fn(usize) -> Check>(found: Option<usize>, refusal: F) -> Result<(), Check>
    requires { F.IsAlwaysCallable refusal }
    ensures { (k : ℕ → CheckOf) → ((i : ℕ) (c : CheckOf) → F.post refusal i c → c ≡ k i) → result ≡ found_row k found }
{
    match found {
        Some(i) => Err(refusal(i)),
        None => Ok(()),
    }
}

// The row over so many records, refused at the first where its test holds.
pub fn check_records<T: Fn(usize) -> bool, F: Fn(usize) -> Check>(
    count: usize,
    test: T,
    refusal: F,
) -> Result<(), Check>
    requires can_test { (i : ℕ) → i < count → T.pre test i }
    requires can_refuse { F.IsAlwaysCallable refusal }
    ensures { (k : ℕ → CheckOf) (t : ℕ → Bool) → ((i : ℕ) (c : CheckOf) → F.post refusal i c → c ≡ k i) → ((i : ℕ) (v : Bool) → T.post test i v → v ≡ t i) → result ≡ record_row k t count }
{
    let found = (0..count).find(
        |&i|
            requires { T.pre test i }
        { test(i) },
    );
    check_row(found, refusal)
}

// Row 40: a memory with room for so many words is shorter than what is to be written. Else how many words that is.
pub fn check_room(needed: usize, room: usize) -> Result<usize, Check>
    ensures { result ≡ room_answer needed room }
{
    if room < needed {
        return Err(Check::Report(ReportFault::TooShort, needed));
    }
    Ok(needed)
}
