// The deposits' fields.
#![tactic(auto)]

ghost use Rattle.std.specs.Prelude.{◌≡◌, ◌<◌};
ghost use Rattle.model.specs.Deposits.{deposit_count, named_number, shares as shares_of};

// The words of a deposit.
pub const DEPOSIT_WORDS: usize = 2;

// The whole deposits of a list.
pub fn deposit_count(deposits: &[u32]) -> usize
    ensures { result ≡ deposit_count deposits.now }
{
    deposits.len() / DEPOSIT_WORDS
}

// A deposit, whose words are there: a view as those of day_file and batch, with another list, fact and unit.
#[derive(Clone, Copy)]
pub struct Deposit<'a> {
    pub deposits: &'a [u32],
    pub index: usize,
    pub ghost inside: { index < deposit_count deposits.now },
}

impl<'a> Deposit<'a> {
    // The deposit at an index of a list.
    pub fn new(deposits: &'a [u32], index: usize) -> Self
        requires { index < deposit_count deposits.now }
        ensures { (result.deposits.now ≡ deposits.now) × (result.index ≡ index) }
    {
        Deposit { deposits, index }
    }

    // The class number that it names.
    pub fn number(&self) -> usize
        ensures { result ≡ named_number self.now.deposits.now self.now.index }
    {
        self.deposits[DEPOSIT_WORDS * self.index] as usize
    }

    // Its number of shares.
    pub fn shares(&self) -> u32
        ensures { result ≡ shares_of self.now.deposits.now self.now.index }
    {
        self.deposits[DEPOSIT_WORDS * self.index + 1]
    }
}
