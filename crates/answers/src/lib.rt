// The paper's number and place of a refusal, and the two numbers of an answer.
#![tactic(auto)]

ghost use Rattle.std.specs.Prelude.{◌≡◌, ◌^◌, ◌<◌};
ghost use Rattle.model.specs.Answers.{number_of, place_of, status_of, value_of, packed as packed_of};

use model::Check;

// The number of the check's fault.
pub fn number(check: Check) -> u32
    ensures { result ≡ number_of check }
{
    match check {
        Check::Bytes(f, _) => f as u32,
        Check::DayHeader(f, _) => f as u32,
        Check::DayLength(f, _) => f as u32,
        Check::DayWords(f, _) => f as u32,
        Check::Classes(f, _) => f as u32,
        Check::Series(f, _) => f as u32,
        Check::BatchHeader(f, _) => f as u32,
        Check::BatchLength(f, _) => f as u32,
        Check::BatchWords(f, _) => f as u32,
        Check::Positions(f, _) => f as u32,
        Check::Netting(f, _) => f as u32,
        Check::Report(f, _) => f as u32,
        Check::Accounts(f, _) => f as u32,
    }
}

pub fn place(check: Check) -> usize
    ensures { result ≡ place_of check }
{
    match check {
        Check::Bytes(_, p)
        | Check::DayHeader(_, p)
        | Check::DayLength(_, p)
        | Check::DayWords(_, p)
        | Check::Classes(_, p)
        | Check::Series(_, p)
        | Check::BatchHeader(_, p)
        | Check::BatchLength(_, p)
        | Check::BatchWords(_, p)
        | Check::Positions(_, p)
        | Check::Netting(_, p)
        | Check::Report(_, p)
        | Check::Accounts(_, p) => p,
    }
}

// 0, or the refusal's number.
pub fn status(answer: Result<usize, Check>) -> u32
    ensures { result ≡ status_of answer }
{
    answer.err().map_or(0, number)
}

// The words written, or the refusal's place.
pub fn value(answer: Result<usize, Check>) -> usize
    ensures { result ≡ value_of answer }
{
    answer.unwrap_or_else(place)
}

// What a number counts for beside its value: 2^32.
pub const NUMBER_UNIT: u64 = 1 << 32;

// Both in one number.
pub fn packed(answer: Result<usize, Check>) -> u64
    requires { value_of answer < 2 ^ 32 }
    ensures { result ≡ packed_of answer }
{
    u64::from(status(answer)) * NUMBER_UNIT + value(answer) as u64
}
