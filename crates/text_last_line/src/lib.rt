// The last line of a text, read behind its head: a refusal's number and place, or a report's totals.
#![tactic(auto)]

ghost use Rattle.std.specs.Prelude.{◌≡◌, true};
ghost use Rattle.model.specs.TextReading.{ended, refusal_of, place_read, refusal_read, account_read, fail_read, totals_read};

use model::{ReportTotals, TextSays};
use text_parts::fields::{read_amount, read_field};
use text_parts::heads::has_head;

// A newline and nothing more.
fn is_ended(text: &[u8]) -> bool
    ensures { result ≡ ended text.now }
{
    has_head(text, b"\n") & (text.len() == 1)
}

// A refusal by its number and place.
fn refusal(number: u64, place: u64) -> Option<TextSays>
    ensures { result ≡ refusal_of number place true }
{
    let number = u32::try_from(number).ok()?;
    let place = u32::try_from(place).ok()?;
    if number == 0 || number == u32::MAX {
        return None;
    }
    Some(TextSays::Refusal(number, place))
}

// Behind a refusal's number: its place, where the text ends behind it.
fn read_place(number: u64, text: &[u8]) -> Option<TextSays>
    ensures { result ≡ place_read number text.now }
{
    let (place, k) = read_field(text)?;
    if !is_ended(&text[k..]) {
        return None;
    }
    refusal(number, place)
}

// Behind the head of a refusal: its number and place.
pub fn read_refusal(text: &[u8]) -> Option<TextSays>
    ensures { result ≡ refusal_read text.now }
{
    let (number, k) = read_field(text)?;
    read_place(number, &text[k..])
}

// The last line of a report of n lines, behind its second total.
fn read_account(n: u32, ordinary: i64, fail: i64, text: &[u8]) -> Option<TextSays>
    ensures { result ≡ account_read n ordinary fail text.now }
{
    let (account, k) = read_amount(text)?;
    if !is_ended(&text[k..]) {
        return None;
    }
    Some(TextSays::Report(ReportTotals {
        lines: n,
        ordinary,
        fail,
        account,
    }))
}

// Behind its first total.
fn read_fail(n: u32, ordinary: i64, text: &[u8]) -> Option<TextSays>
    ensures { result ≡ fail_read n ordinary text.now }
{
    let (fail, k) = read_amount(text)?;
    read_account(n, ordinary, fail, &text[k..])
}

// Behind its head.
pub fn read_totals(n: u32, text: &[u8]) -> Option<TextSays>
    ensures { result ≡ totals_read n text.now }
{
    let (ordinary, k) = read_amount(text)?;
    read_fail(n, ordinary, &text[k..])
}
