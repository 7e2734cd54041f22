// Numbers and amounts read, each with how many bytes it takes, as the model reads, digit by digit. Each function reads at the front of the text that it is given.
ghost use Rattle.std.specs.Prelude.{◌≡◌, ◌≤◌, IfSome, length, drop};
ghost use Rattle.model.specs.TextReading.{of_digits, decimal_read, behind, field_read, plus as plus_of, minus as minus_of, amount_read};

use crate::heads::has_head;

// A number of k digits; none where k is 0.
fn of_digits(n: u64, k: usize) -> Option<(u64, usize)>
    ensures { result ≡ of_digits n k }
{
    if k == 0 { None } else { Some((n, k)) }
}

// A number of 1 to 19 digits.
fn read_decimal(text: &[u8]) -> Option<(u64, usize)>
    ensures { result ≡ decimal_read text.now }
{
    let mut n: u64 = 0;
    for (k, c) in text.iter().enumerate() {
        if !c.is_ascii_digit() {
            return of_digits(n, k);
        }
        if 19 <= k {
            return None;
        }
        n = 10 * n + u64::from(*c - b'0');
    }
    of_digits(n, text.len())
}

// The number that stands behind k bytes.
fn read_behind(text: &[u8], k: usize) -> Option<(u64, usize)>
    requires { k ≤ length text.now }
    ensures { result ≡ behind k (decimal_read (drop k text.now)) }
{
    let (n, j) = read_decimal(&text[k..])?;
    Some((n, k + j))
}

// A space and a number.
pub fn read_field(text: &[u8]) -> Option<(u64, usize)>
    ensures value { result ≡ field_read text.now }
    ensures within { IfSome result (λ x. x.1 ≤ length text.now) }
{
    if has_head(text, b" ") {
        return read_behind(text, 1);
    }
    None
}

// The amount of a number below 2^63.
fn plus(read: Option<(u64, usize)>) -> Option<(i64, usize)>
    ensures { result ≡ plus_of read }
{
    let (n, k) = read?;
    Some((i64::try_from(n).ok()?, k))
}

// The same with a minus sign; the number is not 0.
fn minus(read: Option<(u64, usize)>) -> Option<(i64, usize)>
    ensures { result ≡ minus_of read }
{
    let (n, k) = read.filter(|(n, _)| 0 < *n)?;
    Some((-i64::try_from(n).ok()?, k))
}

// A space, a minus sign where the amount is negative, and its size.
pub fn read_amount(text: &[u8]) -> Option<(i64, usize)>
    ensures value { result ≡ amount_read text.now }
    ensures within { IfSome result (λ x. x.1 ≤ length text.now) }
{
    if has_head(text, b" -") {
        return minus(read_behind(text, 2));
    }
    plus(read_field(text))
}
