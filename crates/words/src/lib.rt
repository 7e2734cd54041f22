// Words: kind, payload, and an amount as three words.
#![tactic(auto)]

ghost use Rattle.std.specs.Prelude.{◌≡◌, ◌^◌, ◌≤◌, ◌<◌, nat_abs, get_or, eqb};
ghost use Rattle.model.specs.Words.{kind as top_bits, payload as payload_of, bits as bits_of, word as word_of, bad_word, magnitude as magnitude_of, negative as negative_of, amount as amount_of, high_word, middle_word, low_word, sign_bit};
ghost use Rattle.words.specs.Kinds.{kind_number};

// The largest payload.
pub const PAYLOAD_LIMIT: u32 = 536870911;

// The kinds of words, by their numbers: 5 and 6 are parts of an amount, and no file has 0.
#[derive(Clone, Copy)]
pub enum Kind {
    Unused = 0,
    Header = 1,
    Key = 2,
    Price = 3,
    Count = 4,
    High = 5,
    Low = 6,
    Totals = 7,
}

// Word i of a run of words, 0 past its end.
pub fn word_at(words: &[u32], i: usize) -> u32
    ensures { result ≡ get_or words.now i 0 }
{
    words.get(i).copied().unwrap_or(0)
}

// The top 3 bits.
pub fn kind_of(w: u32) -> Kind
    ensures { kind_number result ≡ top_bits w }
{
    match w / 536870912 {
        1 => Kind::Header,
        2 => Kind::Key,
        3 => Kind::Price,
        4 => Kind::Count,
        5 => Kind::High,
        6 => Kind::Low,
        7 => Kind::Totals,
        _ => Kind::Unused,
    }
}

// The top 3 bits are those of a kind.
pub fn has_kind(w: u32, kind: Kind) -> bool
    ensures { result ≡ eqb (top_bits w) (kind_number kind) }
{
    kind_of(w) as u32 == kind as u32
}

// The low 29 bits.
pub fn payload(w: u32) -> u32
    ensures { result ≡ payload_of w }
{
    w % 536870912
}

// n bits of p, from bit i on.
pub fn bits(p: u32, i: u32, n: u32) -> u32
    requires { (i < 32) × (n < 32) }
    ensures { result ≡ bits_of p i n }
{
    (p >> i) % (1 << n)
}

// The word of a kind and a payload.
pub fn word(kind: Kind, p: u32) -> u32
    requires { p < 2 ^ 29 }
    ensures { result ≡ word_of (kind_number kind) p }
{
    kind as u32 * 536870912 + p
}

// A wrong kind, or a payload above its limit; of any number, as a kind that no word has is wrong too.
pub fn bad_word(w: u32, k: u32, limit: u32) -> bool
    ensures { result ≡ bad_word w k limit }
{
    (kind_of(w) as u32 != k) | (limit < payload(w))
}

impl Kind {
    // A word of another kind, or with a payload above its limit.
    pub fn refuses(self, w: u32, limit: u32) -> bool
        ensures { result ≡ bad_word w (kind_number self) limit }
    {
        bad_word(w, self as u32, limit)
    }
}

// Bit 28 of an amount's first word.
pub fn negative(u: u32) -> bool
    ensures { result ≡ eqb (negative_of u) 1 }
{
    bits(payload(u), 28, 1) == 1
}

// The magnitude of the amount of three words: 5, 29 and 29 bits.
pub fn magnitude(u: u32, v: u32, w: u32) -> u64
    ensures { (result ≡ magnitude_of u v w) × (result < 2 ^ 63) }
{
    u64::from(payload(u) % 32) * 288230376151711744
        + u64::from(payload(v)) * 536870912
        + u64::from(payload(w))
}

pub fn amount(u: u32, v: u32, w: u32) -> i64
    ensures { result ≡ amount_of u v w }
{
    let m = magnitude(u, v, w) as i64;
    if negative(u) { -m } else { m }
}

fn sign_bit(z: i64) -> u32
    ensures { (result ≡ sign_bit z) × (result ≤ 268435456) }
{
    if z < 0 { 268435456 } else { 0 }
}

// The sign with the top five bits of the size.
pub fn high_word(z: i64) -> u32
    requires { nat_abs z < 2 ^ 63 }
    ensures { result ≡ high_word z }
{
    word(
        Kind::High,
        sign_bit(z) + (z.unsigned_abs() / 288230376151711744) as u32,
    )
}

// The next 29 bits.
pub fn middle_word(z: i64) -> u32
    requires { nat_abs z < 2 ^ 63 }
    ensures { result ≡ middle_word z }
{
    word(Kind::Low, (z.unsigned_abs() / 536870912 % 536870912) as u32)
}

// The low 29 bits.
pub fn low_word(z: i64) -> u32
    requires { nat_abs z < 2 ^ 63 }
    ensures { result ≡ low_word z }
{
    word(Kind::Low, (z.unsigned_abs() % 536870912) as u32)
}
