// Each method writes behind what is written.
ghost use Rattle.std.specs.Prelude.{◌≡◌, ◌∷◌, [], ◌*◌, ◌≤◌, length};
ghost use Rattle.model.specs.Reading.{amount_in};
ghost use Rattle.model.specs.Printed.{decimal, signed_decimal, number_field, amount_fields};
ghost use Rattle.text_fields.specs.Writing.{HasRoom, Wrote};

use crate::Text;
use words::{amount, word_at};

// The amount that stands at word i.
fn amount_at(report: &[u32], i: usize) -> i64
    requires { i ≤ 1000000 }
    ensures { result ≡ amount_in report.now i }
{
    amount(
        word_at(report, i),
        word_at(report, i + 1),
        word_at(report, i + 2),
    )
}

impl Text<'_> {
    pub fn write_byte(&mut self, b: u8)
        requires { HasRoom 1 self.old }
        ensures { Wrote (b ∷ []) self.old self.new }
    {
        self.out[self.len] = b;
        self.len += 1;
    }

    // A fixed byte string: the head of a line.
    pub fn write_head(&mut self, head: &[u8])
        requires { HasRoom (length head.now) self.old }
        ensures { Wrote head.now self.old self.new }
    {
        let end = self.len + head.len();
        self.out[self.len..end].copy_from_slice(head);
        self.len = end;
    }

    // The decimal digits of n, written digit by digit as the model's `digits`.
    fn write_decimal(&mut self, n: u64)
        requires { HasRoom 20 self.old }
        ensures { Wrote (decimal n) self.old self.new }
    {
        if n < 10 {
            self.write_byte(b'0' + n as u8);
            return;
        }
        self.write_decimal(n / 10);
        self.write_byte(b'0' + (n % 10) as u8);
    }

    // A minus sign before a negative.
    fn write_signed(&mut self, z: i64)
        requires { HasRoom 21 self.old }
        ensures { Wrote (signed_decimal z) self.old self.new }
    {
        if z < 0 {
            self.write_byte(b'-');
        }
        self.write_decimal(z.unsigned_abs());
    }

    // A space and a number.
    pub fn write_number(&mut self, n: u64)
        requires { HasRoom 21 self.old }
        ensures { Wrote (number_field n) self.old self.new }
    {
        self.write_byte(b' ');
        self.write_decimal(n);
    }

    // A space and an amount.
    fn write_amount(&mut self, z: i64)
        requires { HasRoom 22 self.old }
        ensures { Wrote (32 ∷ signed_decimal z) self.old self.new }
    {
        self.write_byte(b' ');
        self.write_signed(z);
    }

    // The n amounts that stand from word i on.
    pub fn write_amounts(&mut self, report: &[u32], i: usize, n: usize)
        requires room { HasRoom (22 * n) self.old }
        requires few { (i ≤ 100000) × (n ≤ 6) }
        ensures { Wrote (amount_fields report.now i n) self.old self.new }
    {
        for k in 0..n {
            self.write_amount(amount_at(report, i + 3 * k));
        }
    }
}
