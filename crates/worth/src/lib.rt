// What a position is worth: net × multiplier × price.
#![tactic(auto)]

ghost use Rattle.std.specs.Prelude.{◌≡◌, ◌*◌, ◌≤◌, ◌<◌, ◌^◌, pos, nat_abs, ◌*ℤ◌};
ghost use Rattle.model.specs.DayFile.{multiplier};
ghost use Rattle.model.specs.Steps.Classes.{worth as worth_of, signed_by_type};
ghost use Rattle.model.specs.Limits.{contracts_limit, price_limit};

use day_file::Series;
use series_types::{is_call, is_put};

// A net of a series, times its multiplier within the limit of an account.
#[derive(Clone, Copy)]
pub struct SeriesNet<'a> {
    pub series: Series<'a>,
    pub net: i64,
    pub ghost limit: { nat_abs net * multiplier series.day.now series.place ≤ contracts_limit },
}

impl SeriesNet<'_> {
    // Net × multiplier.
    pub fn contracts(&self) -> i64
        ensures { result ≡ self.now.net *ℤ pos (multiplier self.now.series.day.now self.now.series.place) }
    {
        self.net * i64::from(self.series.multiplier())
    }

    pub fn worth(&self, price: i64) -> i64
        requires { nat_abs price ≤ price_limit }
        ensures { result ≡ worth_of self.now.series.day.now self.now.series.place self.now.net price }
    {
        self.contracts() * price
    }
}

// A difference as a call has it, its negative for a put, none for another number, of a type or of none.
pub fn signed_by_type(t: u32, z: i64) -> i64
    requires { nat_abs z < 2 ^ 63 }
    ensures { result ≡ signed_by_type t z }
{
    if is_call(t) {
        return z;
    }
    if is_put(t) {
        return -z;
    }
    0
}
