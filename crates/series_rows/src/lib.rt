// Rows 15 to 17 of one series: its class, its order and its type.
#![tactic(auto)]

ghost use Rattle.std.specs.Prelude.{◌≡◌, ◌≤◌, length};
ghost use Rattle.model.specs.DayFile.{class_count, class_at};
ghost use Rattle.model.specs.DayChecks.{row15, row16, row17};
ghost use Rattle.series_rows.specs.Presence.{presence};

use day_file::{Class, Series, class_count};
use series_types::SeriesType;

// Class numbers have six bits.
const NUMBERS: usize = 64;

// Which class numbers there are.
#[tactic(auto, using(crate::specs::Presence::none_present, crate::specs::Presence::more_present))]
pub fn present_numbers(day: &[u32]) -> [bool; NUMBERS]
    requires { class_at (class_count day.now) ≤ length day.now }
    ensures { result ≡ presence day.now (class_count day.now) }
{
    let mut present = [false; NUMBERS];
    for c in 0..class_count(day) {
        let n = Class::new(day, c).number();
        present[n] = true;
    }
    present
}

// Row 15 of a series: its class number is absent.
#[tactic(auto, using(crate::specs::Presence::absent))]
pub fn class_absent(series: &Series, present: &[bool; NUMBERS]) -> bool
    requires { present.now ≡ presence series.now.day.now (class_count series.now.day.now) }
    ensures { result ≡ row15 series.now.day.now series.now.place }
{
    !present[series.class_number()]
}

// Row 16 of a series: its key payload, then strike, is not above that of the one before.
#[tactic(auto, unfolding(model::specs::DayChecks::row16))]
pub fn out_of_order(series: &Series) -> bool
    ensures { result ≡ row16 series.now.day.now series.now.place }
{
    if series.place == 0 {
        return false;
    }
    let before = Series::new(series.day, series.place - 1);
    (series.key(), series.strike()) <= (before.key(), before.strike())
}

// Row 17 of a series: no type of 1–6 and 8; serial not 0 on types 1–3 and 8; strike not 0 on an open future; strike or expiry not 0 on a security;
// adjustment not 0 on a series that is no option.
#[tactic(auto, unfolding(model::specs::DayChecks::row17))]
pub fn bad_type(series: &Series) -> bool
    ensures { result ≡ row17 series.now.day.now series.now.place }
{
    match series.series_type() {
        Ok(SeriesType::Future) => {
            series.serial() != 0 || series.strike() != 0 || series.adjustment() != 0
        }
        Ok(SeriesType::ExpiredFuture) => series.serial() != 0 || series.adjustment() != 0,
        Ok(SeriesType::Call | SeriesType::Put) => series.serial() != 0,
        Ok(SeriesType::Equity | SeriesType::Warrant | SeriesType::Rights) => {
            series.strike() != 0 || series.expiry() != 0 || series.adjustment() != 0
        }
        Err(_) => true,
    }
}
