// What is read of holdings.
ghost use Rattle.std.specs.Prelude.{◌≡◌, ◌≤◌, pos, ◌-ℤ◌};
ghost use Rattle.model.specs.DayFile.{series_count, underlying, strike};
ghost use Rattle.model.specs.Netting.{position};
ghost use Rattle.positions.specs.Books.{holding_number};
ghost use Rattle.holdings.specs.Seen.{class_day, class_from, class_to, series_day, series_net, series_dvp, series_book};

use crate::{ClassHoldings, SeriesHoldings};
use day_file::{Class, Series};
use positions::{Holding, position_amount};
use std::ops::Range;
use worth::SeriesNet;

impl ClassHoldings<'_> {
    // The class in the day file.
    pub fn class(&self) -> Class<'_>
        ensures { (result.day.now ≡ class_day self.now) × (result.place ≡ self.now.class) }
    {
        self.account.day.class(self.class)
    }

    // The places of its series. Loops write `start..end`: of a range that is written out alone an invariant can name the place.
    pub fn series(&self) -> Range<usize>
        ensures range { (result.start ≡ class_from self.now) × (result.end ≡ class_to self.now) }
        ensures inside { (result.start ≤ result.end) × (result.end ≤ series_count (class_day self.now)) }
    {
        self.account.day.series_of(self.class)
    }
}

impl SeriesHoldings<'_, '_> {
    // The series in the day file.
    pub fn series(&self) -> Series<'_>
        ensures { (result.day.now ≡ series_day self.now) × (result.place ≡ self.now.place) }
    {
        self.class.account.day.series(self.place)
    }

    // The underlying price − the strike, which is the delivery price of an expired future.
    pub fn above_strike(&self) -> i64
        ensures { result ≡ pos (underlying (series_day self.now) self.now.class.now.class) -ℤ pos (strike (series_day self.now) self.now.place) }
    {
        let underlying = i64::from(self.class.class().underlying());
        let strike = i64::from(self.series().strike());
        underlying - strike
    }

    // The net of a position.
    pub fn net(&self, holding: Holding) -> i64
        ensures { result ≡ series_net self.now (position (series_book self.now) (holding_number holding) self.now.place) }
    {
        let class = self.class;
        position_amount(class.account.nets, class.book, holding, self.place)
    }

    // Its DVP.
    pub fn dvp(&self, holding: Holding) -> i64
        ensures { result ≡ series_dvp self.now (position (series_book self.now) (holding_number holding) self.now.place) }
    {
        let class = self.class;
        position_amount(class.account.dvps, class.book, holding, self.place)
    }

    // The net of a position, with the series.
    pub fn position(&self, holding: Holding) -> SeriesNet<'_>
        ensures series { (result.series.day.now ≡ series_day self.now) × (result.series.place ≡ self.now.place) }
        ensures net { result.net ≡ series_net self.now (position (series_book self.now) (holding_number holding) self.now.place) }
    {
        SeriesNet {
            series: self.series(),
            net: self.net(holding),
        }
    }
}
