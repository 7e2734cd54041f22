// A day file that passed its checks.
ghost use Rattle.std.specs.Prelude.{◌≡◌, Ok, ◌+◌, ◌≤◌, ◌<◌};
ghost use Rattle.model.specs.DayChecks.{day_check};
ghost use Rattle.model.specs.DayFile.{class_count, series_count, class_with, series_class};
ghost use Rattle.classes.specs.Checked.{Checked};
ghost use Rattle.classes.specs.Range.{start_of};
ghost use Rattle.classes.specs.Starts.{start_table};

use crate::starts::{STARTS, starts};
use day_file::{Class, Series};
use std::ops::Range;

// Its words, and where the series of each class start.
#[derive(Drop)]
pub struct CheckedDay<'a> {
    pub words: &'a [u32],
    pub starts: [usize; STARTS],
    pub ghost checked: { Checked words.now },
    pub ghost starts_value: { starts ≡ start_table words.now },
}

impl CheckedDay<'_> {
    pub fn new(words: &[u32]) -> CheckedDay<'_>
        requires { day_check words.now ≡ Ok tt }
        ensures { result.words.now ≡ words.now }
    {
        let starts = starts(words);
        CheckedDay { words, starts }
    }

    pub fn class_count(&self) -> usize
        ensures { result ≡ class_count self.now.words.now }
    {
        day_file::class_count(self.words)
    }

    pub fn series_count(&self) -> usize
        ensures { result ≡ series_count self.now.words.now }
    {
        day_file::series_count(self.words)
    }

    pub fn class(&self, c: usize) -> Class<'_>
        requires { c < class_count self.now.words.now }
        ensures { (result.day.now ≡ self.now.words.now) × (result.place ≡ c) }
    {
        Class::new(self.words, c)
    }

    pub fn series(&self, s: usize) -> Series<'_>
        requires { s < series_count self.now.words.now }
        ensures { (result.day.now ≡ self.now.words.now) × (result.place ≡ s) }
    {
        Series::new(self.words, s)
    }

    // The class with number n.
    pub fn class_with(&self, n: usize) -> Option<usize>
        ensures { result ≡ class_with self.now.words.now n }
    {
        (0..self.class_count()).find(|&c| self.class(c).number() == n)
    }

    // The class of series s.
    pub fn class_of(&self, s: usize) -> usize
        requires { s < series_count self.now.words.now }
        ensures { (result ≡ series_class self.now.words.now s) × (result < class_count self.now.words.now) }
    {
        self.class_with(self.series(s).class_number())
            .unwrap_or(self.class_count())
    }

    // The places of the series of class c.
    pub fn series_of(&self, c: usize) -> Range<usize>
        requires { c < class_count self.now.words.now }
        ensures range { (result.start ≡ start_of self.now.words.now c) × (result.end ≡ start_of self.now.words.now (c + 1)) }
        ensures inside { (result.start ≤ result.end) × (result.end ≤ series_count self.now.words.now) }
    {
        self.starts[c]..self.starts[c + 1]
    }
}
