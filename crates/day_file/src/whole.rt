// A day file of the length that its header tells.
ghost use Rattle.std.specs.Prelude.{◌≡◌, ◌<◌, length};
ghost use Rattle.model.specs.DayFile.{class_count, series_count, day_words};

use crate::{Class, Series};

// The words of all its classes and series are there.
#[derive(Clone, Copy)]
pub struct WholeDay<'a> {
    pub words: &'a [u32],
    pub ghost whole: { length words.now ≡ day_words (class_count words.now) (series_count words.now) },
}

impl WholeDay<'_> {
    pub fn class(&self, c: usize) -> Class<'_>
        requires { c < class_count self.now.words.now }
        ensures { (result.day.now ≡ self.now.words.now) × (result.place ≡ c) }
    {
        Class::new(self.words, c)
    }

    pub fn series(&self, s: usize) -> Series<'_>
        requires { s < series_count self.now.words.now }
        ensures { (result.day.now ≡ self.now.words.now) × (result.place ≡ s) }
    {
        Series::new(self.words, s)
    }
}
