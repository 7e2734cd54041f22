// The day file of all accounts, checked once.
ghost use Rattle.std.specs.Prelude.{◌≡◌};
ghost use Rattle.report.specs.Checked.{CheckGives};

use classes::day::CheckedDay;
use model::Check;
use report::checked_day;

// Its words, and what their check gave.
#[derive(Drop)]
pub struct DayOutcome<'a> {
    pub words: &'a [u32],
    pub checked: Result<CheckedDay<'a>, Check>,
    pub ghost gives: { CheckGives words.now checked },
}

impl<'a> DayOutcome<'a> {
    pub fn new(words: &'a [u32]) -> Self
        ensures { result.words.now ≡ words.now }
    {
        let checked = checked_day(words);
        DayOutcome { words, checked }
    }
}
