// Where the series of each class start: one pass over the series, which stand by class.
ghost use Rattle.std.specs.Prelude.{◌≡◌, ◌≤◌, ◌<◌, None};
ghost use Rattle.numbers.specs.Scan.{first_bad};
ghost use Rattle.model.specs.DayFile.{class_count, series_count};
ghost use Rattle.model.proofs.Accepted.{DayRows};
ghost use Rattle.classes.specs.Tables.{Day};
ghost use Rattle.classes.specs.Range.{start_of};
ghost use Rattle.classes.specs.Starts.{reached, start_table};

use day_file::{Class, MOST_CLASSES, Series, class_count, series_count};

// A start for each class that there may be, and one more: where the last one's series end.
pub const STARTS: usize = MOST_CLASSES + 1;

// Series s is of class c or a later one.
fn reaches(day: &[u32], c: usize, s: usize) -> bool
    requires day { Day day.now }
    requires c_bound { (c < class_count day.now) × (s < series_count day.now) }
    ensures { result ≡ reached day.now c s }
{
    let class = Class { day, place: c };
    let series = Series { day, place: s };
    class.number() <= series.class_number()
}

// The first series of class c or a later one, none being below `from`.
fn start(day: &[u32], c: usize, from: usize) -> usize
    requires day { Day day.now }
    requires c_bound { (c < class_count day.now) × (from ≤ series_count day.now) }
    requires from_value { first_bad (reached day.now c) from ≡ None }
    ensures { result ≡ start_of day.now c }
{
    let count = series_count(day);
    (from..count).find(|&s| reaches(day, c, s)).unwrap_or(count)
}

// The starts of all classes, and the end of the series for those that are not there.
pub fn starts(day: &[u32]) -> [usize; STARTS]
    requires { DayRows day.now }
    ensures { result ≡ start_table day.now }
{
    let mut table = [series_count(day); STARTS];
    let mut s = 0;
    for c in 0..class_count(day) {
        s = start(day, c, s);
        table[c] = s;
    }
    table
}
