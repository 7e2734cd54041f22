// Row 12: the words of every record, classes then series.
#![tactic(auto)]

ghost use Rattle.std.specs.Prelude.{◌≡◌, ◌+◌, ◌≤◌, ◌<◌};
ghost use Rattle.numbers.specs.Scan.{first_bad};
ghost use Rattle.model.specs.Words.{bad_price};
ghost use Rattle.model.specs.DayFile.{class_count, series_count};
ghost use Rattle.model.specs.DayChecks.{bad_class, bad_series, row12};

use accumulator::Points;
use day_file::whole::WholeDay;
use day_file::{
    CLASS_WORDS, Class, GROUPS, SERIES_WORDS, Series, WHOLE_OFFSET, class_count, series_count,
};
use words::{Kind, PAYLOAD_LIMIT};

// The largest multiplier.
const MULTIPLIER_LIMIT: u32 = 10000;

// The largest payload of a class's key: bits 11 on are spare.
const CLASS_KEY_LIMIT: u32 = 2047;

// The word of price 0.
const ZERO_PRICE: u32 = Kind::Price as u32 * (PAYLOAD_LIMIT + 1);

// A price or rate: kind 3, at most what the points' accumulator takes. A word of a higher kind lies further from price 0 than any price.
fn bad_price(w: u32) -> bool
    ensures { result ≡ bad_price w }
{
    w < ZERO_PRICE || Points::price_too_large(w - ZERO_PRICE)
}

// A class: its key, its offset, its prices and rates, and its group.
fn bad_class(class: &Class) -> bool
    ensures { result ≡ bad_class class.now.day.now class.now.place }
{
    (0..CLASS_WORDS).any(|i| match i {
        0 => Kind::Key.refuses(class.word(0), CLASS_KEY_LIMIT),
        9 => Kind::Count.refuses(class.word(9), WHOLE_OFFSET),
        _ => bad_price(class.word(i)),
    }) || GROUPS <= class.group()
}

// A series: its key (no spare bit), its multiplier, not 0, and its prices. One function for both records would take each limit and place.
fn bad_series(series: &Series) -> bool
    ensures { result ≡ bad_series series.now.day.now series.now.place }
{
    (0..SERIES_WORDS).any(|i| match i {
        0 => Kind::Key.refuses(series.word(0), PAYLOAD_LIMIT),
        1 => Kind::Count.refuses(series.word(1), MULTIPLIER_LIMIT),
        _ => bad_price(series.word(i)),
    }) || series.multiplier() == 0
}

// Record i, classes then series.
#[tactic(auto, unfolding(model::specs::DayChecks::row12))]
fn bad_record(day: &WholeDay<'_>, i: usize) -> bool
    requires { i < class_count day.now.words.now + series_count day.now.words.now }
    ensures { result ≡ row12 day.now.words.now i }
{
    let classes = class_count(day.words);
    if i < classes {
        bad_class(&day.class(i))
    } else {
        bad_series(&day.series(i - classes))
    }
}

pub fn record_count(day: &[u32]) -> usize
    ensures { result ≡ class_count day.now + series_count day.now }
{
    class_count(day) + series_count(day)
}

pub fn first_bad_record(day: &WholeDay<'_>, count: usize) -> Option<usize>
    requires { count ≤ class_count day.now.words.now + series_count day.now.words.now }
    ensures { result ≡ first_bad (row12 day.now.words.now) count }
{
    (0..count).find(|&i| bad_record(day, i))
}
