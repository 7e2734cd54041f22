// The fields of a day file: of its header, of a class and of a series.
#![tactic(auto)]

ghost use Rattle.std.specs.Prelude.{◌≡◌, ◌+◌, ◌*◌, ◌≤◌, ◌<◌, length};
ghost use Rattle.model.specs.DayFile.{day_header, class_count, series_count, class_word, class_number, spot_rate, non_spot_rate, option_rate, future_rate, equity_rate, warrant_rate, rights_rate, series_word, series_key, series_type, series_class_number, class_at, series_at, class_words, series_words, is_future, is_expired, is_call, is_put, is_option, is_security};
ghost use Rattle.model.specs.DayFile.{group as group_of, underlying as underlying_of, offset as offset_of, serial as serial_of, expiry as expiry_of, multiplier as multiplier_of, strike as strike_of, closing as closing_of, adjustment as adjustment_of};
ghost use Rattle.model.specs.Steps.Cover.{is_coverable};
ghost use Rattle.series_types.specs.Types.{read_type};

use series_types::{SeriesType, UnknownType};
use words::{bits, payload, word_at};

pub mod whole;

// The words of a class.
pub const CLASS_WORDS: usize = 20;

// The words of a series.
pub const SERIES_WORDS: usize = 15;

// The most classes.
pub const MOST_CLASSES: usize = 64;

// The most series.
pub const MOST_SERIES: usize = 256;

// The product groups.
pub const GROUPS: usize = 29;

// An offset that leaves a credit whole: 100 percent, in hundredths of a percent.
pub const WHOLE_OFFSET: u32 = 10000;

// The first word, 0 where there is none.
pub fn day_header(day: &[u32]) -> u32
    ensures { result ≡ day_header day.now }
{
    word_at(day, 0)
}

// C, bits 0 to 6.
pub fn class_count(day: &[u32]) -> usize
    ensures { result ≡ class_count day.now }
{
    bits(payload(day_header(day)), 0, 7) as usize
}

// S, bits 7 to 15.
pub fn series_count(day: &[u32]) -> usize
    ensures { result ≡ series_count day.now }
{
    bits(payload(day_header(day)), 7, 9) as usize
}

// Word i of class c, where that word is there and the rest of the class need not be.
pub fn class_word(day: &[u32], c: usize, i: usize) -> u32
    requires { class_at c + i < length day.now }
    ensures { result ≡ class_word day.now c i }
{
    day[1 + CLASS_WORDS * c + i]
}

// Word i of series s, where that word is there and the rest of the series need not be.
pub fn series_word(day: &[u32], s: usize, i: usize) -> u32
    requires { series_at day.now s + i < length day.now }
    ensures { result ≡ series_word day.now s i }
{
    day[1 + CLASS_WORDS * class_count(day) + SERIES_WORDS * s + i]
}

// A class, whose words are there.
#[derive(Clone, Copy)]
pub struct Class<'a> {
    pub day: &'a [u32],
    pub place: usize,
    pub ghost inside: { class_at (place + 1) ≤ length day.now },
}

impl<'a> Class<'a> {
    // The class in a place of a day file.
    pub fn new(day: &'a [u32], place: usize) -> Self
        requires { class_at (place + 1) ≤ length day.now }
        ensures { (result.day.now ≡ day.now) × (result.place ≡ place) }
    {
        Class { day, place }
    }

    // Word i.
    pub fn word(&self, i: usize) -> u32
        requires { i < class_words }
        ensures { result ≡ class_word self.now.day.now self.now.place i }
    {
        class_word(self.day, self.place, i)
    }

    // Product group, bits 0 to 4 of the key.
    pub fn group(&self) -> usize
        ensures { result ≡ group_of self.now.day.now self.now.place }
    {
        bits(payload(self.word(0)), 0, 5) as usize
    }

    // Class number, bits 5 to 10 of the key.
    pub fn number(&self) -> usize
        ensures { result ≡ class_number self.now.day.now self.now.place }
    {
        bits(payload(self.word(0)), 5, 6) as usize
    }

    // Underlying price.
    pub fn underlying(&self) -> u32
        ensures { result ≡ underlying_of self.now.day.now self.now.place }
    {
        payload(self.word(1))
    }

    // Spot spread rate.
    pub fn spot_rate(&self) -> u32
        ensures { result ≡ spot_rate self.now.day.now self.now.place }
    {
        payload(self.word(2))
    }

    // Non-spot spread rate.
    pub fn non_spot_rate(&self) -> u32
        ensures { result ≡ non_spot_rate self.now.day.now self.now.place }
    {
        payload(self.word(3))
    }

    // Minimum rate for options.
    pub fn option_rate(&self) -> u32
        ensures { result ≡ option_rate self.now.day.now self.now.place }
    {
        payload(self.word(4))
    }

    // Minimum rate for futures.
    pub fn future_rate(&self) -> u32
        ensures { result ≡ future_rate self.now.day.now self.now.place }
    {
        payload(self.word(5))
    }

    // Minimum rate for equities.
    pub fn equity_rate(&self) -> u32
        ensures { result ≡ equity_rate self.now.day.now self.now.place }
    {
        payload(self.word(6))
    }

    // Minimum rate for warrants.
    pub fn warrant_rate(&self) -> u32
        ensures { result ≡ warrant_rate self.now.day.now self.now.place }
    {
        payload(self.word(7))
    }

    // Minimum rate for rights.
    pub fn rights_rate(&self) -> u32
        ensures { result ≡ rights_rate self.now.day.now self.now.place }
    {
        payload(self.word(8))
    }

    // Group offset in hundredths of a percent.
    pub fn offset(&self) -> u32
        ensures { result ≡ offset_of self.now.day.now self.now.place }
    {
        payload(self.word(9))
    }
}

// A series, whose words are there.
#[derive(Clone, Copy)]
pub struct Series<'a> {
    pub day: &'a [u32],
    pub place: usize,
    pub ghost inside: { series_at day.now (place + 1) ≤ length day.now },
}

impl<'a> Series<'a> {
    // The series in a place of a day file.
    pub fn new(day: &'a [u32], place: usize) -> Self
        requires { series_at day.now (place + 1) ≤ length day.now }
        ensures { (result.day.now ≡ day.now) × (result.place ≡ place) }
    {
        Series { day, place }
    }

    // Word i.
    pub fn word(&self, i: usize) -> u32
        requires { i < series_words }
        ensures { result ≡ series_word self.now.day.now self.now.place i }
    {
        series_word(self.day, self.place, i)
    }

    // The key payload.
    pub fn key(&self) -> u32
        ensures { result ≡ series_key self.now.day.now self.now.place }
    {
        payload(self.word(0))
    }

    // Serial, bits 0 to 6 of the key.
    pub fn serial(&self) -> u32
        ensures { result ≡ serial_of self.now.day.now self.now.place }
    {
        bits(self.key(), 0, 7)
    }

    // Expiry as months since January 2000, bits 7 to 18 of the key.
    pub fn expiry(&self) -> u32
        ensures { result ≡ expiry_of self.now.day.now self.now.place }
    {
        bits(self.key(), 7, 12)
    }

    // The number of the type, bits 19 to 22 of the key.
    pub fn type_number(&self) -> u32
        ensures { (result ≡ series_type self.now.day.now self.now.place) × (result < 16) }
    {
        bits(self.key(), 19, 4)
    }

    // The type, where one has the number.
    pub fn series_type(&self) -> Result<SeriesType, UnknownType>
        ensures { result ≡ read_type (series_type self.now.day.now self.now.place) }
    {
        SeriesType::try_from(self.type_number())
    }

    // An open future.
    pub fn is_future(&self) -> bool
        ensures { result ≡ is_future (series_type self.now.day.now self.now.place) }
    {
        series_types::is_future(self.type_number())
    }

    pub fn is_call(&self) -> bool
        ensures { result ≡ is_call (series_type self.now.day.now self.now.place) }
    {
        series_types::is_call(self.type_number())
    }

    pub fn is_put(&self) -> bool
        ensures { result ≡ is_put (series_type self.now.day.now self.now.place) }
    {
        series_types::is_put(self.type_number())
    }

    // A call or a put.
    pub fn is_option(&self) -> bool
        ensures { result ≡ is_option (series_type self.now.day.now self.now.place) }
    {
        series_types::is_option(self.type_number())
    }

    // An equity, a warrant or a rights issue.
    pub fn is_security(&self) -> bool
        ensures { result ≡ is_security (series_type self.now.day.now self.now.place) }
    {
        series_types::is_security(self.type_number())
    }

    // A future that has expired and awaits delivery.
    pub fn is_expired(&self) -> bool
        ensures { result ≡ is_expired (series_type self.now.day.now self.now.place) }
    {
        series_types::is_expired(self.type_number())
    }

    // Of a type that deposits cover.
    pub fn is_coverable(&self) -> bool
        ensures { result ≡ is_coverable (series_type self.now.day.now self.now.place) }
    {
        series_types::is_coverable(self.type_number())
    }

    // Class number, bits 23 to 28 of the key.
    pub fn class_number(&self) -> usize
        ensures { result ≡ series_class_number self.now.day.now self.now.place }
    {
        bits(self.key(), 23, 6) as usize
    }

    // Multiplier.
    pub fn multiplier(&self) -> u32
        ensures { result ≡ multiplier_of self.now.day.now self.now.place }
    {
        payload(self.word(1))
    }

    // Strike, the delivery price of an expired future.
    pub fn strike(&self) -> u32
        ensures { result ≡ strike_of self.now.day.now self.now.place }
    {
        payload(self.word(2))
    }

    // Closing price.
    pub fn closing(&self) -> u32
        ensures { result ≡ closing_of self.now.day.now self.now.place }
    {
        payload(self.word(3))
    }

    // Short option adjustment.
    pub fn adjustment(&self) -> u32
        ensures { result ≡ adjustment_of self.now.day.now self.now.place }
    {
        payload(self.word(4))
    }
}

// The number of the type of series s, of words that may be too few.
pub fn series_type_at(day: &[u32], s: usize) -> u32
    requires { s < 4294967296 }
    ensures { result ≡ series_type day.now s }
{
    let key = word_at(day, 1 + CLASS_WORDS * class_count(day) + SERIES_WORDS * s);
    bits(payload(key), 19, 4)
}
