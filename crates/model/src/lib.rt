// The checks that refuse, and what a printed text says. A call answers the words written, or the check that refused; a run of checks only
// whether one refuses. A fault has the paper's number; specs/Answers.antt says which check has which.
#![tactic(auto)]

// The stages of check, one variant each: its reason, and the place (the first offending record or word, or what the row says).
#[derive(Clone, Copy)]
pub enum Check {
    Bytes(BytesFault, usize),
    DayHeader(DayHeaderFault, usize),
    DayLength(DayLengthFault, usize),
    DayWords(DayWordsFault, usize),
    Classes(ClassFault, usize),
    Series(SeriesFault, usize),
    BatchHeader(BatchHeaderFault, usize),
    BatchLength(BatchLengthFault, usize),
    BatchWords(BatchWordsFault, usize),
    Positions(PositionFault, usize),
    Netting(NettingFault, usize),
    Report(ReportFault, usize),
    Accounts(AccountsFault, usize),
}

// Rows 1 and 2.
#[derive(Clone, Copy)]
pub enum BytesFault {
    DayFile = 1,
    BatchFile = 2,
}

// Row 10.
#[derive(Clone, Copy)]
pub enum DayHeaderFault {
    BadDayHeader = 10,
}

// Row 11.
#[derive(Clone, Copy)]
pub enum DayLengthFault {
    BadDayLength = 11,
}

// Row 12.
#[derive(Clone, Copy)]
pub enum DayWordsFault {
    BadDayWord = 12,
}

// Rows 13, 14 and 18.
#[derive(Clone, Copy)]
pub enum ClassFault {
    ClassOrder = 13,
    OffsetDiffers = 14,
    PriceOrder = 18,
}

// Rows 15, 16 and 17.
#[derive(Clone, Copy)]
pub enum SeriesFault {
    ClassAbsent = 15,
    SeriesOrder = 16,
    BadType = 17,
}

// Row 20.
#[derive(Clone, Copy)]
pub enum BatchHeaderFault {
    BadBatchHeader = 20,
}

// Row 21.
#[derive(Clone, Copy)]
pub enum BatchLengthFault {
    BadBatchLength = 21,
}

// Rows 22, 27, 28, 33 and 34.
#[derive(Clone, Copy)]
pub enum BatchWordsFault {
    WrongKind = 22,
    OutOfRange = 27,
    MinusZero = 28,
    NotWholeCents = 33,
    CentsTooLarge = 34,
}

// The rows of a batch's words: those of the stage that every call with a batch tries, and that name a word.
#[derive(Clone, Copy)]
pub enum WordRow {
    Row22,
    Row27,
    Row28,
}

// Rows 23 to 26.
#[derive(Clone, Copy)]
pub enum PositionFault {
    SeriesAbsent = 23,
    ExercisedNonOption = 24,
    FailNonSecurity = 25,
    DvpNonSecurity = 26,
}

// Rows 30, 31, 32, 50, 51 and 62.
#[derive(Clone, Copy)]
pub enum NettingFault {
    NetTooLarge = 30,
    DvpTooLarge = 31,
    NoSpace = 32,
    BadDeposit = 50,
    UnlikeMultipliers = 51,
    BadTrades = 62,
}

// Row 40.
#[derive(Clone, Copy)]
pub enum ReportFault {
    TooShort = 40,
}

// Rows 60 and 61.
#[derive(Clone, Copy)]
pub enum AccountsFault {
    BadLengths = 60,
    ShortResults = 61,
}

// What a printed text says: a report's line count and totals, or a refusal's number and place. No Result: reading a refusal is no failure.
#[derive(Clone, Copy)]
pub enum TextSays {
    Report(ReportTotals),
    Refusal(u32, u32),
}

// The line count of a report and its totals.
#[derive(Clone, Copy)]
pub struct ReportTotals {
    pub lines: u32,
    pub ordinary: i64,
    pub fail: i64,
    pub account: i64,
}

// The worst moment of a day: the highest account margin, the earliest step that has it (0 is the opening), the steps applied and left out.
#[derive(Clone, Copy)]
pub struct Moment {
    pub margin: i64,
    pub step: u32,
    pub applied: u32,
    pub left_out: u32,
}
