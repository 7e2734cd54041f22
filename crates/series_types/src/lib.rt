// The types of a series: no other place of the code has their numbers.
#![tactic(auto)]

ghost use Rattle.std.specs.Prelude.{◌≡◌};
ghost use Rattle.model.specs.DayFile.{is_future, is_expired, is_call, is_put, is_option, is_equity, is_warrant, is_rights, is_security, is_derivative};
ghost use Rattle.model.specs.Steps.Cover.{is_coverable};
ghost use Rattle.series_types.specs.Types.{type_number, read_type};

#[derive(Clone, Copy, PartialEq, Eq)]
pub enum SeriesType {
    Future = 1,
    Call = 2,
    Put = 3,
    Equity = 4,
    Warrant = 5,
    Rights = 6,
    ExpiredFuture = 8,
}

// A number that no type has.
#[derive(Clone, Copy)]
pub struct UnknownType {
    pub number: u32,
}

impl TryFrom<u32> for SeriesType {
    type Error = UnknownType;

    ghost try_from_gives = { λ n r. r ≡ read_type n };

    fn try_from(number: u32) -> Result<Self, UnknownType> {
        match number {
            1 => Ok(SeriesType::Future),
            2 => Ok(SeriesType::Call),
            3 => Ok(SeriesType::Put),
            4 => Ok(SeriesType::Equity),
            5 => Ok(SeriesType::Warrant),
            6 => Ok(SeriesType::Rights),
            8 => Ok(SeriesType::ExpiredFuture),
            _ => Err(UnknownType { number }),
        }
    }
}

impl SeriesType {
    // The types that have a minimum, in the order of their numbers.
    pub const WITH_MINIMUM: [SeriesType; 6] = [
        SeriesType::Future,
        SeriesType::Call,
        SeriesType::Put,
        SeriesType::Equity,
        SeriesType::Warrant,
        SeriesType::Rights,
    ];

    pub fn number(self) -> u32
        ensures { result ≡ type_number self }
    {
        self as u32
    }

    // A call or a put.
    pub fn is_option(self) -> bool
        ensures { result ≡ is_option (type_number self) }
    {
        matches!(self, SeriesType::Call | SeriesType::Put)
    }

    // An equity, a warrant or a rights issue.
    pub fn is_security(self) -> bool
        ensures { result ≡ is_security (type_number self) }
    {
        matches!(
            self,
            SeriesType::Equity | SeriesType::Warrant | SeriesType::Rights
        )
    }

    // An open or an expired future, or an option.
    pub fn is_derivative(self) -> bool
        ensures { result ≡ is_derivative (type_number self) }
    {
        self.is_coverable() | self.is_option()
    }

    // A type that deposits cover: an open or an expired future.
    pub fn is_coverable(self) -> bool
        ensures { result ≡ is_coverable (type_number self) }
    {
        matches!(self, SeriesType::Future | SeriesType::ExpiredFuture)
    }
}

// The tests of a number, which may be no type's: a key has any four bits, and rows 24 to 26 read a series that may not be there.

// Type 1.
pub fn is_future(number: u32) -> bool
    ensures { result ≡ is_future number }
{
    SeriesType::try_from(number).is_ok_and(|t| t == SeriesType::Future)
}

// Type 2.
pub fn is_call(number: u32) -> bool
    ensures { result ≡ is_call number }
{
    SeriesType::try_from(number).is_ok_and(|t| t == SeriesType::Call)
}

// Type 3.
pub fn is_put(number: u32) -> bool
    ensures { result ≡ is_put number }
{
    SeriesType::try_from(number).is_ok_and(|t| t == SeriesType::Put)
}

// A call or a put.
pub fn is_option(number: u32) -> bool
    ensures { result ≡ is_option number }
{
    SeriesType::try_from(number).is_ok_and(|t| t.is_option())
}

// Type 4.
pub fn is_equity(number: u32) -> bool
    ensures { result ≡ is_equity number }
{
    SeriesType::try_from(number).is_ok_and(|t| t == SeriesType::Equity)
}

// Type 5.
pub fn is_warrant(number: u32) -> bool
    ensures { result ≡ is_warrant number }
{
    SeriesType::try_from(number).is_ok_and(|t| t == SeriesType::Warrant)
}

// An equity, a warrant or a rights issue.
pub fn is_security(number: u32) -> bool
    ensures { result ≡ is_security number }
{
    SeriesType::try_from(number).is_ok_and(|t| t.is_security())
}

// Type 8.
pub fn is_expired(number: u32) -> bool
    ensures { result ≡ is_expired number }
{
    SeriesType::try_from(number).is_ok_and(|t| t == SeriesType::ExpiredFuture)
}

// An open or an expired future, or an option.
pub fn is_derivative(number: u32) -> bool
    ensures { result ≡ is_derivative number }
{
    SeriesType::try_from(number).is_ok_and(|t| t.is_derivative())
}

// A type that deposits cover.
pub fn is_coverable(number: u32) -> bool
    ensures { result ≡ is_coverable number }
{
    SeriesType::try_from(number).is_ok_and(|t| t.is_coverable())
}
