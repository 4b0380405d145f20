// Refusals and their numbers.
ghost use Rattle.std.specs.Prelude.{◌≡◌};
ghost use Rattle.terms.specs.Refusals.{number_of};

// Why a call is refused, by its number: 1 to 14 of document 01, then those of 02's requests.
#[derive(Clone, Copy, Debug, PartialEq, Eq)]
pub enum Refusal {
    EmptyOrTooLong = 1,
    WrongFirstByte = 2,
    EndsInsideField = 3,
    OutOfRange = 4,
    TooManyOrTooDeep = 5,
    NoSuchColumn = 6,
    BytesAfterEnd = 7,
    TooFewArguments = 8,
    BufferTooShort = 9,
    NoGoodPlan = 10,
    PlanEmpty = 11,
    AlreadyExtracted = 12,
    NoLeafMatches = 13,
    NotHexadecimal = 14,
    TextBufferTooShort = 15,
    MergedTooLarge = 16,
    TableTooShort = 17,
    NotExtracted = 18,
    ListTooLong = 19,
    NoSuchChild = 20,
    NoSuchQueue = 21,
    QueuedFrameTooLong = 22,
    QueueFull = 23,
    BadSettings = 24,
}

// The number of a refusal.
impl From<Refusal> for u8 {
    ghost from_gives = { λ why number. number ≡ number_of why };

    fn from(why: Refusal) -> u8 {
        why as u8
    }
}
