// Every refusal of the product: one enum, the number of each, and its words.
#![tactic(auto)]

ghost use Rattle.std.specs.Prelude.{◌≡◌};
ghost use Rattle.refusals.specs.Numbers.{number};

use thiserror::Error;

#[derive(Clone, Copy, PartialEq, Eq, Debug, Error)]
pub enum Refusal {
    // Because of the input.
    #[error("a byte that belongs to no token")]
    UnknownByte,
    #[error("an expression of more than 64 tokens")]
    TooManyTokens,
    #[error("an unknown word")]
    UnknownWord,
    #[error("no expression goes on like this")]
    Grammar,
    #[error("the letters of a run do not rise")]
    NotRising,
    #[error("a number is missing, ill-written or beyond its limit")]
    Number,
    #[error("the shares of a pattern add up to more than 20 twentieths")]
    AboveFull,
    #[error("a benefit of more than eight clauses")]
    TooManyClauses,
    #[error("there is no such seat")]
    NoSeat,
    #[error("the counts make no life: too many, too large, or rising")]
    Counts,
    #[error("a number of years, a step or a factor is beyond its limit")]
    Limit,
    #[error("the year is above 120")]
    Year,
    #[error("the file is longer than 32,256 bytes")]
    FileTooLong,
    #[error("the line has no kind, no end, or the wrong number of fields")]
    Line,
    #[error("there is too little memory")]
    Memory,
    #[error("the life has count 0 in year 0")]
    NoCount,
    #[error("two patterns with equally many of the named alive have different shares")]
    Uneven,
    // Because of the state.
    #[error("the seat is not empty")]
    Occupied,
    #[error("the seat is empty")]
    Vacant,
    #[error("the seat has failed already")]
    AlreadyFailed,
    #[error("the counts of year 0 multiply to more than 10^16")]
    ProductTooLarge,
    #[error("a living life has no count for the next year")]
    Ending,
    #[error("a line of this kind does not belong to this phase")]
    Phase,
}

impl Refusal {
    // The number by which a refusal is printed.
    pub fn code(self) -> u8
        ensures { result ≡ number self }
    {
        match self {
            Refusal::UnknownByte => 1,
            Refusal::TooManyTokens => 2,
            Refusal::UnknownWord => 3,
            Refusal::Grammar => 4,
            Refusal::NotRising => 5,
            Refusal::Number => 6,
            Refusal::AboveFull => 7,
            Refusal::TooManyClauses => 8,
            Refusal::NoSeat => 9,
            Refusal::Counts => 10,
            Refusal::Limit => 11,
            Refusal::Year => 12,
            Refusal::FileTooLong => 13,
            Refusal::Line => 14,
            Refusal::Memory => 15,
            Refusal::NoCount => 16,
            Refusal::Uneven => 17,
            Refusal::Occupied => 21,
            Refusal::Vacant => 22,
            Refusal::AlreadyFailed => 23,
            Refusal::ProductTooLarge => 25,
            Refusal::Ending => 26,
            Refusal::Phase => 28,
        }
    }
}
