// How a field is read.
ghost use Rattle.std.specs.Prelude.{◌≡◌, ◌==◌, length, slice_index, if◌then◌else◌};
ghost use Rattle.schemes.specs.declared.basis.Basis.TheVariants.{Listed};
ghost use Rattle.schemes.specs.Bases.{code_of};
ghost use Rattle.schemes.specs.Syntax.{shape, life_shape, read, seated, based, only};

use crate::basis::Basis;
use crate::fault::Fault;
use crate::shape::Shape;
use crate::tables::LAST_TABLE;
use benefits::MOST_AMOUNT;
use lines::kind::Kind;
use lives::life::{MOST, YEARS};
use patterns::SEATS;
use refusals::Refusal;
use writing::number::number;

// The largest number of a field that has no limit of its own.
const LARGEST: u32 = 1_000_000;

// The highest rate, in hundredths of a percent a year.
const HIGHEST_RATE: u32 = 10_000;

// How the next field of a line is read, after those that gave the numbers so far.
pub(crate) fn shape_of(kind: Kind, sofar: &[u32]) -> Shape
    ensures { result ≡ shape kind (length sofar.now) (slice_index sofar.now 1) }
{
    match kind {
        Kind::Table => Shape::UpTo(if sofar.is_empty() { LAST_TABLE } else { MOST }),
        Kind::Life => life_shape(sofar),
        Kind::Withdraw | Kind::Fail => Shape::Seat,
        Kind::Rate => Shape::UpTo(HIGHEST_RATE),
        Kind::Start | Kind::YearEnd | Kind::Close => Shape::UpTo(LARGEST),
        Kind::Benefit => Shape::Amount,
    }
}

// The same for a life's line, where the limits of two numbers go by the basis.
fn life_shape(sofar: &[u32]) -> Shape
    ensures { result ≡ life_shape (length sofar.now) (slice_index sofar.now 1) }
{
    match sofar {
        [] => Shape::Seat,
        [_] => Shape::Basis,
        [_, basis] => Shape::UpTo(limits(*basis).0),
        [_, basis, _] => Shape::UpTo(limits(*basis).1),
        [_, _, _, _] => Shape::UpTo(YEARS as u32),
        _ => Shape::UpTo(LARGEST),
    }
}

// The limits of the two numbers that a basis takes, by its code: a table and nothing, or years and a step.
fn limits(basis: u32) -> (u32, u32)
    ensures { result ≡ (if basis == code_of Listed then (3, 0) else (1000000, 1000000)) }
{
    if basis == Basis::Listed.code() {
        (LAST_TABLE, 0)
    } else {
        (LARGEST, LARGEST)
    }
}

// The seat that a field names.
fn seat(field: &[u8]) -> Option<u32>
    ensures { result ≡ seated (only field.now) }
{
    let [letter] = field else { return None };
    let seat = letter.checked_sub(b'A')?;
    (usize::from(seat) < SEATS).then_some(u32::from(seat))
}

// The code of the basis that a field names.
fn basis(field: &[u8]) -> Option<u32>
    ensures { result ≡ based (only field.now) }
{
    let [letter] = field else { return None };
    let code = u32::from(*letter);
    Basis::try_from(code).is_ok().then_some(code)
}

impl Shape {
    // The number that a field gives, the field beginning at a place.
    pub(crate) fn read(self, place: usize, field: &[u8]) -> Result<u32, Fault>
        ensures { result ≡ read self place field.now }
    {
        match self {
            Shape::Seat => seat(field).ok_or(Refusal::NoSeat.into()),
            Shape::Basis => basis(field).ok_or(Fault::At(place, Refusal::Number)),
            Shape::UpTo(limit) => number(field, limit).ok_or(Fault::At(place, Refusal::Number)),
            Shape::Amount => number(field, MOST_AMOUNT)
                .filter(|amount| *amount > 0)
                .ok_or(Fault::At(place, Refusal::Number)),
        }
    }
}
