// The fields of a line, left to right.
ghost use Rattle.std.specs.Prelude.{◌≡◌, ℕ, List, [], take, Ok, Err, MatchResult};
ghost use Rattle.lines.specs.Pieces.{fields};
ghost use Rattle.schemes.specs.Most.{most};
ghost use Rattle.schemes.specs.Syntax.{counted, reads, given, one, none, amount, clauses_place, clauses_text, ReadsStand};

use crate::fault::Fault;
use crate::fields::{FIRST, Fields};
use crate::reader::shape_of;
use crate::shape::Shape;
use arrayvec::ArrayVec;
use lines::fields::cut;
use lines::kind::Kind;
use lives::life::YEARS;
use refusals::Refusal;

// A table's number, and one more count than a table holds.
const MOST: usize = YEARS + 2;

// The numbers of a line's fields, as many as a line can use.
pub(crate) type Numbers = ArrayVec<u32, MOST>;

// The amount of a benefit's line, the text of its clauses, and where in the line that begins.
#[derive(Clone, Copy)]
pub struct Priced<'a> {
    pub amount: u32,
    pub place: usize,
    pub clauses: &'a [u8],
}

// Whether a line of the kind has so many fields.
fn complete(kind: Kind, count: usize) -> bool
    ensures { result ≡ counted kind count }
{
    match kind {
        Kind::Table | Kind::Benefit => count > 1,
        Kind::Life => count == 6,
        Kind::Withdraw | Kind::Rate | Kind::Fail => count == 1,
        Kind::Start | Kind::YearEnd | Kind::Close => count == 0,
    }
}

// The numbers of the fields, or why the first that is refused is.
fn read_all(kind: Kind, rest: &[u8]) -> Result<Numbers, Fault>
    ensures { MatchResult result (λ ns. (all : List ℕ) × (reads kind [] 2 (fields rest.now) ≡ Ok all) × (ns.items ≡ take most all)) (λ e. reads kind [] 2 (fields rest.now) ≡ Err e) }
{
    let mut numbers = Numbers::new();
    for (place, field) in Fields::of(rest) {
        let n = shape_of(kind, &numbers).read(place, field)?;
        let _ = numbers.try_push(n);
    }
    Ok(numbers)
}

// The numbers of a line that has as many fields as its kind.
pub(crate) fn numbers(kind: Kind, rest: &[u8]) -> Result<Numbers, Fault>
    ensures { MatchResult result (λ ns. (all : List ℕ) × (given kind rest.now ≡ Ok all) × (ns.items ≡ take most all)) (λ e. given kind rest.now ≡ Err e) }
{
    if !complete(kind, Fields::of(rest).count()) {
        return Err(Refusal::Line.into());
    }
    read_all(kind, rest)
}

// The number of a line that has one.
pub fn only_number(kind: Kind, rest: &[u8]) -> Result<u32, Fault>
    ensures { result ≡ one kind rest.now }
{
    let numbers = numbers(kind, rest)?;
    Ok(numbers.first().copied().unwrap_or(0))
}

// Whether a line that has no fields has none.
pub fn no_number(kind: Kind, rest: &[u8]) -> Result<(), Fault>
    ensures { result ≡ none kind rest.now }
{
    let _numbers = numbers(kind, rest)?;
    Ok(())
}

// The amount of a benefit's line, and its clauses.
pub fn amount_and_clauses(rest: &[u8]) -> Result<Priced<'_>, Fault>
    ensures { MatchResult result (λ p. (amount rest.now ≡ Ok p.amount) × (p.place ≡ clauses_place rest.now) × (p.clauses.now ≡ clauses_text rest.now)) (λ e. amount rest.now ≡ Err e) }
{
    if rest.is_empty() {
        return Err(Refusal::Line.into());
    }
    let (field, after) = cut(rest);
    let [_, clauses @ ..] = after else {
        return Err(Refusal::Line.into());
    };
    let amount = Shape::Amount.read(FIRST, field)?;
    Ok(Priced {
        amount,
        place: FIRST + field.len() + 1,
        clauses,
    })
}

// Fields read left to right give their numbers, or the first that is refused.
#[tactic(auto, using(crate::proofs::Giving::reads_stand))]
pub fn reads_stand()
    ensures { ReadsStand }
{}
