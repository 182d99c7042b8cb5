// What a history is made of, and what is answered at its end.
use annuities::valuation::Valuation;
use benefits::benefit::Benefit;
use refusals::Refusal;
use routes::route::Route;

// A call on a case that is enrolling.
#[derive(Drop)]
pub enum Enrolment<L> {
    Enrol(usize, L),
    Withdraw(usize),
}

// A look at a case in force: a benefit is weighed for a year, or valued at a rate, by a route.
#[derive(Clone, Copy)]
pub enum Look<'a> {
    Weigh(&'a Benefit, u32, Route),
    Value(&'a Benefit, u32, Route),
}

// A call on a case in force; a supposition with all the looks while it stands, until it ends.
#[derive(Drop)]
pub enum Event<'l, 'b> {
    Fail(usize),
    YearEnd,
    Suppose(usize, &'l [Look<'b>]),
    Look(Look<'b>),
}

// A history of a case: the calls while enrolling, the start, the calls in force, and the supposition that stands now, if one does.
#[derive(Drop)]
pub struct History<'a, L> {
    pub enrolments: &'a [Enrolment<L>],
    pub events: &'a [Event<'a, 'a>],
    pub supposed: Option<usize>,
}

// What one route answers: the weight for a year, the yearly factor of that year, and the factor and value.
#[derive(Clone, Copy)]
pub struct Worked {
    pub weight: Result<u64, Refusal>,
    pub factor: Result<u64, Refusal>,
    pub valuation: Result<Valuation, Refusal>,
}

// What the three routes answer.
#[derive(Clone, Copy)]
pub struct Account {
    pub patterns: Worked,
    pub subsets: Worked,
    pub counts: Worked,
}
