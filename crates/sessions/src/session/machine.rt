// What a session does at a line.
ghost use Rattle.std.specs.Prelude.{◌≡◌};
ghost use Rattle.sessions.specs.Phases.{phase_of};
ghost use Rattle.sessions.specs.State.{beginning, state_of};
ghost use Rattle.sessions.specs.Machine.{Acts, Lined, done_by, Kept};

use super::calls::{fail, price, withdraw, year_end};
use super::{Case, Phase, Session};
use annuities::valuation::Valuation;
use cases::enrolling::Enrolling;
use lines::kind::Kind;
use lines::parted::part;
use refusals::Refusal;
use schemes::enrolment::enrol;
use schemes::fault::Fault;
use schemes::reading::{no_number, only_number};
use schemes::tables::Tables;
use std::mem;

impl Session {
    pub fn new() -> Session
        ensures { state_of result ≡ beginning }
    {
        Session {
            case: Case::Enrolling(Enrolling::open()),
            tables: Tables::new(),
            rate: 0,
        }
    }

    // The phase that the next line is read in.
    pub fn phase(&self) -> Phase
        ensures { phase_of result ≡ (state_of self.now).book.phase }
    {
        match self.case {
            Case::Enrolling(_) => Phase::Enrolling,
            Case::InForce(_) => Phase::InForce,
        }
    }

    // The phase and the line's kind together decide what is done, where the session is.
    fn act(&mut self, kind: Kind, rest: &[u8]) -> Result<Option<Valuation>, Fault>
        ensures acts { Acts kind rest.now (state_of self.old) (done_by result (state_of self.new)) }
        ensures kept { Kept result (state_of self.new) (state_of self.old) }
    {
        match (&mut self.case, kind) {
            (_, Kind::Rate) => self.rate = only_number(kind, rest)?,
            (Case::Enrolling(_), Kind::Table) => self.tables.extend(rest)?,
            (Case::Enrolling(case), Kind::Life) => enrol(case, &self.tables, rest)?,
            (Case::Enrolling(case), Kind::Withdraw) => withdraw(case, rest)?,
            (Case::Enrolling(case), Kind::Start) => {
                no_number(kind, rest)?;
                let case = mem::replace(case, Enrolling::open());
                self.case = Case::InForce(case.start());
            }
            (Case::InForce(case), Kind::Fail) => fail(case, rest)?,
            (Case::InForce(case), Kind::YearEnd) => year_end(case, rest)?,
            (Case::InForce(case), Kind::Benefit) => return price(case, rest, self.rate).map(Some),
            (Case::InForce(_), Kind::Close) => {
                no_number(kind, rest)?;
                let next = Case::Enrolling(Enrolling::open());
                if let Case::InForce(case) = mem::replace(&mut self.case, next) {
                    let _ = case.close();
                }
            }
            _ => return Err(Refusal::Phase.into()),
        }
        Ok(None)
    }

    // One line: its kind, then what its kind does in this phase.
    pub fn step(&mut self, line: &[u8]) -> Result<Option<Valuation>, Fault>
        ensures lined { Lined line.now (state_of self.old) (done_by result (state_of self.new)) }
        ensures kept { Kept result (state_of self.new) (state_of self.old) }
    {
        let parted = part(line).ok_or(Refusal::Line)?;
        self.act(parted.kind, parted.rest)
    }
}
