// A supposition: a seat is taken for failed while the guard stands, and the case is then what it was.
ghost use Rattle.std.specs.Prelude.{◌≡◌};
ghost use Rattle.cases.specs.Book.{judge_suppose, supposing};

use super::InForce;
use refusals::Refusal;

// Holds the case while a supposition stands: one may only weigh and value.
pub struct Supposition<'a> {
    case: &'a mut InForce,
    before: Option<usize>,
}

impl Drop for Supposition<'_> {
    fn drop(self)
        ensures supposed { self.exit.0.now.supposed ≡ self.entry.before }
        ensures table { self.exit.0.now.table ≡ self.entry.case.now.table }
        ensures elapsed { self.exit.0.now.elapsed ≡ self.entry.case.now.elapsed }
    {
        self.case.supposed = self.before;
        let Supposition { case: _, before: _ } = self;
    }
}

impl InForce {
    // Why a seat may not be supposed failed.
    pub fn test_suppose(&self, seat: usize) -> Result<(), Refusal>
        ensures { result ≡ judge_suppose self.now.table.seats seat }
    {
        self.living(seat)?;
        Ok(())
    }

    // Supposes a seat failed until the guard goes; a seat that is refused supposes nothing.
    pub fn suppose(&mut self, seat: usize) -> Supposition<'_>
        ensures lent { result.case.ghost_name ≡ self.entry.ghost_name }
        ensures before { result.before ≡ self.old.supposed }
        ensures supposed { result.case.now.supposed ≡ supposing self.old.table.seats seat }
        ensures table { result.case.now.table ≡ self.old.table }
        ensures elapsed { result.case.now.elapsed ≡ self.old.elapsed }
    {
        let before = self.supposed;
        self.supposed = self.test_suppose(seat).ok().map(|()| seat);
        Supposition { case: self, before }
    }
}

impl Supposition<'_> {
    // The case as supposed, to weigh and value.
    pub fn case(&self) -> &InForce
        ensures { result.now ≡ self.now.case.now }
    {
        self.case
    }
}
