// A line's life: its basis, aged, projected, and then enrolled.
ghost use Rattle.std.specs.Prelude.{◌≡◌, Ok, IsOk, length, slice_index};
ghost use Rattle.cases.specs.Views.{enrolling_book};
ghost use Rattle.schemes.specs.Bases.{basis_of};
ghost use Rattle.schemes.specs.Counts.{lists};
ghost use Rattle.schemes.specs.Enrolment.{enrolled, joined, Leaves, enrolled_by, by_step, by_table};

use crate::basis::Basis;
use crate::fault::Fault;
use crate::reading::numbers;
use crate::tables::Tables;
use cases::enrolling::Enrolling;
use lines::kind::Kind;
use lives::aged::Aged;
use lives::aggregate::Aggregate;
use lives::demoivre::DeMoivre;
use lives::life::Life;
use lives::projected::Projected;
use refusals::Refusal;

// What a line says of a life beside its basis.
#[derive(Clone, Copy)]
struct Terms {
    seat: usize,
    aged: u32,
    factor: u32,
}

impl Terms {
    // The adjustments and the call, from a basis that is loaded.
    fn enrol<B: Life + Drop>(self, case: &mut Enrolling, basis: B) -> Result<(), Refusal>
        ensures { Leaves (enrolled (Ok (B.Life.count basis)) self.seat self.aged self.factor (enrolling_book case.old)) result (enrolling_book case.new) (enrolling_book case.old) }
    {
        let mut life = Projected::new(Aged::new(basis, self.aged));
        life.scale_all(self.factor)?;
        case.enrol(self.seat, &life)
    }

    // A life by a list of counts.
    fn enrol_listed(self, case: &mut Enrolling, list: &[u32]) -> Result<(), Refusal>
        ensures { Leaves (enrolled (by_table list.now) self.seat self.aged self.factor (enrolling_book case.old)) result (enrolling_book case.new) (enrolling_book case.old) }
    {
        let mut basis = Aggregate::new();
        basis.load(list)?;
        self.enrol(case, basis)
    }

    // A life that falls by one step each year.
    fn enrol_stepped(self, case: &mut Enrolling, years: u32, step: u32) -> Result<(), Refusal>
        ensures { Leaves (enrolled (by_step years step) self.seat self.aged self.factor (enrolling_book case.old)) result (enrolling_book case.new) (enrolling_book case.old) }
    {
        let mut basis = DeMoivre::new();
        basis.load(years, step)?;
        self.enrol(case, basis)
    }
}

// A life by the six numbers of its line.
fn enrol_by(case: &mut Enrolling, tables: &Tables, numbers: &[u32]) -> Result<(), Refusal>
    requires six { length numbers.now ≡ 6 }
    requires based { IsOk (basis_of (slice_index numbers.now 1)) }
    ensures { Leaves (enrolled_by numbers.now (lists tables.now.tables) (enrolling_book case.old)) result (enrolling_book case.new) (enrolling_book case.old) }
{
    let [seat, basis, x, y, aged, factor] = numbers else {
        unreachable!()
    };
    let terms = Terms {
        seat: *seat as usize,
        aged: *aged,
        factor: *factor,
    };
    match Basis::try_from(*basis).unwrap() {
        Basis::Listed => terms.enrol_listed(case, tables.at(*x as usize)),
        Basis::Stepped => terms.enrol_stepped(case, *x, *y),
    }
}

// A life by the fields of its line.
pub fn enrol(case: &mut Enrolling, tables: &Tables, rest: &[u8]) -> Result<(), Fault>
    ensures { Leaves (joined rest.now (lists tables.now.tables) (enrolling_book case.old)) result (enrolling_book case.new) (enrolling_book case.old) }
{
    let numbers = numbers(Kind::Life, rest)?;
    enrol_by(case, tables, &numbers)?;
    Ok(())
}
