// A case in force.
ghost use Rattle.std.specs.Prelude.{◌≡◌, ℕ, ◌+◌, ◌<◌, ◌≤◌};
ghost use Rattle.seats.specs.Seats.{present, Columns, Within};

use seats::table::SeatTable;

pub mod calls;
pub mod numbers;
pub mod suppose;
pub mod view;
pub mod weigh;

// Every seat has a whole column, and the present counts are at least 1 and multiply to no more than they may.
#[derive(Drop)]
pub struct InForce {
    table: SeatTable,
    elapsed: u32,
    // The seat that is supposed failed, beside the marks.
    supposed: Option<usize>,
    ghost columns: { Columns table.seats },
    ghost within: { Within (present elapsed) table.seats },
    ghost young: { elapsed ≤ 120 },
}

// What is left of a case when it is closed: the elapsed years and the number of failed seats.
#[derive(Clone, Copy, PartialEq, Eq, Debug)]
pub struct Closed {
    pub elapsed: u32,
    pub failed: usize,
}
