// A case that is enrolling.
ghost use Rattle.std.specs.Prelude.{◌≡◌, ℕ, ◌+◌, ◌<◌, ◌≤◌};
ghost use Rattle.seats.specs.Seats.{first, Columns, Within};

use seats::table::SeatTable;

pub mod calls;

// Every seat has a whole column, and the counts of year 0 multiply to no more than they may.
#[derive(Drop)]
pub struct Enrolling {
    pub(crate) table: SeatTable,
    ghost columns: { Columns table.seats },
    ghost within: { Within first table.seats },
}
