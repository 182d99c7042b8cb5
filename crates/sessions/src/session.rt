// What a session holds between two lines.
ghost use Rattle.sessions.specs.Phases.{Plain};

use cases::enrolling::Enrolling;
use cases::inforce::InForce;
use schemes::tables::Tables;

mod calls;
mod machine;

// The phase of a file.
#[derive(Clone, Copy)]
pub enum Phase {
    Enrolling,
    InForce,
}

// The case that the lines speak of, in its phase.
#[derive(Drop)]
pub enum Case {
    Enrolling(Enrolling),
    InForce(InForce),
}

// No line supposes anything.
#[derive(Drop)]
pub struct Session {
    case: Case,
    tables: Tables,
    rate: u32,
    ghost plain: { Plain case },
}
