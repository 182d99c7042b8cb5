// The ways to read a field.

#[derive(Clone, Copy)]
pub enum Shape {
    // The letter of a seat, for its number.
    Seat,
    // The letter of a basis, for its code.
    Basis,
    // A number up to a limit.
    UpTo(u32),
    // An amount, which is not 0.
    Amount,
}
