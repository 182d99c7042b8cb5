// What a benefit is worth.
#[derive(Clone, Copy, PartialEq, Eq, Debug)]
pub struct Valuation {
    // The sum of the yearly factors, in hundred-millionths.
    pub factor: u64,
    // The present value of the amount.
    pub value: u64,
}
