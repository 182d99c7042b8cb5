// The fault of a token, and how a fault is given the number of what it stands in.
ghost use Rattle.std.specs.Prelude.{◌≡◌, Ok, Err};

use refusals::Refusal;

// A refusal, and its place in the expression's text.
#[derive(Clone, Copy)]
pub struct TokenFault {
    pub refusal: Refusal,
    pub place: usize,
}

// A fault with the number of what it stands in.
#[derive(Drop)]
pub struct Numbered<F> {
    pub number: usize,
    pub fault: F,
}

// Adds the number to a fault, for the `?` after it.
pub fn with_number<T, F>(r: Result<T, F>, number: usize) -> Result<T, Numbered<F>>
    ensures { elim r [ Ok x ↦ result ≡ Ok x | Err e ↦ result ≡ Err (record { number = number; fault = e }) ] }
{
    r.map_err(|fault| Numbered { number, fault })
}
