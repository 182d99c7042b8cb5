// What a life's counts come from, and the letter that says so in a line.
ghost use Rattle.std.specs.Prelude.{◌≡◌};
ghost use Rattle.schemes.specs.Bases.{basis_of, code_of};

use refusals::Refusal;

#[derive(Clone, Copy)]
pub enum Basis {
    // A table of counts.
    Listed,
    // A step that the counts fall by each year.
    Stepped,
}

impl Basis {
    // The code of its letter, as the numbers of a line have it.
    pub fn code(self) -> u32
        ensures { result ≡ code_of self }
    {
        match self {
            Basis::Listed => u32::from(b'a'),
            Basis::Stepped => u32::from(b'm'),
        }
    }
}

// By the code of its letter.
impl TryFrom<u32> for Basis {
    type Error = Refusal;

    ghost try_from_gives = { λ code r. r ≡ basis_of code };

    fn try_from(code: u32) -> Result<Basis, Refusal> {
        match u8::try_from(code) {
            Ok(b'a') => Ok(Basis::Listed),
            Ok(b'm') => Ok(Basis::Stepped),
            _ => Err(Refusal::Number),
        }
    }
}
