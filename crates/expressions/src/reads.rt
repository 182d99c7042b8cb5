// The reading of an expression's text.
ghost use Rattle.std.specs.Prelude.{◌≡◌, length};
ghost use Rattle.expressions.specs.Verdict.{Answered, raised};

use crate::lists::Lists;
use crate::{Pending, Reading};
use tokens::faults::TokenFault;

// Why a text cannot be read.
#[derive(Clone, Copy)]
pub enum ReadFault {
    // A list has fewer than 64 places.
    Short,
    Token(TokenFault),
}

impl From<TokenFault> for ReadFault {
    ghost from_gives = { λ e f. f ≡ raised e };

    fn from(e: TokenFault) -> ReadFault {
        ReadFault::Token(e)
    }
}

// Reads an expression.
pub fn read(text: &[u8], pending: &mut [Pending], answers: &mut [u16]) -> Result<Reading, ReadFault>
    ensures { Answered result text.now (length pending.old) (length answers.old) }
{
    let mut lists = Lists::new(pending, answers).ok_or(ReadFault::Short)?;
    Ok(lists.read(text)?)
}
