// The fault of a text that no expression goes on with.
ghost use Rattle.std.specs.Prelude.{◌≡◌};
ghost use Rattle.expressions.specs.Moves.{wrong};

use refusals::Refusal;
use tokens::faults::TokenFault;

// The grammar's fault at a place.
pub(crate) fn wrong_at(place: usize) -> TokenFault
    ensures { result ≡ wrong place }
{
    TokenFault {
        refusal: Refusal::Grammar,
        place,
    }
}
