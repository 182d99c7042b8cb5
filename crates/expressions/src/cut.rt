// Cuts a text into its tokens.
ghost use Rattle.std.specs.Prelude.{◌≡◌, ◌≤◌, length, take, Ok, Err, MatchResult};
ghost use Rattle.expressions.specs.Cuts.{cut_all, lower};

use crate::MOST_TOKENS;
use refusals::Refusal;
use tokens::Token;
use tokens::faults::TokenFault;
use tokens::lexer::Lexer;

// What decides where a token too many has a fault of its own: the lower code.
fn lower_code(refusal: Refusal) -> Refusal
    ensures { result ≡ lower refusal }
{
    if refusal.code() < Refusal::TooManyTokens.code() {
        refusal
    } else {
        Refusal::TooManyTokens
    }
}

// Cuts a text into its tokens, and answers their number.
pub(crate) fn cut(text: &[u8], tokens: &mut [Token]) -> Result<usize, TokenFault>
    requires { length tokens.old ≡ 64 }
    ensures { MatchResult result (λ n. (n ≤ 64) × (cut_all text.now ≡ Ok (take n tokens.new))) (λ e. cut_all text.now ≡ Err e) }
{
    let mut lexer = Lexer::new(text);
    for i in 0..MOST_TOKENS {
        let Some(token) = lexer.peek()? else {
            return Ok(i);
        };
        tokens[i] = token;
        lexer.skip();
    }
    match lexer.peek() {
        Ok(None) => Ok(MOST_TOKENS),
        Ok(Some(Token { place, .. })) => Err(TokenFault {
            refusal: Refusal::TooManyTokens,
            place,
        }),
        Err(TokenFault { refusal, place }) => Err(TokenFault {
            refusal: lower_code(refusal),
            place,
        }),
    }
}
