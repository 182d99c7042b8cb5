// The token at a place, and where the text goes on after it.
ghost use Rattle.std.specs.Prelude.{◌≡◌, ℕ, ◌<◌, ◌≤◌, true, length, slice_index};
ghost use Rattle.tokens.specs.declared.classes.Class.TheVariants.{Seat};
ghost use Rattle.tokens.specs.Classes.{member};
ghost use Rattle.tokens.specs.Cut.{set_of, bit_of, mark_of, or_else, token, refused, scan_at, Within};

use crate::classes::{Class, run_end};
use crate::faults::TokenFault;
use crate::words::word;
use crate::{Code, Token};
use refusals::Refusal;

// A token and where the text goes on after it.
#[derive(Clone, Copy)]
pub(crate) struct Scanned {
    pub token: Token,
    pub end: usize,
}

// The set of one seat.
fn bit(b: u8) -> u8
    requires { member Seat b ≡ true }
    ensures { result ≡ bit_of b }
{
    1 << (b - b'A')
}

// The set of the seats of a run, or none where its letters do not rise.
fn seat_set(run: &[u8]) -> Option<u8>
    requires { (k : ℕ) → k < length run.now → member Seat (slice_index run.now k) ≡ true }
    ensures { result ≡ set_of 0 0 run.now }
{
    let mut last = 0;
    let mut set = 0;
    for b in run {
        if last >= *b {
            return None;
        }
        last = *b;
        set |= bit(*b);
    }
    Some(set)
}

// The token of one byte.
fn mark(b: u8) -> Option<Code>
    ensures { result ≡ mark_of b }
{
    match b {
        b'0'..=b'9' => Some(Code::Digit(b - b'0')),
        b'(' => Some(Code::Open),
        b')' => Some(Code::Close),
        b'[' => Some(Code::OpenSquare),
        b']' => Some(Code::CloseSquare),
        _ => None,
    }
}

// The token from a place to an end, or the refusal where there is none.
fn token(
    code: Option<Code>,
    place: usize,
    end: usize,
    refusal: Refusal,
) -> Result<Option<Scanned>, TokenFault>
    ensures { result ≡ or_else code (token place end) (refused refusal place) }
{
    let code = code.ok_or(TokenFault { refusal, place })?;
    let token = Token { code, place };
    Ok(Some(Scanned { token, end }))
}

// The first token from a place on, or none at the text's end.
pub(crate) fn scan(text: &[u8], from: usize) -> Result<Option<Scanned>, TokenFault>
    requires { from ≤ length text.now }
    ensures value { result ≡ scan_at text.now from }
    ensures within { Within result (length text.now) }
{
    let place = run_end(text, from, Class::Space);
    let Some(b) = text.get(place).copied() else {
        return Ok(None);
    };
    if Class::Lower.has(b) {
        let end = run_end(text, place, Class::Lower);
        token(word(&text[place..end]), place, end, Refusal::UnknownWord)
    } else if Class::Seat.has(b) {
        let end = run_end(text, place, Class::Seat);
        let letters = seat_set(&text[place..end]).map(Code::Letters);
        token(letters, place, end, Refusal::NotRising)
    } else {
        token(mark(b), place, place + 1, Refusal::UnknownByte)
    }
}
