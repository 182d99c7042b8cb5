// A text, how far it has been cut, and what stands next.
ghost use Rattle.std.specs.Prelude.{◌≡◌, ◌≤◌, length, Some, Ok};
ghost use Rattle.tokens.specs.Cut.{scan_at};
ghost use Rattle.tokens.specs.declared.scan.Scanned.{Scanned};

use crate::faults::TokenFault;
use crate::scan::Scanned;

mod peek;

#[derive(Clone, Copy)]
pub struct Lexer<'a> {
    text: &'a [u8],
    place: usize,
    // What stands next, so that each token is scanned once.
    ahead: Result<Option<Scanned>, TokenFault>,
    ghost seen: { ahead ≡ scan_at text.now place },
    ghost within: { (s : Scanned) → ahead ≡ Ok (Some s) → s.end ≤ length text.now },
}
