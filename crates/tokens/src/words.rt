// The words of the language.
ghost use Rattle.std.specs.Prelude.{◌≡◌};
ghost use Rattle.tokens.specs.Cut.{word_of};

use crate::Code;

// The token of a word.
pub(crate) fn word(part: &[u8]) -> Option<Code>
    ensures { result ≡ word_of part.now }
{
    match part {
        b"or" => Some(Code::Or),
        b"and" => Some(Code::And),
        b"not" => Some(Code::Not),
        b"joint" => Some(Code::Joint),
        b"last" => Some(Code::Last),
        b"exactly" => Some(Code::Exactly),
        b"atleast" => Some(Code::AtLeast),
        _ => None,
    }
}
