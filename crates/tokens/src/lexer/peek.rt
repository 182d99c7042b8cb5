// What a lexer sees next, and going past it.
ghost use Rattle.std.specs.Prelude.{◌≡◌};
ghost use Rattle.tokens.specs.Look.{look, after, lexed, at};

use super::Lexer;
use crate::Token;
use crate::faults::TokenFault;
use crate::scan::scan;

impl<'a> Lexer<'a> {
    // A lexer at the front of a text.
    pub fn new(text: &'a [u8]) -> Lexer<'a>
        ensures text { lexed result ≡ text.now }
        ensures place { at result ≡ 0 }
    {
        let ahead = scan(text, 0);
        Lexer {
            text,
            place: 0,
            ahead,
        }
    }

    // The next token, or none at the text's end.
    pub fn peek(&self) -> Result<Option<Token>, TokenFault>
        ensures { result ≡ look (lexed self.now) (at self.now) }
    {
        Ok(self.ahead?.map(|s| s.token))
    }

    // Goes past the next token, where there is one.
    pub fn skip(&mut self)
        ensures text { lexed self.new ≡ lexed self.old }
        ensures place { at self.new ≡ after (lexed self.old) (at self.old) }
    {
        if let Ok(Some(s)) = self.ahead {
            let ahead = scan(self.text, s.end);
            self.place = s.end;
            self.ahead = ahead;
        }
    }
}
