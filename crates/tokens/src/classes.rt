// The bytes of which there are runs.
ghost use Rattle.std.specs.Prelude.{◌≡◌, ◌+◌, ◌≤◌, length, drop};
ghost use Rattle.std.specs.List.{prefix_len};
ghost use Rattle.tokens.specs.Classes.{member};

use patterns::SEATS;

#[derive(Clone, Copy)]
pub enum Class {
    Space,
    Lower,
    Seat,
    Digit,
}

impl Class {
    // Whether a byte is of the class.
    pub(crate) fn has(self, b: u8) -> bool
        ensures { result ≡ member self b }
    {
        match self {
            Class::Space => b == b' ',
            Class::Lower => b.is_ascii_lowercase(),
            Class::Seat => (b'A'..b'A' + SEATS as u8).contains(&b),
            Class::Digit => b.is_ascii_digit(),
        }
    }
}

// Where the run of a class ends that begins at `from`.
pub fn run_end(text: &[u8], from: usize, class: Class) -> usize
    requires { from ≤ length text.now }
    ensures end { result ≡ from + prefix_len (member class) (drop from text.now) }
    ensures within { result ≤ length text.now }
{
    from + text[from..].iter().take_while(|b| class.has(**b)).count()
}
