// The answer of a reading in one pattern.
ghost use Rattle.std.specs.Prelude.{◌≡◌};
ghost use Rattle.expressions.specs.Answers.{yes};

use crate::Reading;
use patterns::PATTERNS;

impl Reading {
    // Whether what was read holds in a pattern.
    pub fn holds(self, pattern: usize) -> bool
        ensures { result ≡ yes self pattern }
    {
        pattern < PATTERNS && self.answers >> pattern & 1 == 1
    }
}
