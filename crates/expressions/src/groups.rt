// The answers of a group of seats.
ghost use Rattle.std.specs.Prelude.{◌≡◌};
ghost use Rattle.expressions.specs.Meaning.{group_holds};
ghost use Rattle.expressions.specs.Masks.{group_mask};
ghost use Rattle.expressions.specs.States.{counted};

use crate::{Count, Group};
use patterns::PATTERNS;

impl Count {
    // The group of a word and its digit.
    pub(crate) fn group(self, digit: u8) -> Group
        ensures { result ≡ counted self digit }
    {
        match self {
            Count::Exact => Group::Exactly(digit),
            Count::Least => Group::AtLeast(digit),
        }
    }
}

impl Group {
    // Whether a group of the seats in a set holds in a pattern.
    fn holds(self, set: u8, pattern: u8) -> bool
        ensures { result ≡ group_holds self set pattern }
    {
        let alive = (set & pattern).count_ones();
        match self {
            Group::Joint => alive == set.count_ones(),
            Group::Last => alive > 0,
            Group::Exactly(n) => alive == u32::from(n),
            Group::AtLeast(n) => alive >= u32::from(n),
        }
    }

    // The answers of a group of the seats in a set, one bit for each pattern.
    pub(crate) fn mask(self, set: u8) -> u16
        ensures { result ≡ group_mask self set }
    {
        let mut mask = 0;
        for pattern in 0..PATTERNS as u8 {
            if self.holds(set, pattern) {
                mask |= 1 << pattern;
            }
        }
        mask
    }
}
