// Sets of seats, as the numbers of patterns.
ghost use Rattle.std.specs.Prelude.{◌≡◌};
ghost use Rattle.patterns.specs.Anys.{is_member};

// Whether a seat is in the set of a number.
pub fn is_member(set: usize, seat: usize) -> bool
    ensures { result ≡ is_member set seat }
{
    seat < 64 && (set >> seat) % 2 == 1
}
