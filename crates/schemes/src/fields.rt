// The fields of a line, each with the place in the line where it begins.
ghost use Rattle.std.specs.Prelude.{◌≡◌, ◌+◌, ◌≤◌, ◌^◌, length};

use lines::fields::cut;

// The place of a line where its first field begins, after its kind and a space.
pub(crate) const FIRST: usize = 2;

// What is left of a line, and the place where its first field begins.
#[derive(Drop)]
pub(crate) struct Fields<'a> {
    place: usize,
    left: &'a [u8],
    ghost fits: { place + length left.now ≤ 2 ^ 63 + 1 },
}

impl<'a> Fields<'a> {
    ghost use Rattle.lines.specs.Pieces.{fields};
    ghost use Rattle.schemes.specs.Places.{placed, ahead};

    // Those of what follows a line's kind.
    pub(crate) fn of(rest: &'a [u8]) -> Fields<'a>
        ensures { ahead result ≡ placed 2 (fields rest.now) }
    {
        Fields {
            place: FIRST,
            left: rest,
        }
    }
}

impl<'a> Iterator for Fields<'a> {
    ghost use Rattle.std.specs.Iterator.{YieldsFirstBy, item_count};
    ghost use Rattle.schemes.specs.Places.{ahead, seen};

    type Item = (usize, &'a [u8]);

    ghost next_gives = { YieldsFirstBy seen ahead };

    ghost remaining = { item_count ahead };

    fn next(&mut self) -> Option<(usize, &'a [u8])> {
        if self.left.is_empty() {
            return None;
        }
        let place = self.place;
        let (field, left) = cut(self.left);
        *self = Fields {
            place: place + field.len() + 1,
            left,
        };
        Some((place, field))
    }
}
