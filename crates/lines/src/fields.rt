// The fields of a line, each after one space.
ghost use Rattle.std.specs.Prelude.{◌≡◌, ◌+◌, ◌<◌, ◌∷◌, length, drop};
ghost use Rattle.lines.specs.Pieces.{fields, FieldsStand};

use crate::pieces::find;

// The first field, and what follows it.
pub fn cut(rest: &[u8]) -> (&[u8], &[u8])
    requires { 0 < length rest.now }
    ensures parts { fields rest.now ≡ result.0.now ∷ fields result.1.now }
    ensures left { result.1.now ≡ drop (length result.0.now + 1) rest.now }
    ensures len { length rest.now ≡ length result.0.now + length result.1.now + 1 }
{
    let body = &rest[1..];
    body.split_at(find(body, b' ').unwrap_or(body.len()))
}

// What the fields of a line are.
#[tactic(auto, using(crate::proofs::Cutting::fields_stand))]
pub fn fields_stand()
    ensures { FieldsStand }
{}
