// The two lists that a reading works in.
ghost use Rattle.std.specs.Prelude.{◌≤◌, length};

use crate::Pending;

mod lent;

// Each has a place for every token.
#[derive(Drop)]
pub struct Lists<'a> {
    pending: &'a mut [Pending],
    answers: &'a mut [u16],
    ghost words: { 64 ≤ length pending.now },
    ghost masks: { 64 ≤ length answers.now },
}
