// What a weighing sees of a case in force: its seats as they stand, or with one of them supposed failed.
ghost use Rattle.std.specs.Prelude.{◌≡◌, IsNone};
ghost use Rattle.cases.specs.Views.{in_force_book, shown_book, book_of};

use super::InForce;

#[derive(Clone, Copy)]
pub struct View<'a> {
    pub(super) case: &'a InForce,
    // The seat that is taken for failed, beside the marks.
    pub(super) supposed: Option<usize>,
}

impl InForce {
    // The case itself, whatever is supposed.
    pub fn itself(&self) -> View<'_>
        ensures { book_of result ≡ in_force_book self.now }
    {
        View {
            case: self,
            supposed: None,
        }
    }

    // The case under the supposition that stands, if one does.
    #[tactic(auto, using(crate::proofs::Supposed::shown_plain))]
    pub fn as_supposed(&self) -> View<'_>
        ensures book { book_of result ≡ shown_book self.now }
        ensures plain { IsNone self.now.supposed → book_of result ≡ in_force_book self.now }
    {
        View {
            case: self,
            supposed: self.supposed,
        }
    }
}
