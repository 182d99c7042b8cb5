// A basis by a list of counts.
ghost use Rattle.std.specs.Prelude.{◌≡◌, ℕ, ◌+◌, ◌≤◌, true, false, length, replicate, MatchResult, slice_index};
ghost use Rattle.refusals.specs.declared.Refusal.TheVariants.{Counts};
ghost use Rattle.lives.specs.Counts.{listed};
ghost use Rattle.lives.specs.Tables.{Fair, fairly};
ghost use Rattle.std.proofs.Common.{subst, sym};
ghost use Rattle.std.proofs.lemmas.List.{get_or_past};

use crate::life::{Life, MOST, YEARS};
use refusals::Refusal;

#[derive(Drop)]
pub struct Aggregate {
    counts: [u32; YEARS],
    ghost whole: { length counts ≡ 121 },
    ghost bounded: { (t : ℕ) → slice_index counts t ≤ 1000000 },
    ghost falling: { (t : ℕ) → slice_index counts (t + 1) ≤ slice_index counts t },
}

// Whether a list of counts makes a life.
pub fn fair(list: &[u32]) -> bool
    ensures answer { result ≡ fairly list.now }
    ensures yes { result ≡ true → Fair list.now }
    ensures no { result ≡ false → Fair list.now → ⊥ }
{
    list.len() <= YEARS
        && list.first().is_none_or(|top| *top <= MOST)
        && list.is_sorted_by(|x, y| *x >= *y)
}

// The counts of a list of at most 121, and 0 past it.
fn filled(list: &[u32]) -> [u32; YEARS]
    requires { length list.now ≤ 121 }
    ensures { (t : ℕ) → slice_index result t ≡ slice_index list.now t }
{
    let mut counts = [0; YEARS];
    counts[..list.len()].copy_from_slice(list);
    counts
}

impl Aggregate {
    // All counts are 0 at first.
    pub fn new() -> Aggregate
        ensures { result.counts ≡ replicate 121 0 }
    {
        Aggregate { counts: [0; YEARS] }
    }

    // Year t then has entry t, and 0 past the list.
    pub fn load(&mut self, list: &[u32]) -> Result<(), Refusal>
        ensures { MatchResult result (λ _. Fair list.now × ((t : ℕ) → listed self.new.counts t ≡ listed list.now t)) (λ e. (e ≡ Counts) × (Fair list.now → ⊥) × (self.new ≡ self.old)) }
    {
        if !fair(list) {
            return Err(Refusal::Counts);
        }
        self.counts = filled(list);
        Ok(())
    }
}

impl Life for Aggregate {
    ghost count = { λ s. listed s.counts };

    ghost bounded = { λ x. x.bounded };

    ghost falling = { λ x. x.falling };

    ghost ended = { λ x t late. get_or_past x.counts t 0 (subst (λ n. n ≤ t) (sym x.whole) late) };

    fn at(&self, year: u32) -> u32 {
        self.counts.get(year as usize).copied().unwrap_or(0)
    }

    fn column(&self) -> [u32; YEARS] {
        self.counts
    }
}
