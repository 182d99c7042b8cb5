// An adjustment: a life whose deaths are scaled year by year.
ghost use Rattle.std.specs.Prelude.{◌≡◌, ℕ, ◌<◌, ◌≤◌, length, replicate, if◌then◌else◌, MatchResult, nat_lt, slice_index, slice_set};
ghost use Rattle.refusals.specs.declared.Refusal.TheVariants.{Limit, Year};
ghost use Rattle.lives.specs.Projection.{deaths, projected, entries};
ghost use Rattle.std.proofs.Common.{le_trans};
ghost use Rattle.lives.specs.Projections.{projected_le, projected-falls, projected_ended};

use crate::life::{Life, YEARS};
use refusals::Refusal;

// The most that a factor can be.
const MOST_FACTOR: u32 = 10_000;

// The factors of years 0 to 120, in thousandths.
#[derive(Drop)]
pub struct Projected<L> {
    life: L,
    factors: [u32; YEARS],
    ghost factored: { length factors ≡ 121 },
    ghost limited: { (t : ℕ) → slice_index factors t ≤ 10000 },
}

// The deaths of a year among those alive, from the counts below of this year and the next.
#[tactic(auto, unfolding(crate::specs::Projection::deaths))]
fn deaths(here: u32, next: u32, factor: u32, alive: u32) -> u32
    requires some { 0 < here }
    requires falls { next ≤ here }
    requires bounded { here ≤ 1000000 }
    requires limited { factor ≤ 10000 }
    requires small { alive ≤ 1000000 }
    ensures { result ≡ deaths here next factor alive }
{
    let scaled = u64::from(alive) * u64::from(here - next) * u64::from(factor);
    let cut = scaled / (u64::from(here) * 1000);
    cut.min(u64::from(alive)) as u32
}

impl<L: Life> Projected<L> {
    // All factors are 1,000 at first.
    pub fn new(life: L) -> Projected<L>
        ensures { (result.life ≡ life) × (result.factors ≡ replicate 121 1000) }
    {
        Projected {
            life,
            factors: [1000; YEARS],
        }
    }

    // Sets the factor of one year.
    pub fn scale(&mut self, year: u32, factor: u32) -> Result<(), Refusal>
        ensures { MatchResult result (λ _. (year ≤ 120) × (factor ≤ 10000) × (self.new.life ≡ self.old.life) × (self.new.factors ≡ slice_set self.old.factors year factor)) (λ e. (e ≡ (if nat_lt 120 year then Year else Limit)) × (year ≤ 120 → 10000 < factor) × (self.new ≡ self.old)) }
    {
        if year as usize >= YEARS {
            return Err(Refusal::Year);
        }
        if factor > MOST_FACTOR {
            return Err(Refusal::Limit);
        }
        self.factors[year as usize] = factor;
        Ok(())
    }

    // Sets the factor of all years.
    pub fn scale_all(&mut self, factor: u32) -> Result<(), Refusal>
        ensures { MatchResult result (λ _. (factor ≤ 10000) × (self.new.life ≡ self.old.life) × (self.new.factors ≡ replicate 121 factor)) (λ e. (e ≡ Limit) × (10000 < factor) × (self.new ≡ self.old)) }
    {
        if factor > MOST_FACTOR {
            return Err(Refusal::Limit);
        }
        self.factors.fill(factor);
        Ok(())
    }
}

impl<L: Life> Life for Projected<L> {
    ghost count = { λ s. projected (L.Life.count s.life) (entries s.factors) };

    ghost bounded = { λ x t. le_trans (projected_le (L.Life.count x.life) (entries x.factors) t) (L.Life.bounded x.life 0) };

    ghost falling = { λ x t. projected-falls (L.Life.count x.life) (entries x.factors) t };

    ghost ended = { λ x t late. projected_ended (L.Life.count x.life) (entries x.factors) t (L.Life.ended x.life t late) };

    fn at(&self, year: u32) -> u32 {
        if year as usize >= YEARS {
            return 0;
        }
        self.column()[year as usize]
    }

    fn column(&self) -> [u32; YEARS] {
        let mut counts = self.life.column();
        let mut here = counts[0];
        let mut alive = here;
        for (t, count) in counts[1..].iter_mut().enumerate() {
            let next = *count;
            if next == 0 {
                break;
            }
            alive -= deaths(here, next, self.factors[t], alive);
            *count = alive;
            here = next;
        }
        counts
    }
}
