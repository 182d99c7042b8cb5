// A basis that falls by the same step each year, until nobody is left.
ghost use Rattle.std.specs.Prelude.{◌≡◌, ℕ, ◌*◌, ◌≤◌, MatchResult};
ghost use Rattle.refusals.specs.declared.Refusal.TheVariants.{Limit};
ghost use Rattle.lives.specs.Counts.{straight};
ghost use Rattle.std.proofs.Common.{◌∙◌, ap, mul-zero};
ghost use Rattle.std.proofs.Math.Nat.{mul-le-mul_left, le_trans, le-add_right, sub-le, sub-le-sub_left, sub-eq-zero_of_le};

use crate::life::{Life, MOST, YEARS};
use refusals::Refusal;

#[derive(Drop)]
pub struct DeMoivre {
    years: u32,
    step: u32,
    ghost short: { years ≤ 120 },
    ghost small: { step * years ≤ 1000000 },
}

impl DeMoivre {
    // All counts are 0 at first.
    pub fn new() -> DeMoivre
        ensures { (t : ℕ) → straight result.years result.step t ≡ 0 }
    {
        DeMoivre { years: 0, step: 0 }
    }

    // The counts then fall by the step in each of the years.
    pub fn load(&mut self, years: u32, step: u32) -> Result<(), Refusal>
        ensures { MatchResult result (λ _. (years ≤ 120) × (step * years ≤ 1000000) × (self.new.years ≡ years) × (self.new.step ≡ step)) (λ e. (e ≡ Limit) × (years ≤ 120 → step * years ≤ 1000000 → ⊥) × (self.new ≡ self.old)) }
    {
        if years as usize >= YEARS || u64::from(step) * u64::from(years) > u64::from(MOST) {
            return Err(Refusal::Limit);
        }
        self.years = years;
        self.step = step;
        Ok(())
    }
}

impl Life for DeMoivre {
    ghost count = { λ s. straight s.years s.step };

    ghost bounded = { λ x t. le_trans (mul-le-mul_left x.step (sub-le x.years t)) x.small };

    ghost falling = { λ x t. mul-le-mul_left x.step (sub-le-sub_left (le-add_right t 1) x.years) };

    ghost ended = { λ x t late. ap (λ n. x.step * n) (sub-eq-zero_of_le (le_trans x.short (le_trans (le-add_right 120 1) late))) ∙ mul-zero x.step };

    fn at(&self, year: u32) -> u32 {
        self.step * self.years.saturating_sub(year)
    }
}
