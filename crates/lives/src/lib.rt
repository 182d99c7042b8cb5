// Lives: what a life means, the bases that a table or a rule gives, the adjustments over any life, and a life of one of two kinds.
#![tactic(auto)]

pub mod aged;
pub mod aggregate;
pub mod demoivre;
pub mod kinds;
pub mod life;
pub mod projected;
