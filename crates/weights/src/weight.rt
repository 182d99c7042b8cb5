// A weight beside the full weight that it is a part of.
ghost use Rattle.std.specs.Prelude.{◌*◌, ◌^◌, ◌≤◌};

#[derive(Clone, Copy)]
pub struct Weight {
    pub weight: u64,
    pub full: u64,
    ghost some: { 1 ≤ full },
    ghost most: { full ≤ 2 * 10 ^ 17 },
    ghost part: { weight ≤ full },
}
