// A life of one of two kinds, so that one history can have lives of both.
ghost use Rattle.either.specs.Either.{either};
ghost use Rattle.either.specs.declared.Either.TheVariants.{Left, Right};

use crate::life::{Life, YEARS};
use either::Either;

// Its counts are those of the kind that it is of.
impl<A: Life, B: Life> Life for Either<A, B> {
    ghost count = { λ x. either A.Life.count B.Life.count x };

    ghost bounded = { elim [ Left a ↦ A.Life.bounded a | Right b ↦ B.Life.bounded b ] };

    ghost falling = { elim [ Left a ↦ A.Life.falling a | Right b ↦ B.Life.falling b ] };

    ghost ended = { elim [ Left a ↦ A.Life.ended a | Right b ↦ B.Life.ended b ] };

    fn at(&self, year: u32) -> u32 {
        match self {
            Either::Left(life) => life.at(year),
            Either::Right(life) => life.at(year),
        }
    }

    fn column(&self) -> [u32; YEARS] {
        match self {
            Either::Left(life) => life.column(),
            Either::Right(life) => life.column(),
        }
    }
}
