// A back end of one of two kinds.
use crate::backend::{Backend, Passed, Polled};
use bosh_types::{Inward, Wire};

/// A back end of one of two kinds, for hosts of which some have the one and some the other.
#[derive(Drop)]
pub enum Either<A: Backend, B: Backend> {
    Left(A),
    Right(B),
}

impl<A: Backend, B: Backend> Backend for Either<A, B> {
    ghost use Rattle.xmpp_backend.specs.Either.{of_either};

    ghost told = { λ end. of_either A.told B.told end };

    ghost counts = { λ end. of_either A.counts B.counts end };

    fn open(&mut self, wire: Wire, to: &[u8]) -> Passed {
        match self {
            Either::Left(left) => left.open(wire, to),
            Either::Right(right) => right.open(wire, to),
        }
    }

    fn pass(&mut self, wire: Wire, item: &Inward) -> Passed {
        match self {
            Either::Left(left) => left.pass(wire, item),
            Either::Right(right) => right.pass(wire, item),
        }
    }

    fn poll(&mut self) -> Polled {
        match self {
            Either::Left(left) => left.poll(),
            Either::Right(right) => right.poll(),
        }
    }

    fn close(&mut self, wire: Wire) -> Passed {
        match self {
            Either::Left(left) => left.close(wire),
            Either::Right(right) => right.close(wire),
        }
    }

    fn hold(&mut self, wire: Wire) {
        match self {
            Either::Left(left) => left.hold(wire),
            Either::Right(right) => right.hold(wire),
        }
    }

    fn resume(&mut self, wire: Wire) {
        match self {
            Either::Left(left) => left.resume(wire),
            Either::Right(right) => right.resume(wire),
        }
    }
}
