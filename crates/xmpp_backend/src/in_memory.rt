// A back end of any kind in memory.
use crate::backend::{Backend, Passed, Polled};
use crate::echo::Echo;
use crate::room::Room;
use crate::scripted::Scripted;
use bosh_types::{Inward, Wire};

/// A back end of one of the kinds in memory, for hosts of which each has a kind of its own.
#[derive(Drop)]
pub enum InMemory {
    Echo(Echo),
    Room(Room),
    Scripted(Scripted),
}

impl Backend for InMemory {
    ghost use Rattle.std.specs.Prelude.{Some};
    ghost use Rattle.xmpp_backend.specs.InMemory.{counted_in, told_in};

    ghost told = { λ end. Some (told_in end) };

    ghost counts = { λ end. counted_in end };

    fn open(&mut self, wire: Wire, to: &[u8]) -> Passed {
        match self {
            InMemory::Echo(echo) => echo.open(wire, to),
            InMemory::Room(room) => room.open(wire, to),
            InMemory::Scripted(scripted) => scripted.open(wire, to),
        }
    }

    fn pass(&mut self, wire: Wire, item: &Inward) -> Passed {
        match self {
            InMemory::Echo(echo) => echo.pass(wire, item),
            InMemory::Room(room) => room.pass(wire, item),
            InMemory::Scripted(scripted) => scripted.pass(wire, item),
        }
    }

    fn poll(&mut self) -> Polled {
        match self {
            InMemory::Echo(echo) => echo.poll(),
            InMemory::Room(room) => room.poll(),
            InMemory::Scripted(scripted) => scripted.poll(),
        }
    }

    fn close(&mut self, wire: Wire) -> Passed {
        match self {
            InMemory::Echo(echo) => echo.close(wire),
            InMemory::Room(room) => room.close(wire),
            InMemory::Scripted(scripted) => scripted.close(wire),
        }
    }

    fn hold(&mut self, wire: Wire) {
        match self {
            InMemory::Echo(echo) => echo.hold(wire),
            InMemory::Room(room) => room.hold(wire),
            InMemory::Scripted(scripted) => scripted.hold(wire),
        }
    }

    fn resume(&mut self, wire: Wire) {
        match self {
            InMemory::Echo(echo) => echo.resume(wire),
            InMemory::Room(room) => room.resume(wire),
            InMemory::Scripted(scripted) => scripted.resume(wire),
        }
    }
}
