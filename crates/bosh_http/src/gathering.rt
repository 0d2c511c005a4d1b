// Parts that go out together: they are gathered, and given in as few pieces as their room allows.
ghost use Rattle.std.specs.Prelude.{◌≡◌, ◌≤◌, OnOk, OnErr, map};
ghost use Rattle.std.specs.List.{concat};
ghost use Rattle.std.specs.Io.KnownBytes.{Keeps};
ghost use Rattle.bosh_ports.specs.Faults.{HasRisen};
ghost use Rattle.bosh_ports.specs.Sink.{GivesAll};
ghost use Rattle.bosh_http.specs.Gathering.{Gathers};

use arrayvec::ArrayVec;
use bosh_ports::{Link, WriteFault, send_all};

// How many bytes are gathered at most.
const MOST_GATHERED: usize = 16384;

// Where parts are gathered.
pub(crate) type Room = ArrayVec<u8, MOST_GATHERED>;

// Gives all of some parts, one after the other: all in one piece, where they fit the room.
pub(crate) fn send_gathered<L: Link>(
    room: &mut Room,
    link: &mut L,
    parts: &[&[u8]],
) -> Result<(), WriteFault>
    ensures given { GivesAll result (L.given link.old) (L.given link.new) (concat (map (λ part. part.now) parts.now)) }
    ensures left { Keeps (L.left link.old) (L.left link.new) }
    ensures fault { OnErr result (HasRisen (L.faults link.old) (L.faults link.new)) }
    ensures counts { OnOk result (L.faults link.new ≡ L.faults link.old) }
    ensures faults { L.faults link.old ≤ L.faults link.new }
{
    room.clear();
    for part in parts {
        gather(room, link, part)?;
    }
    send_all(link, room.as_slice())
}

// Gathers one more part. What has no room is given first, and a part that is longer than the room is given at once.
fn gather<L: Link>(room: &mut Room, link: &mut L, part: &[u8]) -> Result<(), WriteFault>
    ensures gathers { Gathers result (L.given link.old) (L.given link.new) room.old.items room.new.items part.now }
    ensures left { Keeps (L.left link.old) (L.left link.new) }
    ensures fault { OnErr result (HasRisen (L.faults link.old) (L.faults link.new)) }
    ensures counts { OnOk result (L.faults link.new ≡ L.faults link.old) }
    ensures faults { L.faults link.old ≤ L.faults link.new }
{
    match room.try_extend_from_slice(part) {
        Ok(()) => return Ok(()),
        Err(_) => send_all(link, room.as_slice())?,
    }
    room.clear();
    match room.try_extend_from_slice(part) {
        Ok(()) => Ok(()),
        Err(_) => send_all(link, part),
    }
}
