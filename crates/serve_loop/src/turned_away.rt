// A connection for which there is no room.
ghost use Rattle.std.specs.Prelude.{◌≡◌, ◌≤◌};
ghost use Rattle.std.specs.Io.KnownBytes.{Keeps};
ghost use Rattle.bosh_ports.specs.Link.{Closes};
ghost use Rattle.bosh_ports.specs.Sink.{AppendsFront};
ghost use Rattle.serve_loop.specs.Connections.{message};

use crate::owed::Owed;
use bosh_ports::Polled;
use polled_http::Rooms;

/// A connection for which there is no room is told so by 503, as far as its link takes that at once, and is closed. Nothing is read of it.
pub fn turn_away<K: Polled>(rooms: &mut Rooms, link: &mut K)
    ensures left { Keeps (K.left link.old) (K.left link.new) }
    ensures given { AppendsFront (K.given link.old) (K.given link.new) (message Owed.NoMemory) }
    ensures closed { Closes (K.closed link.old) (K.closed link.new) }
    ensures faults { K.faults link.old ≤ K.faults link.new }
{
    let owed = Owed::NoMemory;
    let _ = rooms
        .giving
        .give(link, owed.status(), owed.text(), owed.closes(), 0);
    link.close();
}
