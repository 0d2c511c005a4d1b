// Where sessions get their names, and clients their first request ids.
ghost use Rattle.std.specs.Prelude.{◌≡◌, ◌≤◌, IfOk, List, ℕ};
ghost use Rattle.server_ports.specs.Names.{IsNamePart, greatest_first};

use bosh_types::{Rid, Text};
use http_server::Log;
use std::alloc::{AllocError, Global};

/// A maker of names and of first request ids. There are no faults; memory may be wanted.
pub trait Names {
    ghost use Rattle.std.specs.Prelude.{[]};
    ghost use Rattle.server_ports.specs.Names.{Draws};

    // The names that it gave so far, in order.
    ghost drawn: { Self → List (List ℕ) };

    /// The first part of a session's name: 1 to 32 letters, digits and `-`, the last of which is no digit, so that names stay
    /// different where different numbers are put to them.
    fn name(&mut self) -> Result<Text, AllocError>
        ensures part { IfOk result IsNamePart }
        ensures drawn { Draws (drawn self.old) (drawn self.new) result };

    /// A request id to begin with, at most 4294967296, so that a client's ids last.
    fn first_rid(&mut self) -> Rid
        ensures low { result ≤ greatest_first }
        ensures drawn { drawn self.new ≡ drawn self.old };

    /// Another maker, for another thread, which gave none yet.
    fn share(&mut self) -> Self
    where
        Self: Sized,
        ensures fresh { drawn result ≡ [] }
        ensures drawn { drawn self.new ≡ drawn self.old };
}

/// Always the same name and the same id.
#[derive(Drop)]
pub struct GivenNames {
    alloc: Global,
    name: &'static [u8],
    first: Rid,
    drawn: Log<Text, ()>,
    ghost fits: { IsNamePart name.now },
    ghost low: { first ≤ greatest_first },
}

impl GivenNames {
    ghost use Rattle.std.specs.Prelude.{[]};
    ghost use Rattle.server_ports.specs.Names.{drawn_in};

    pub fn new(alloc: Global, name: &'static [u8], first: Rid) -> GivenNames
        requires name { IsNamePart name.now }
        requires first { first ≤ greatest_first }
        ensures name { result.name.now ≡ name.now }
        ensures first { result.first ≡ first }
        ensures drawn { drawn_in result.drawn.items ≡ [] }
    {
        GivenNames {
            alloc,
            name,
            first,
            drawn: Log::new(),
        }
    }
}

impl Names for GivenNames {
    ghost use Rattle.std.specs.Prelude.{[]};
    ghost use Rattle.server_ports.specs.Names.{Draws, drawn_in};

    ghost drawn = { λ n. drawn_in n.drawn.items };

    fn name(&mut self) -> Result<Text, AllocError>
        ensures part { IfOk result (λ name. IsNamePart name × (name ≡ self.old.name.now)) }
        ensures drawn { Draws (drawn_in self.old.drawn.items) (drawn_in self.new.drawn.items) result }
    {
        let name = Text::from_vec(Vec::from_slice(self.alloc, self.name)?);
        self.drawn = self.drawn.and(&name, &());
        Ok(name)
    }

    fn first_rid(&mut self) -> Rid
        ensures low { result ≤ greatest_first }
        ensures drawn { drawn_in self.new.drawn.items ≡ drawn_in self.old.drawn.items }
        ensures given { result ≡ self.old.first }
    {
        self.first
    }

    fn share(&mut self) -> GivenNames
        ensures fresh { drawn_in result.drawn.items ≡ [] }
        ensures drawn { drawn_in self.new.drawn.items ≡ drawn_in self.old.drawn.items }
        ensures name { result.name.now ≡ self.old.name.now }
        ensures first { result.first ≡ self.old.first }
    {
        GivenNames::new(self.alloc, self.name, self.first)
    }
}
