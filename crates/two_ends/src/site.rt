ghost use Rattle.std.specs.Prelude.{IsTrue};
ghost use Rattle.two_ends.specs.Serves.{serves};

use bosh_types::{Stanzas, Text};

// The host of the one session, with its greeting.
#[derive(Drop)]
pub struct Site {
    pub(crate) host: Text,
    pub(crate) greeting: Stanzas,
    pub(crate) ghost served: { IsTrue (serves host greeting) },
}
