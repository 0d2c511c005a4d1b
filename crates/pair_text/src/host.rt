ghost use Rattle.std.specs.Prelude.{IsTrue};
ghost use Rattle.session_attrs.specs.Serving.{can_serve};

use bosh_types::{Stanzas, Text};

// A host with its greeting, at which sessions can be opened.
#[derive(Drop)]
pub(crate) struct Host {
    pub(crate) name: Text,
    pub(crate) greeting: Stanzas,
    pub(crate) ghost serves: { IsTrue (can_serve (record { name = name; greeting = greeting })) },
}
