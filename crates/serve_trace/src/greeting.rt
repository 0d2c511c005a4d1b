// What hosts greet with.
use bosh_types::{Stanzas, Text};

/// What the host of this name gives each new session, before its back end gives anything.
#[derive(Drop)]
pub struct Greeting {
    pub name: Text,
    pub stanzas: Stanzas,
}

/// What this host greets with.
pub(crate) fn greeting_of<'g>(greetings: &'g [Greeting], name: &[u8]) -> &'g [Text] {
    for greeting in greetings {
        if greeting.name.as_slice() == name {
            return greeting.stanzas.as_slice();
        }
    }
    &[]
}
