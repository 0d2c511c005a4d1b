use crate::row::Row;
use crate::text::{Stanzas, Text};

/// A host that the manager serves: its name, and the stanzas that greet each new stream to it.
#[derive(Debug, Drop)]
pub struct HostName {
    pub name: Text,
    pub greeting: Stanzas,
}

/// Hosts in order.
pub type HostNames = Row<HostName>;
