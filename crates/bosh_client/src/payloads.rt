ghost use Rattle.std.specs.Prelude.{◌≡◌, ◌==◌, [], drop, length, slice_get};
ghost use Rattle.bosh_client.specs.PlainClient.{on_stream};

use crate::inbox::Inbox;
use bosh_types::{StreamNo, Text};
use std::alloc::Global;
use std::marker::Model;

/// The payloads of one answer that were not handed out, in order: all lie on one stream.
#[derive(Debug, Drop)]
pub(crate) struct Payloads {
    on: StreamNo,
    texts: Inbox,
}

// Clauses see each payload beside its stream.
impl Model for Payloads {
    ghost use Rattle.std.specs.Prelude.{ℕ, List};
    ghost use Rattle.bosh_client.specs.PlainClient.{on_stream};

    ghost Value = { List (ℕ × List ℕ) };

    ghost view = { λ p. on_stream p.on p.texts };
}

impl Payloads {
    /// There are none. It takes no memory.
    pub(crate) fn none(alloc: Global) -> Self
        ensures { result ≡ [] }
    {
        Payloads::new(StreamNo::unnamed(), Inbox::new(alloc))
    }

    pub(crate) fn new(on: StreamNo, texts: Inbox) -> Self
        ensures { result ≡ on_stream on texts }
    {
        Payloads { on, texts }
    }

    pub(crate) fn is_empty(&self) -> bool
        ensures { result ≡ (length self.now == 0) }
    {
        self.texts.is_empty()
    }

    /// Takes the first, if there is one. It takes no memory.
    pub(crate) fn take_first(&mut self) -> Option<(StreamNo, Text)>
        ensures first { result ≡ slice_get self.old 0 }
        ensures after { self.new ≡ drop 1 self.old }
    {
        let text = self.texts.take_first()?;
        Some((self.on, text))
    }
}
