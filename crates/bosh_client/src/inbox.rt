ghost use Rattle.std.specs.Prelude.{◌≡◌, ◌==◌, OnOk, OnErr, [], ◌∷◌, ◌++◌, drop, length, slice_get};

use bosh_types::Text;
use std::alloc::{AllocError, Global};
use std::collections::VecDeque;
use std::marker::Model;

/// Payloads that came and were not handed out, in order.
#[derive(Debug, Drop)]
pub struct Inbox {
    payloads: VecDeque<Text>,
}

// Clauses see the payloads.
impl Model for Inbox {
    ghost use Rattle.std.specs.Prelude.{ℕ, List};

    ghost Value = { List (List ℕ) };

    ghost view = { λ i. i.payloads.items };
}

impl Inbox {
    /// There are none. It takes no memory.
    pub fn new(alloc: Global) -> Self
        ensures { result ≡ [] }
    {
        Inbox {
            payloads: VecDeque::new(alloc),
        }
    }

    pub fn is_empty(&self) -> bool
        ensures { result ≡ (length self.now == 0) }
    {
        self.payloads.is_empty()
    }

    /// One more comes, after the others.
    pub fn push(&mut self, payload: Text) -> Result<(), AllocError>
        ensures after { OnOk result (self.new ≡ self.old ++ payload ∷ []) }
        ensures err { OnErr result (self.new ≡ self.old) }
    {
        self.payloads.push_back(payload)?;
        Ok(())
    }

    /// Takes the first, if there is one. It takes no memory.
    pub fn take_first(&mut self) -> Option<Text>
        ensures first { result ≡ slice_get self.old 0 }
        ensures after { self.new ≡ drop 1 self.old }
    {
        self.payloads.pop_front()
    }
}
