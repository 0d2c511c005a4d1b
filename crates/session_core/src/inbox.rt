ghost use Rattle.std.specs.Prelude.{◌≡◌, ◌==◌, IfOk, OnOk, OnErr, [], ◌∷◌, ◌++◌, drop, length, slice_get};

use bosh_types::{CopyIn, Inward, copy_queue};
use std::alloc::{AllocError, Global};
use std::collections::VecDeque;
use std::marker::Model;

/// What goes inward and wasn't taken yet, in order.
#[derive(Debug, Drop)]
pub struct Inbox {
    items: VecDeque<Inward>,
}

impl Model for Inbox {
    ghost use Rattle.std.specs.Prelude.{List};
    ghost use Rattle.bosh_types.specs.declared.inward.Inward.{Inward};

    ghost Value = { List Inward };

    ghost view = { λ i. i.items.items };
}

impl Inbox {
    /// Nothing goes inward. It takes no memory.
    pub fn new(alloc: Global) -> Self
        ensures { result ≡ [] }
    {
        Inbox {
            items: VecDeque::new(alloc),
        }
    }

    pub fn is_empty(&self) -> bool
        ensures { result ≡ (length self.now == 0) }
    {
        self.items.is_empty()
    }

    /// One more item goes inward, after the others.
    pub fn push(&mut self, item: Inward) -> Result<(), AllocError>
        ensures after { OnOk result (self.new ≡ self.old ++ item ∷ []) }
        ensures err { OnErr result (self.new ≡ self.old) }
    {
        self.items.push_back(item)?;
        Ok(())
    }

    /// Takes the first item, if there is one. It takes no memory.
    pub fn take_first(&mut self) -> Option<Inward>
        ensures first { result ≡ slice_get self.old 0 }
        ensures after { self.new ≡ drop 1 self.old }
    {
        self.items.pop_front()
    }

    /// The same items a second time.
    pub fn copied(&self, alloc: Global) -> Result<Self, AllocError>
        ensures { IfOk result (λ copy. copy ≡ self.now) }
    {
        Ok(Inbox {
            items: copy_queue(alloc, &self.items)?,
        })
    }
}
