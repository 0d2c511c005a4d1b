ghost use Rattle.std.specs.Prelude.{◌≡◌, ◌↔◌, IfOk, IsTrue};
ghost use Rattle.std.specs.Option.{option_copied};
ghost use Rattle.key_sequence.specs.Current.{fits, current_after};

use crate::digest::digest_of;
use bosh_types::{CopyIn, Text};
use std::alloc::{AllocError, Global};
use std::marker::Model;

/// What a key is found to be.
#[derive(Clone, Copy, Debug, PartialEq, Eq)]
pub enum Verdict {
    /// The session goes on.
    Good,
    /// The key is missing, or is not the one that was announced.
    Wrong,
}

/// The keys of one session as its requests come, in the order of their ids (XEP-0124, section 15.4).
#[derive(Debug, Drop)]
pub struct KeyCheck {
    current: Option<Text>,
}

// Clauses see the key that was sent or announced last, none in a session without keys.
impl Model for KeyCheck {
    ghost use Rattle.std.specs.Prelude.{ℕ, List, Option};

    ghost Value = { Option (List ℕ) };

    ghost view = { λ c. c.current };
}

impl KeyCheck {
    /// Begins with the `newkey` of the creation. A session without one has no keys, and ignores those that come.
    pub fn start(newkey: Option<Text>) -> Self
        ensures { result ≡ newkey }
    {
        KeyCheck { current: newkey }
    }

    /// Whether a request may carry this `key`. It takes no memory.
    pub fn fits(&self, key: Option<&Text>) -> bool
        ensures { result ≡ fits self.now (option_copied key.entry) }
    {
        let Some(current) = &self.current else {
            return true;
        };
        let Some(key) = key else {
            return false;
        };
        digest_of(key.as_slice()).as_slice() == current.as_slice()
    }

    /// Checks the `key` of a request, and goes on from its `newkey`, or else from its `key`. It takes no memory.
    pub fn accept(&mut self, key: Option<Text>, newkey: Option<Text>) -> Verdict
        ensures verdict { (result ≡ Verdict.Good) ↔ IsTrue (fits self.old key) }
        ensures good { result ≡ Verdict.Good → self.new ≡ current_after self.old key newkey }
        ensures wrong { result ≡ Verdict.Wrong → self.new ≡ self.old }
    {
        if !self.fits(key.as_ref()) {
            return Verdict::Wrong;
        }
        if self.current.is_none() {
            return Verdict::Good;
        }
        self.current = newkey.or(key);
        Verdict::Good
    }

    /// A second check that goes on from the same key.
    pub fn copied(&self, alloc: Global) -> Result<Self, AllocError>
        ensures { IfOk result (λ check. check ≡ self.now) }
    {
        Ok(KeyCheck {
            current: self.current.copy_in(alloc)?,
        })
    }
}
