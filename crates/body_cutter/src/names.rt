ghost use Rattle.std.specs.Prelude.{◌≡◌, List, [], ◌∷◌, length, not, slice_get, OnOk, IfOk};
ghost use Rattle.std.specs.Bool.{OnTrue, OnFalse};
ghost use Rattle.body_cutter.specs.Names.{around, due, has_name, is_empty, with_count, with_name, without_first};

use crate::place::{Around, Kind};
use std::alloc::{AllocError, Global};
use std::collections::BTreeSet;
use std::marker::Model;

/// A byte of a name, and how many bytes of it there are with this one.
fn byte_at(name: &[u8], count: usize) -> Option<(u8, usize)>
    ensures { result ≡ with_count count (slice_get name.now count) }
{
    if count < name.len() {
        Some((name[count], count + 1))
    } else {
        None
    }
}

/// The names of the open elements, the innermost first.
#[derive(Drop)]
pub(crate) struct OpenNames {
    names: Vec<Vec<u8>>,
}

impl Model for OpenNames {
    ghost use Rattle.std.specs.Prelude.{List, ℕ, reverse, map};

    ghost Value = { List (List ℕ) };

    ghost view = { λ o. reverse (map (λ name. name.items) o.names.items) };
}

impl OpenNames {
    pub(crate) fn new(alloc: Global) -> Self
        ensures { result ≡ [] }
    {
        OpenNames {
            names: Vec::new(alloc),
        }
    }

    pub(crate) fn len(&self) -> usize
        ensures { result ≡ length self.now }
    {
        self.names.len()
    }

    pub(crate) fn is_empty(&self) -> bool
        ensures { result ≡ is_empty self.now }
    {
        self.names.is_empty()
    }

    pub(crate) fn push(&mut self, name: Vec<u8>) -> Result<(), AllocError>
        ensures { OnOk result (self.new ≡ name.items ∷ self.old) }
    {
        self.names.push(name)?;
        Ok(())
    }

    /// Forgets the innermost, if there is one.
    pub(crate) fn pop(&mut self)
        ensures { self.new ≡ without_first self.old }
    {
        let _ = self.names.pop();
    }

    #[inline]
    #[tactic(auto, unfolding(crate::specs::Names::around))]
    pub(crate) fn around(&self, kind: Kind) -> Around
        ensures { result ≡ around kind self.now }
    {
        match (kind, self.names.len()) {
            (Kind::Body, 0) => Around::NoBody,
            (Kind::Body, 1) => Around::Body,
            (Kind::Stanza, 0) => Around::NoStanza,
            _ => Around::Child,
        }
    }

    /// What is due of the innermost name after so many bytes.
    #[inline]
    #[tactic(auto, unfolding(crate::specs::Names::due))]
    pub(crate) fn due(&self, count: usize) -> Option<(u8, usize)>
        ensures { result ≡ due self.now count }
    {
        let open = self.names.len();
        if open == 0 {
            return None;
        }
        let name = &self.names[open - 1];
        byte_at(name.as_slice(), count)
    }
}

/// The names of the attributes of one tag.
#[derive(Drop)]
pub(crate) struct NameSet {
    names: BTreeSet<Vec<u8>>,
}

impl Model for NameSet {
    ghost use Rattle.std.specs.Prelude.{List, ℕ, map};

    ghost Value = { List (List ℕ) };

    ghost view = { λ s. map (λ name. name.items) s.names.keys };
}

impl NameSet {
    pub(crate) fn new(alloc: Global) -> Self
        ensures { result ≡ [] }
    {
        NameSet {
            names: BTreeSet::new(alloc),
        }
    }

    pub(crate) fn len(&self) -> usize
        ensures { result ≡ length self.now }
    {
        self.names.len()
    }

    /// Adds a name, and answers whether it is new. If it isn't, nothing changes.
    pub(crate) fn add(&mut self, name: Vec<u8>) -> Result<bool, AllocError>
        ensures added { IfOk result (λ added. added ≡ not (has_name self.old name.items)) }
        ensures new_name { IfOk result (λ added. OnTrue added (self.new ≡ with_name self.old name.items)) }
        ensures known_name { IfOk result (λ added. OnFalse added (self.new ≡ self.old)) }
    {
        Ok(self.names.insert(name)?)
    }
}
