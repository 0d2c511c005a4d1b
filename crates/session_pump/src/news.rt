// What a pump has to tell of the sessions that it met and of those that it removed, where somebody wants to know.
ghost use Rattle.std.specs.Prelude.{◌≡◌, ◌+◌, ◌-◌, ◌^◌, ◌++◌, ◌∷◌, ◌⊎◌, [], false, min, true};

use bosh_types::{Ending, SharedText};
use std::alloc::Global;

/// A session that was met.
#[derive(Debug, Drop)]
pub struct Met {
    pub number: u64,
    pub sid: SharedText,
    /// The place of its host, where it is one of the server's.
    pub host: Option<usize>,
}

/// A session that was removed from the directory.
#[derive(Debug, Drop)]
pub struct Removed {
    pub number: u64,
    pub sid: SharedText,
    /// How it had ended.
    pub ending: Option<Ending>,
}

/// The sessions that a pump met, and those that it removed, since that was taken last. Where nobody wants to know nothing is kept.
#[derive(Drop)]
pub struct News {
    is_wanted: bool,
    pub met: Vec<Met>,
    pub removed: Vec<Removed>,
    /// How many of them found no memory.
    pub lost: u64,
}

impl News {
    /// Nothing was met, and nobody wants to know. It takes no memory.
    pub(crate) fn new(alloc: Global) -> News
        ensures wanted { result.is_wanted ≡ false }
        ensures met { result.met.items ≡ [] }
        ensures removed { result.removed.items ≡ [] }
    {
        News {
            is_wanted: false,
            met: Vec::new(alloc),
            removed: Vec::new(alloc),
            lost: 0,
        }
    }

    /// Somebody wants to know from here on.
    pub fn want(&mut self)
        ensures wanted { self.new.is_wanted ≡ true }
        ensures same { self.new ≡ record self.old { is_wanted = true } }
    {
        self.is_wanted = true;
    }

    /// All was taken.
    pub fn clear(&mut self)
        ensures met { self.new.met.items ≡ [] }
        ensures removed { self.new.removed.items ≡ [] }
        ensures lost { self.new.lost ≡ 0 }
        ensures wanted { self.new.is_wanted ≡ self.old.is_wanted }
    {
        self.met.clear();
        self.removed.clear();
        self.lost = 0;
    }

    /// A session was met, where that is so. What finds no memory is counted.
    pub(crate) fn meet(&mut self, is_new: bool, number: u64, sid: &SharedText, host: Option<usize>)
        ensures quiet { self.old.is_wanted ≡ false → self.new ≡ self.old }
        ensures known { is_new ≡ false → self.new ≡ self.old }
        ensures told { self.old.is_wanted ≡ true → is_new ≡ true
            → (self.new.met.items ≡ self.old.met.items ++ (record { number = number; sid = sid.now; host = host }) ∷ []) ⊎ (self.new.lost ≡ min (self.old.lost + 1) (2 ^ 64 - 1)) }
        ensures removed { self.new.removed ≡ self.old.removed }
    {
        if !self.is_wanted {
            return;
        }
        if !is_new {
            return;
        }
        let Ok(sid) = sid.again() else {
            self.lose();
            return;
        };
        let met = Met { number, sid, host };
        if self.met.push(met).is_err() {
            self.lose();
        }
    }

    /// A session was removed. What finds no memory is counted.
    pub(crate) fn remove(&mut self, number: u64, sid: &SharedText, ending: Option<Ending>)
        ensures quiet { self.old.is_wanted ≡ false → self.new ≡ self.old }
        ensures told { self.old.is_wanted ≡ true
            → (self.new.removed.items ≡ self.old.removed.items ++ (record { number = number; sid = sid.now; ending = ending }) ∷ []) ⊎ (self.new.lost ≡ min (self.old.lost + 1) (2 ^ 64 - 1)) }
        ensures met { self.new.met ≡ self.old.met }
    {
        if !self.is_wanted {
            return;
        }
        let Ok(sid) = sid.again() else {
            self.lose();
            return;
        };
        let removed = Removed {
            number,
            sid,
            ending,
        };
        if self.removed.push(removed).is_err() {
            self.lose();
        }
    }

    fn lose(&mut self)
        ensures { self.new ≡ record self.old { lost = min (self.old.lost + 1) (2 ^ 64 - 1) } }
    {
        self.lost = self.lost.saturating_add(1);
    }
}
