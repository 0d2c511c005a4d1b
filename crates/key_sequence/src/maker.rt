ghost use Rattle.std.specs.Prelude.{◌≡◌, ◌-◌, ◌≤◌, [], ◌∷◌, IfOk, IfSome, IfNone};
ghost use Rattle.key_sequence.specs.Chain.{key_of, keys_down};

use crate::digest::digest_of;
use bosh_types::Key;
use std::alloc::{AllocError, Global};
use std::marker::Model;

/// The keys of one client: the last of its sequence announces the others, which are sent from the last but one down to
/// the first (XEP-0124, section 15.3). All are made at once, so it has room for 40 bytes a key, and sending one costs
/// nothing.
#[derive(Debug, Drop)]
pub struct KeyMaker {
    newkey: Key,
    // The keys that are still to be sent, the next one last.
    keys: Vec<Key>,
}

// Clauses see the key that announces the others, and those that are still to be sent, the next one first.
impl Model for KeyMaker {
    ghost use Rattle.std.specs.Prelude.{reverse};
    ghost use Rattle.key_sequence.specs.Unsent.{Unsent};

    ghost Value = { Unsent };

    ghost view = { λ m. record { newkey = m.newkey; left = reverse m.keys.items } };
}

impl KeyMaker {
    /// A sequence of `n` keys from a seed.
    pub fn new(alloc: Global, seed: &[u8], n: u32) -> Result<Self, AllocError>
        requires some { 2 ≤ n }
        requires few { n ≤ 4096 }
        ensures newkey { IfOk result (λ maker. maker.newkey ≡ key_of seed.now n) }
        ensures left { IfOk result (λ maker. maker.left ≡ keys_down seed.now (n - 1)) }
    {
        let mut keys = Vec::with_capacity(alloc, n as usize - 1)?;
        let mut newkey = digest_of(seed);
        for _number in 1..n {
            keys.push(newkey)?;
            newkey = digest_of(newkey.as_slice());
        }
        Ok(KeyMaker { newkey, keys })
    }

    /// The last key of the sequence, which announces the others. It takes no memory.
    pub fn newkey(&self) -> Key
        ensures { result ≡ self.now.newkey }
    {
        self.newkey
    }

    /// The next key to send: `None` exactly after the first of the sequence was sent. It takes no memory.
    pub fn next_key(&mut self) -> Option<Key>
        ensures newkey { self.new.newkey ≡ self.old.newkey }
        ensures some { IfSome result (λ key. self.old.left ≡ key ∷ self.new.left) }
        ensures none { IfNone result (self.old.left ≡ []) }
        ensures spent { IfNone result (self.new.left ≡ []) }
    {
        self.keys.pop()
    }
}
