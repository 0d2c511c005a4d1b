ghost use Rattle.std.specs.Prelude.{◌≡◌, ◌<◌, ◌≤◌, ◌++◌, [], IsTrue, false, OnErr, OnOk, drop, length};

use std::alloc::{AllocError, Global};
use std::marker::Model;

// Bytes that are taken off the front and put to the end. It is seen as those that it has.
#[derive(Drop)]
pub(crate) struct Kept {
    bytes: Vec<u8>,
    at: usize,
}

impl Model for Kept {
    ghost use Rattle.std.specs.Prelude.{ℕ, ◌≤◌, List, drop, vec_len};

    ghost Value = { List ℕ };

    ghost view = { λ k. drop k.at k.bytes.items };

    ghost invariant = { λ k. k.at ≤ vec_len k.bytes };
}

impl Kept {
    pub(crate) fn new(alloc: Global) -> Kept
        ensures { result ≡ [] }
    {
        Kept {
            bytes: Vec::new(alloc),
            at: 0,
        }
    }

    pub(crate) fn of(bytes: Vec<u8>) -> Kept
        ensures { result ≡ bytes.items }
    {
        Kept { bytes, at: 0 }
    }

    pub(crate) fn is_empty(&self) -> bool
        ensures yes { IsTrue result → self.now ≡ [] }
        ensures no { result ≡ false → 0 < length self.now }
    {
        self.at == self.bytes.len()
    }

    pub(crate) fn as_slice(&self) -> &[u8]
        ensures { result.now ≡ self.now }
    {
        &self.bytes[self.at..]
    }

    // Forgets so many bytes.
    pub(crate) fn skip(&mut self, count: usize)
        requires { count ≤ length self.old }
        ensures { self.new ≡ drop count self.old }
    {
        self.at += count;
    }

    pub(crate) fn push(&mut self, piece: &[u8]) -> Result<(), AllocError>
        ensures ok { OnOk result (self.new ≡ self.old ++ piece.now) }
        ensures err { OnErr result (self.new ≡ self.old) }
    {
        self.move_down()?;
        self.bytes.extend_from_slice(piece)
    }

    // Gives the room of what was forgotten back.
    fn move_down(&mut self) -> Result<(), AllocError>
        ensures { self.new ≡ self.old }
    {
        if self.at > 0 {
            let rest = self.bytes.split_off(self.at)?;
            self.bytes = rest;
            self.at = 0;
        }
        Ok(())
    }
}
