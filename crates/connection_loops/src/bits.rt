// Bits that threads set and take without a lock.
ghost use Rattle.std.specs.Prelude.{◌≡◌, ◌%◌};

use bosh_ports::BellKey;
use std::alloc::{AllocError, Global};
use std::sync::atomic::{AtomicU64, Ordering};

/// How many bits stand for all keys.
pub(crate) const KEY_BITS: usize = 65_536;

/// How many bits a word has.
pub(crate) const WORD: usize = 64;

/// The bit of a key. Keys that differ by less than 65,536 have different ones.
pub fn bit_of(key: BellKey) -> u16
    ensures { result ≡ key.0 % 65536 }
{
    (key.0 % KEY_BITS as u64) as u16
}

/// Bits in words of 64, at first all clear. A bit that there isn't is never set.
#[derive(Drop)]
pub struct Bits {
    words: Vec<AtomicU64>,
}

impl Bits {
    /// At least so many bits. The only error is want of memory.
    pub fn with_len(alloc: Global, count: usize) -> Result<Bits, AllocError> {
        let len = count.div_ceil(WORD);
        let mut words = Vec::with_capacity(alloc, len)?;
        for _ in 0..len {
            words.push(AtomicU64::new(0))?;
        }
        Ok(Bits { words })
    }

    pub fn set(&self, bit: usize) {
        if let Some(word) = self.words.get(bit / WORD) {
            word.fetch_or(mask_of(bit), Ordering::SeqCst);
        }
    }

    pub fn clear(&self, bit: usize) {
        if let Some(word) = self.words.get(bit / WORD) {
            word.fetch_and(!mask_of(bit), Ordering::SeqCst);
        }
    }

    pub fn has(&self, bit: usize) -> bool {
        self.word(bit / WORD) & mask_of(bit) != 0
    }

    /// Clears a bit, and says whether it was set.
    pub fn take(&self, bit: usize) -> bool {
        let Some(word) = self.words.get(bit / WORD) else {
            return false;
        };
        let mask = mask_of(bit);
        word.load(Ordering::SeqCst) & mask != 0
            && word.fetch_and(!mask, Ordering::SeqCst) & mask != 0
    }

    /// The word with this number, as it is now.
    pub(crate) fn word(&self, at: usize) -> u64 {
        match self.words.get(at) {
            Some(word) => word.load(Ordering::SeqCst),
            None => 0,
        }
    }

    pub fn is_clear(&self) -> bool {
        for word in &self.words {
            if word.load(Ordering::SeqCst) != 0 {
                return false;
            }
        }
        true
    }

    /// The least bit that is set of this one and those above it.
    pub fn first_from(&self, bit: usize) -> Option<usize> {
        let mut left = self.word(bit / WORD) & (u64::MAX << (bit % WORD) as u32);
        for at in bit / WORD..self.words.len() {
            if left != 0 {
                return Some(
                    at.saturating_mul(WORD)
                        .saturating_add(left.trailing_zeros() as usize),
                );
            }
            left = self.word(at.saturating_add(1));
        }
        None
    }
}

fn mask_of(bit: usize) -> u64 {
    1u64 << (bit % WORD) as u32
}
