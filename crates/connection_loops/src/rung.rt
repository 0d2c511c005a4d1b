// The keys that were rung for.
use crate::bits::{Bits, KEY_BITS, WORD};
use std::alloc::{AllocError, Global};

/// Bits that were rung for, one for each bit of a key, and beside them one for each word of these, so that few words are looked at where few
/// bits are set. A word's bit is set after a bit of the word, and cleared before the word is looked at once more: so where the word has a bit
/// that nobody took, its own bit is set, or is just about to be.
#[derive(Drop)]
pub(crate) struct Rung {
    bits: Bits,
    words: Bits,
}

impl Rung {
    /// Nothing was rung for. The only error is want of memory.
    pub(crate) fn new(alloc: Global) -> Result<Rung, AllocError> {
        Ok(Rung {
            bits: Bits::with_len(alloc, KEY_BITS)?,
            words: Bits::with_len(alloc, KEY_BITS / WORD)?,
        })
    }

    pub(crate) fn set(&self, bit: u16) {
        self.bits.set(usize::from(bit));
        self.words.set(usize::from(bit) / WORD);
    }

    pub(crate) fn is_clear(&self) -> bool {
        self.words.is_clear()
    }

    /// Takes the least bit that is set of this one and those above it.
    pub(crate) fn take_from(&self, bit: u16) -> Option<u16> {
        let mut from = usize::from(bit);
        for _ in 0..KEY_BITS / WORD {
            let word = self.words.first_from(from / WORD)?;
            let next = word.saturating_add(1).saturating_mul(WORD);
            let first = self.bits.first_from(from.max(word.saturating_mul(WORD)));
            let taken = first.filter(|first| *first < next && self.bits.take(*first));
            self.settle(word);
            if let Some(taken) = taken {
                return u16::try_from(taken).ok();
            }
            from = next;
        }
        None
    }

    // A bit of this word was taken, or none was found there.
    fn settle(&self, word: usize) {
        self.words.clear(word);
        if self.bits.word(word) != 0 {
            self.words.set(word);
        }
    }
}
