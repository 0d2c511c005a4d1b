// Where a loop is rung for, from any thread.
use crate::bits::{Bits, KEY_BITS, bit_of};
use crate::rung::Rung;
use bosh_ports::BellKey;
use std::alloc::{AllocError, Global};
use std::sync::atomic::{AtomicU64, Ordering};

/// What ends the wait of a loop, from any thread.
pub trait Rouse {
    fn rouse(&self);
}

/// The door of a loop. A ring takes neither a lock nor memory, and none is lost: who waits for something tunes, then looks for it, and then
/// waits; who brings it rings afterwards. So either the look finds it, or the ring finds that somebody waits.
#[derive(Drop)]
pub struct Door<W: Rouse + Drop> {
    // The keys that were rung for, and those that somebody of this loop waits for.
    rung: Rung,
    awaited: Bits,
    // How many things were left here and not taken.
    left: AtomicU64,
    is_closed: AtomicU64,
    // The loop waits, or is about to.
    sleeps: AtomicU64,
    rouse: W,
}

impl<W: Rouse + Drop> Door<W> {
    /// Nobody rang, and nobody waits. The only error is want of memory.
    pub fn new(alloc: Global, rouse: W) -> Result<Door<W>, AllocError> {
        Ok(Door {
            rung: Rung::new(alloc)?,
            awaited: Bits::with_len(alloc, KEY_BITS)?,
            left: AtomicU64::new(0),
            is_closed: AtomicU64::new(0),
            sleeps: AtomicU64::new(0),
            rouse,
        })
    }

    /// Somebody of the loop waits for rings with this key from here on. It has to look for what it waits for after this, and before it waits.
    pub fn tune(&self, key: BellKey) {
        self.awaited.set(usize::from(bit_of(key)));
    }

    /// What was waited for with this key may have come. A loop of which nobody waits for it is left alone.
    pub fn ring(&self, key: BellKey) {
        let bit = bit_of(key);
        if !self.awaited.has(usize::from(bit)) {
            return;
        }
        self.rung.set(bit);
        self.wake();
    }

    /// Takes the least bit that was rung for, of this one and those above it: whoever waited for a key of it has to look, and tunes again where
    /// it waits on.
    pub fn take_rung(&self, from: u16) -> Option<u16> {
        let bit = self.rung.take_from(from)?;
        self.awaited.clear(usize::from(bit));
        Some(bit)
    }

    /// Something was left here.
    pub(crate) fn leave_one(&self) {
        self.left.fetch_add(1, Ordering::SeqCst);
        self.wake();
    }

    /// Something that was left was taken.
    pub(crate) fn take_one(&self) {
        self.left.fetch_sub(1, Ordering::SeqCst);
    }

    pub(crate) fn has_some(&self) -> bool {
        self.left.load(Ordering::SeqCst) != 0
    }

    /// Nothing more is left here.
    pub fn close(&self) {
        self.is_closed.store(1, Ordering::SeqCst);
        self.wake();
    }

    /// Whether nothing more is left here, and all was taken.
    pub fn is_done(&self) -> bool {
        self.is_closed.load(Ordering::SeqCst) != 0 && !self.has_some()
    }

    /// The loop is about to wait. False where something is here for it: then it must not.
    pub fn lie_down(&self) -> bool {
        self.sleeps.store(1, Ordering::SeqCst);
        if self.is_quiet() {
            return true;
        }
        self.sleeps.store(0, Ordering::SeqCst);
        false
    }

    fn is_quiet(&self) -> bool {
        self.rung.is_clear() && !self.has_some() && self.is_closed.load(Ordering::SeqCst) == 0
    }

    /// The wait has ended.
    pub fn get_up(&self) {
        self.sleeps.store(0, Ordering::SeqCst);
    }

    fn wake(&self) {
        if self.sleeps.swap(0, Ordering::SeqCst) != 0 {
            self.rouse.rouse();
        }
    }
}
