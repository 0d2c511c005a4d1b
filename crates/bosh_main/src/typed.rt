// Standard input, which a thread of its own reads into a queue, so that whoever wants a line can do something else until one came.
ghost use Rattle.std.specs.Prelude.{None};

use bosh_ports::{Bell, BellKey, Got, RealBell, Source, Woken};
use bosh_types::limits::LONGEST_LINE;
use client_run::{OVER, Ready};
use std::alloc::{AllocError, Global};
use std::collections::VecDeque;
use std::io::Read;
use std::rt::Clock;
use std::sync::{Arc, Condvar, Mutex, Wait};

/// How many bytes may wait before no more are read: the longest line and its LF. So a line is taken once all of it came, or too much.
const ROOM: usize = LONGEST_LINE + 1;

/// How many bytes are read at once.
const PIECE: usize = 4096;

/// What was read and not taken yet.
#[derive(Drop)]
struct Pile {
    bytes: VecDeque<u8>,
    lines: u64,
    has_ended: bool,
    has_failed: bool,
    is_over: bool,
}

impl Pile {
    // Whether a take would give something: a line, as many bytes as may wait, or what ended it.
    fn is_ready(&self) -> bool {
        if self.is_over || self.has_ended || self.has_failed {
            return true;
        }
        self.lines > 0 || self.bytes.len() >= ROOM
    }

    // Puts bytes behind those that wait.
    fn put(&mut self, bytes: &[u8]) {
        for byte in bytes {
            if self.bytes.push_back(*byte).is_err() {
                self.has_failed = true;
                return;
            }
            if *byte == b'\n' {
                self.lines = self.lines.saturating_add(1);
            }
        }
    }

    // Takes what waits, to the end of a line at most, and says how much that is.
    fn take(&mut self, into: &mut [u8]) -> usize {
        let mut count: usize = 0;
        for slot in into.iter_mut() {
            let Some(byte) = self.bytes.pop_front() else {
                break;
            };
            *slot = byte;
            count = count.saturating_add(1);
            if byte == b'\n' {
                self.lines = self.lines.saturating_sub(1);
                break;
            }
        }
        count
    }
}

/// The queue between the thread that reads and the one that takes.
#[derive(Drop)]
pub struct Shelf {
    pile: Mutex<Pile>,
    changed: Condvar,
}

impl Shelf {
    /// An empty one, with its room from the start.
    pub fn new(alloc: Global) -> Result<Arc<Shelf>, AllocError> {
        let bytes = VecDeque::with_capacity(alloc, ROOM + PIECE)?;
        let pile = Pile {
            bytes,
            lines: 0,
            has_ended: false,
            has_failed: false,
            is_over: false,
        };
        let shelf = Shelf {
            pile: Mutex::new(pile),
            changed: Condvar::new(),
        };
        match Arc::new(alloc, shelf) {
            Ok(shelf) => Ok(shelf),
            Err(_) => Err(AllocError),
        }
    }

    // Nothing more is wanted.
    fn close<R: Wait>(&self, rt: &R) {
        self.pile.lock(rt).is_over = true;
        self.changed.notify_all();
    }

    // Puts bytes once there is room for them.
    fn put<R: Wait>(&self, rt: &R, bytes: &[u8]) {
        let mut pile = self.changed.wait_while(rt, self.pile.lock(rt), |pile| {
            !pile.is_over && pile.bytes.len() >= ROOM
        });
        pile.put(bytes);
        self.changed.notify_all();
    }

    // The input has come to its end, or failed.
    fn end<R: Wait>(&self, rt: &R, has_failed: bool) {
        let mut pile = self.pile.lock(rt);
        pile.has_ended = true;
        pile.has_failed = pile.has_failed || has_failed;
        self.changed.notify_all();
    }

    fn is_ready<R: Wait>(&self, rt: &R) -> bool {
        self.pile.lock(rt).is_ready()
    }

    // Takes what waits, once there is something: how much, and whether the input failed.
    fn take<R: Wait>(&self, rt: &R, into: &mut [u8]) -> (usize, bool) {
        let mut pile = self
            .changed
            .wait_while(rt, self.pile.lock(rt), |pile| !pile.is_ready());
        if pile.is_over {
            return (0, false);
        }
        let count = pile.take(into);
        let has_failed = pile.has_failed;
        self.changed.notify_all();
        (count, has_failed)
    }
}

/// Reads to the end of the input, and tells each time the bell that something came.
pub fn read_to_shelf<R: Wait, I: Read, B: Bell>(
    rt: &R,
    reader: &mut I,
    shelf: &Shelf,
    bell: &mut B,
) {
    let mut room = [0u8; PIECE];
    for _ in rt.forever() {
        match reader.read(&mut room) {
            Ok(0) => {
                shelf.end(rt, false);
                break;
            }
            Ok(count) => {
                let count = count.min(room.len());
                shelf.put(rt, &room[..count]);
                bell.ring(BellKey::PUMP);
            }
            Err(_) => {
                shelf.end(rt, true);
                break;
            }
        }
    }
    bell.ring(BellKey::PUMP);
}

/// A source over such a queue. It comes to its end where the input does, or where nothing more is wanted.
#[derive(Drop)]
pub struct Typed<R: Wait + Copy + Drop> {
    rt: R,
    shelf: Arc<Shelf>,
    faults: u64,
}

impl<R: Wait + Copy + Drop> Typed<R> {
    pub fn new(rt: R, shelf: Arc<Shelf>) -> Typed<R> {
        Typed {
            rt,
            shelf,
            faults: 0,
        }
    }
}

impl<R: Wait + Copy + Drop> Source for Typed<R> {
    ghost left = { λ _. None };

    ghost faults = { λ t. t.faults };

    fn take(&mut self, into: &mut [u8]) -> Got {
        let (count, has_failed) = self.shelf.take(&self.rt, into);
        let count = count.min(into.len());
        if count > 0 {
            return Got::Bytes(count);
        }
        if has_failed {
            self.faults = self.faults.saturating_add(1);
            return Got::Failed;
        }
        Got::End
    }
}

impl<R: Wait + Copy + Drop> Ready for Typed<R> {
    fn is_ready(&self) -> bool {
        self.shelf.is_ready(&self.rt)
    }
}

/// A bell whose ring of a worker that has ended closes the queue too.
#[derive(Drop)]
pub struct ClosingBell<R: Wait + Clock + Copy + Drop> {
    rt: R,
    bell: RealBell<R>,
    shelf: Arc<Shelf>,
}

impl<R: Wait + Clock + Copy + Drop> ClosingBell<R> {
    pub fn new(rt: R, bell: RealBell<R>, shelf: Arc<Shelf>) -> ClosingBell<R> {
        ClosingBell { rt, bell, shelf }
    }
}

impl<R: Wait + Clock + Copy + Drop> Bell for ClosingBell<R> {
    ghost silences = { λ _. 0 };

    fn tune(&mut self, key: BellKey) {
        self.bell.tune(key);
    }

    fn wait(&mut self) -> Woken {
        let _ = self.bell.wait();
        Woken::Rung
    }

    fn ring(&mut self, key: BellKey) {
        if key == OVER {
            self.shelf.close(&self.rt);
        }
        self.bell.ring(key);
    }

    fn share(&self) -> Result<ClosingBell<R>, AllocError> {
        let bell = self.bell.share()?;
        let shelf = Arc::try_clone(&self.shelf)?;
        Ok(ClosingBell {
            rt: self.rt,
            bell,
            shelf,
        })
    }
}
