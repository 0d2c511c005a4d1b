// The room that bytes are taken into: it is made once, and neither cleared nor moved at each take.
ghost use Rattle.std.specs.Prelude.{◌≡◌, ◌+◌, ◌≤◌, ◌<◌, ◌↔◌, IsTrue, [], length, take, drop, slice_range, vec_len, OnOk, ◌++◌};
ghost use Rattle.std.specs.Io.KnownBytes.{Keeps};
ghost use Rattle.bosh_ports.specs.Faults.{HasRisen};
ghost use Rattle.bosh_ports.specs.Source.{CountsTake, Takes};

use bosh_ports::{Got, Link};
use std::alloc::{AllocError, Global};

// How many bytes there is room for at first.
const FIRST_ROOM: usize = 4096;

// How much room is kept while nothing is in it.
const LARGEST_IDLE: usize = 65536;

// Takes bytes off a link into the room after its first bytes.
fn take_after<L: Link>(link: &mut L, room: &mut [u8], first: usize) -> Got
    requires { first < length room.old }
    ensures front { take first room.new ≡ take first room.old }
    ensures len { length room.new ≡ length room.old }
    ensures takes { Takes (L.left link.old) (L.left link.new) (drop first room.new) result }
    ensures given { Keeps (L.given link.old) (L.given link.new) }
    ensures failed { result ≡ Got.Failed → HasRisen (L.faults link.old) (L.faults link.new) }
    ensures counts { CountsTake (L.faults link.old) (L.faults link.new) result }
    ensures faults { L.faults link.old ≤ L.faults link.new }
{
    link.take(&mut room[first..])
}

// Writes some bytes into the room after its first bytes.
fn put_after(room: &mut [u8], first: usize, bytes: &[u8])
    requires { first + length bytes.now ≤ length room.old }
    ensures front { take first room.new ≡ take first room.old }
    ensures len { length room.new ≡ length room.old }
    ensures bytes { take (length bytes.now) (drop first room.new) ≡ bytes.now }
{
    room[first..first + bytes.len()].copy_from_slice(bytes);
}

// Bytes of which those from start to end are kept. What stands behind them is room for more.
#[derive(Debug, Drop)]
pub(crate) struct Room {
    pub(crate) bytes: Vec<u8>,
    pub(crate) start: usize,
    pub(crate) end: usize,
}

impl Room {
    pub(crate) fn new(alloc: Global) -> Self
        ensures bytes { result.bytes.items ≡ [] }
        ensures start { result.start ≡ 0 }
        ensures end { result.end ≡ 0 }
    {
        Room {
            bytes: Vec::new(alloc),
            start: 0,
            end: 0,
        }
    }

    // Whether there is room for so many more.
    fn has(&self, count: usize) -> bool
        requires { self.now.end ≤ vec_len self.now.bytes }
        ensures { IsTrue result ↔ (self.now.end + count ≤ vec_len self.now.bytes) }
    {
        count <= self.bytes.len() - self.end
    }

    // Makes room for so many bytes behind those that are kept. It is doubled where it is full.
    pub(crate) fn reserve(&mut self, count: usize) -> Result<(), AllocError>
        requires ordered { self.old.start ≤ self.old.end }
        requires within { self.old.end ≤ vec_len self.old.bytes }
        ensures ordered { self.new.start ≤ self.new.end }
        ensures within { self.new.end ≤ vec_len self.new.bytes }
        ensures same { slice_range self.new.bytes.items self.new.start self.new.end ≡ slice_range self.old.bytes.items self.old.start self.old.end }
        ensures has { OnOk result (self.new.end + count ≤ vec_len self.new.bytes) }
    {
        if self.has(count) {
            return Ok(());
        }
        self.move_down();
        if self.has(count) {
            return Ok(());
        }
        self.grow(count)
    }

    // Moves what is kept to the front.
    fn move_down(&mut self)
        requires ordered { self.old.start ≤ self.old.end }
        requires within { self.old.end ≤ vec_len self.old.bytes }
        ensures ordered { self.new.start ≤ self.new.end }
        ensures within { self.new.end ≤ vec_len self.new.bytes }
        ensures same { slice_range self.new.bytes.items self.new.start self.new.end ≡ slice_range self.old.bytes.items self.old.start self.old.end }
    {
        if self.start == 0 {
            return;
        }
        self.bytes.copy_within(self.start..self.end, 0);
        self.end -= self.start;
        self.start = 0;
    }

    fn grow(&mut self, count: usize) -> Result<(), AllocError>
        requires ordered { self.old.start ≤ self.old.end }
        requires within { self.old.end ≤ vec_len self.old.bytes }
        ensures start { self.new.start ≡ self.old.start }
        ensures end { self.new.end ≡ self.old.end }
        ensures within { self.new.end ≤ vec_len self.new.bytes }
        ensures same { slice_range self.new.bytes.items self.old.start self.old.end ≡ slice_range self.old.bytes.items self.old.start self.old.end }
        ensures has { OnOk result (self.new.end + count ≤ vec_len self.new.bytes) }
    {
        let Some(least) = self.end.checked_add(count) else {
            return Err(AllocError);
        };
        let twice = self.bytes.len().saturating_mul(2);
        let wanted = least.max(twice).max(FIRST_ROOM);
        self.bytes.resize(wanted, 0)
    }

    // Takes bytes off a link behind those that are kept.
    pub(crate) fn take<L: Link>(&mut self, link: &mut L) -> Got
        requires ordered { self.old.start ≤ self.old.end }
        requires has { self.old.end < vec_len self.old.bytes }
        ensures start { self.new.start ≡ self.old.start }
        ensures end { self.new.end ≡ self.old.end }
        ensures len { vec_len self.new.bytes ≡ vec_len self.old.bytes }
        ensures same { slice_range self.new.bytes.items self.old.start self.old.end ≡ slice_range self.old.bytes.items self.old.start self.old.end }
        ensures takes { Takes (L.left link.old) (L.left link.new) (drop self.old.end self.new.bytes.items) result }
        ensures given { Keeps (L.given link.old) (L.given link.new) }
        ensures failed { result ≡ Got.Failed → HasRisen (L.faults link.old) (L.faults link.new) }
        ensures counts { CountsTake (L.faults link.old) (L.faults link.new) result }
        ensures faults { L.faults link.old ≤ L.faults link.new }
    {
        take_after(link, &mut self.bytes, self.end)
    }

    // Keeps these bytes behind the others.
    pub(crate) fn put(&mut self, bytes: &[u8])
        requires ordered { self.old.start ≤ self.old.end }
        requires has { self.old.end + length bytes.now ≤ vec_len self.old.bytes }
        ensures start { self.new.start ≡ self.old.start }
        ensures end { self.new.end ≡ self.old.end + length bytes.now }
        ensures len { vec_len self.new.bytes ≡ vec_len self.old.bytes }
        ensures kept { slice_range self.new.bytes.items self.new.start self.new.end ≡ slice_range self.old.bytes.items self.old.start self.old.end ++ bytes.now }
    {
        put_after(&mut self.bytes, self.end, bytes);
        self.end += bytes.len();
    }

    // Keeps nothing, and gives back room that is large.
    pub(crate) fn clear(&mut self)
        ensures start { self.new.start ≡ 0 }
        ensures end { self.new.end ≡ 0 }
    {
        self.start = 0;
        self.end = 0;
        if self.bytes.len() > LARGEST_IDLE {
            self.bytes.truncate(FIRST_ROOM);
            self.bytes.shrink_to_fit();
        }
    }
}
