// A stanza that comes in pieces, in a stream that goes on after it.
ghost use Rattle.std.specs.Prelude.{◌≡◌, ◌+◌, ◌<◌, ◌≤◌, ◌++◌, List, ℕ, [], length, take, IfOk};
ghost use Rattle.body_cutter.specs.Begun.{HasBegun, IsFound, IsTold, found_at, found_before, found_within};
ghost use Rattle.body_cutter.specs.Ends.{last_bytes};
ghost use Rattle.body_cutter.specs.Reading.{state_of};
ghost use Rattle.body_cutter.specs.Refusal.{limit_refusal};

use crate::feeding::read_piece;
use crate::parts::CutRefusal;
use crate::place::{Kind, Place};
use crate::reader::Reader;
use crate::refusing::{is_complete, limit_refusal, refusal_after};
use crate::tail::Tail;
use bosh_types::limits::LONGEST_STANZA;
use std::alloc::{AllocError, Global};

/// Finds the end of a stanza that comes in pieces, wherever these end, and reads each byte once. It stands for the bytes that it
/// was fed, and keeps of them no more than the names of the open elements and of a tag.
#[derive(Drop)]
pub struct StanzaCutter {
    pub(crate) reader: Reader,
    pub(crate) tail: Tail,
    pub(crate) len: usize,
}

/// What the bytes that came so far tell of a stanza.
#[derive(Drop)]
pub enum Fed {
    /// No stanza has ended: all of the piece was taken, and this cutter takes the next one.
    More(StanzaCutter),
    /// A stanza ends after this many bytes of the piece. Those after it are not looked at.
    Whole(usize),
    /// No stanza begins so. A place counts from the stanza's first byte.
    Refused(CutRefusal),
}

// The same without the cutter.
#[derive(Clone, Copy)]
enum Found {
    More,
    Whole(usize),
    Refused(CutRefusal),
}

// An element ended after this many bytes of a piece: it is a stanza, or passes a limit.
fn found_within(reader: &Reader, count: usize) -> Found
    ensures { result ≡ found_within (limit_refusal (state_of reader.now)) count }
{
    match limit_refusal(reader) {
        None => Found::Whole(count),
        Some(refusal) => Found::Refused(refusal),
    }
}

// What is found after this many bytes of a piece, which were read.
fn found_at(reader: &Reader, count: usize) -> Found
    ensures { result ≡ found_at (state_of reader.now) count }
{
    if is_complete(reader) {
        return found_within(reader, count);
    }
    Found::More
}

impl StanzaCutter {
    /// A cutter that was fed nothing. Takes no memory.
    pub fn new(alloc: Global) -> Self
        ensures { HasBegun result [] }
    {
        StanzaCutter {
            reader: Reader::new(alloc, Kind::Stanza, Place::StanzaStart),
            tail: Tail::new(),
            len: 0,
        }
    }

    /// Takes the next piece. A stanza has at most 1,000,000 bytes, 32 attributes in each tag and 64 nested elements. The only
    /// error is want of memory.
    pub fn feed(mut self, piece: &[u8]) -> Result<Fed, AllocError>
        ensures { (text : List ℕ) → HasBegun self text → IfOk result (λ fed. IsTold fed text piece.now) }
    {
        match self.found_in(piece)? {
            Found::More => Ok(Fed::More(self)),
            Found::Whole(count) => Ok(Fed::Whole(count)),
            Found::Refused(refusal) => Ok(Fed::Refused(refusal)),
        }
    }

    // Reads a piece up to the end of the longest stanza.
    fn found_in(&mut self, piece: &[u8]) -> Result<Found, AllocError>
        ensures { (text : List ℕ) → HasBegun self.old text → IfOk result (λ found. IsFound found self.new text piece.now) }
    {
        let Some(room) = LONGEST_STANZA.checked_sub(self.len) else {
            return Ok(Found::Refused(CutRefusal::TooLong));
        };
        if piece.len() <= room {
            return self.read(piece);
        }
        match self.read(&piece[..room])? {
            Found::More => Ok(Found::Refused(CutRefusal::TooLong)),
            Found::Whole(count) => Ok(Found::Whole(count)),
            Found::Refused(refusal) => Ok(Found::Refused(refusal)),
        }
    }

    fn read(&mut self, piece: &[u8]) -> Result<Found, AllocError>
        requires { self.old.len + length piece.now ≤ 1000000 }
        ensures { (text : List ℕ) → HasBegun self.old text → IfOk result (λ found. IsFound found self.new text piece.now) }
    {
        match read_piece(&mut self.reader, self.len, piece)? {
            Some((at, b)) => Ok(self.found_before(piece, at, b)),
            None => {
                self.tail.grow(piece);
                self.len += piece.len();
                Ok(found_at(&self.reader, piece.len()))
            }
        }
    }

    // What is found where the reader can't take the byte `b`, which lies in the piece at `at`.
    fn found_before(&mut self, piece: &[u8], at: usize, b: u8) -> Found
        requires within { at < length piece.now }
        requires few { self.old.len + length piece.now ≤ 1000000 }
        ensures { result ≡ found_before (last_bytes (self.old.tail ++ take at piece.now)) self.old.len at b (state_of self.old.reader) }
    {
        if is_complete(&self.reader) {
            return found_within(&self.reader, at);
        }
        self.tail.grow(&piece[..at]);
        Found::Refused(refusal_after(self.tail.as_slice(), self.len + at, b, &self.reader))
    }
}
