// Requests that are read piece by piece.
ghost use Rattle.std.specs.Prelude.{◌≡◌, ◌≢◌, ◌≤◌, ◌<◌, ◌++◌, [], Some, vec_len, take, IfOk, OnErr, OnOk, Ok};
ghost use Rattle.std.specs.Io.KnownBytes.{Keeps, prepend_known};
ghost use Rattle.bosh_http.specs.Reading.{GivesNothing};
ghost use Rattle.bosh_http.specs.Taking.{TakesMore};
ghost use Rattle.bosh_ports.specs.Faults.{HasRisen};
ghost use Rattle.bosh_ports.specs.Polled.{CountsWait, PollCountsTake, PollTakes};
ghost use Rattle.polled_http.specs.Polling.{PollAnswers, PollReads};

use crate::taking::TakeRoom;
use bosh_http::{Awaited, HttpIn, RequestReader};
use bosh_ports::{Got, Polled};
use std::alloc::{AllocError, Global};
use std::marker::Model;
use std::mem::swap;

/// What a poll for the next request gives.
#[derive(Debug, Drop)]
pub enum HttpPolled {
    /// The next request, what refuses it, or an end.
    Came(HttpIn),
    /// One more piece came. Before it there was no request.
    More,
    /// The link has nothing now, and no request has come.
    NotYet,
}

/// Reads the requests of a connection one after the other off a link that never waits, as `RequestReader` does off one that may. It is
/// seen as the bytes that it took and that no request has given yet.
#[derive(Drop)]
pub struct PolledReader {
    reader: RequestReader,
    // The last piece, where there was no memory to keep it behind the others.
    unread: Vec<u8>,
}

impl Model for PolledReader {
    ghost use Rattle.std.specs.Prelude.{ℕ, List, ◌++◌};

    ghost Value = { List ℕ };

    ghost view = { λ r. r.reader ++ r.unread.items };
}

impl PolledReader {
    /// Takes no memory.
    pub fn new(alloc: Global) -> Self
        ensures { result ≡ [] }
    {
        PolledReader {
            reader: RequestReader::new(alloc),
            unread: Vec::new(alloc),
        }
    }

    /// What it waits for. A piece that there was no memory for counts as taken once it is kept behind the others.
    pub fn awaits(&self) -> Awaited {
        self.reader.awaits()
    }

    /// What the bytes that have come give; where they give nothing, one more piece is taken. An error is want of memory: the reader then
    /// has all the bytes that it took, and may be called again.
    pub fn poll<K: Polled>(
        &mut self,
        alloc: Global,
        room: &mut TakeRoom,
        link: &mut K,
    ) -> Result<HttpPolled, AllocError>
        // Where the link tells its bytes, the answer is by the whole rest of the stream, and what no request gave stays.
        ensures reads { IfOk result (PollReads (prepend_known self.old (K.left link.old)) (prepend_known self.new (K.left link.new))) }

        // By any link, the answer is by the bytes that had come.
        ensures answers { IfOk result (PollAnswers (K.left link.old) (K.left link.new) self.old self.new) }

        // Want of memory loses nothing.
        ensures kept { OnErr result (TakesMore (K.left link.old) (K.left link.new) self.old self.new) }

        ensures given { Keeps (K.given link.old) (K.given link.new) }
        ensures closed { K.closed link.new ≡ K.closed link.old }
        ensures fault { result ≡ Ok (HttpPolled.Came HttpIn.ReadFault) → HasRisen (K.faults link.old) (K.faults link.new) }
        ensures quiet { result ≢ Ok (HttpPolled.Came HttpIn.ReadFault) → K.faults link.new ≡ K.faults link.old }
        ensures faults { K.faults link.old ≤ K.faults link.new }
        ensures waits { result ≡ Ok HttpPolled.NotYet → HasRisen (K.waits link.old) (K.waits link.new) }
        ensures answered { result ≢ Ok HttpPolled.NotYet → K.waits link.new ≡ K.waits link.old }
    {
        keep_unread(alloc, &mut self.reader, &mut self.unread)?;
        match self.reader.front(alloc)? {
            Some(answer) => Ok(HttpPolled::Came(answer)),
            None => take_next(alloc, &mut self.reader, &mut self.unread, room, link),
        }
    }
}

// What was not kept is kept behind the others. The only error is want of memory, after which all is as before.
fn keep_unread(
    alloc: Global,
    reader: &mut RequestReader,
    unread: &mut Vec<u8>,
) -> Result<(), AllocError>
    ensures kept { OnOk result (reader.new ≡ reader.old ++ unread.old.items) }
    ensures none { OnOk result (unread.new.items ≡ []) }
    ensures same { OnErr result (reader.new ≡ reader.old) }
    ensures unread { OnErr result (unread.new ≡ unread.old) }
{
    if unread.is_empty() {
        return Ok(());
    }
    reader.give(unread.as_slice())?;
    *unread = Vec::new(alloc);
    Ok(())
}

// What the next piece is, where the bytes that have come give nothing.
fn take_next<K: Polled>(
    alloc: Global,
    reader: &mut RequestReader,
    unread: &mut Vec<u8>,
    room: &mut TakeRoom,
    link: &mut K,
) -> Result<HttpPolled, AllocError>
    requires none { unread.old.items ≡ [] }
    requires nothing { GivesNothing reader.old }
    ensures answers { IfOk result (PollAnswers (K.left link.old) (K.left link.new) reader.old reader.new) }
    ensures none { OnOk result (unread.new.items ≡ []) }
    ensures kept { OnErr result (TakesMore (K.left link.old) (K.left link.new) reader.old (reader.new ++ unread.new.items)) }
    ensures given { Keeps (K.given link.old) (K.given link.new) }
    ensures closed { K.closed link.new ≡ K.closed link.old }
    ensures fault { result ≡ Ok (HttpPolled.Came HttpIn.ReadFault) → HasRisen (K.faults link.old) (K.faults link.new) }
    ensures quiet { result ≢ Ok (HttpPolled.Came HttpIn.ReadFault) → K.faults link.new ≡ K.faults link.old }
    ensures faults { K.faults link.old ≤ K.faults link.new }
    ensures waits { result ≡ Ok HttpPolled.NotYet → HasRisen (K.waits link.old) (K.waits link.new) }
    ensures answered { result ≢ Ok HttpPolled.NotYet → K.waits link.new ≡ K.waits link.old }
{
    room.make()?;
    match take_into(link, &mut room.bytes) {
        None => Ok(HttpPolled::NotYet),
        Some(Got::Bytes(count)) => {
            keep_piece(reader, unread, &mut room.bytes, count)?;
            Ok(HttpPolled::More)
        }
        Some(Got::End) => Ok(HttpPolled::Came(reader.end(alloc)?)),
        Some(Got::Failed) => Ok(HttpPolled::Came(HttpIn::ReadFault)),
    }
}

// Takes a piece into the room.
fn take_into<K: Polled>(link: &mut K, room: &mut Vec<u8>) -> Option<Got>
    requires { 0 < vec_len room.old }
    ensures takes { PollTakes (K.left link.old) (K.left link.new) room.new.items result }
    ensures len { vec_len room.new ≡ vec_len room.old }
    ensures given { Keeps (K.given link.old) (K.given link.new) }
    ensures closed { K.closed link.new ≡ K.closed link.old }
    ensures failed { result ≡ Some Got.Failed → HasRisen (K.faults link.old) (K.faults link.new) }
    ensures counts { PollCountsTake (K.faults link.old) (K.faults link.new) result }
    ensures faults { K.faults link.old ≤ K.faults link.new }
    ensures waits { CountsWait (K.waits link.old) (K.waits link.new) result }
{
    link.poll_take(room)
}

// The piece at the front of the room is kept behind the bytes that have come, or by itself, where there is no memory.
fn keep_piece(
    reader: &mut RequestReader,
    unread: &mut Vec<u8>,
    room: &mut Vec<u8>,
    count: usize,
) -> Result<(), AllocError>
    requires fits { count ≤ vec_len room.old }
    ensures kept { OnOk result (reader.new ≡ reader.old ++ take count room.old.items) }
    ensures unread { OnOk result (unread.new ≡ unread.old) }
    ensures same { OnErr result (reader.new ≡ reader.old) }
    ensures alone { OnErr result (unread.new.items ≡ take count room.old.items) }
{
    match reader.give(room.as_slice().split_at(count).0) {
        Ok(()) => Ok(()),
        Err(AllocError) => {
            room.truncate(count);
            swap(room, unread);
            Err(AllocError)
        }
    }
}
