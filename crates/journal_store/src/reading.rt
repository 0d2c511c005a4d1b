// The entry that the content of a record is.
ghost use Rattle.std.specs.Prelude.{◌≡◌};
ghost use Rattle.journal_store.specs.Reading.{Gives, open_at, arrive_at, back_at, back_closed_at, limit_at, call_at, entry_at};

use crate::content::RULES_VERSION;
use crate::fields::{
    byte_of, closing_of, ends, greeting_of, kind_of, limited_of, number2_of, number4_of,
    number8_of, shared_of, stream_of, text_of,
};
use bosh_types::{Moment, Ticket};
use session_journal::{Entered, Entry};
use std::alloc::{AllocError, AllocFailed, Global};

/// Why a content isn't read.
#[derive(Clone, Copy, Debug, PartialEq, Eq)]
pub enum ReadError {
    /// It is no entry.
    NoEntry,
    NoMemory,
}

impl From<AllocError> for ReadError {
    ghost use Rattle.std.specs.Prelude.{◌≡◌};
    ghost use Rattle.journal_store.specs.declared.reading.ReadError.TheVariants.{NoMemory};

    ghost from_gives = { λ _ e. e ≡ NoMemory };

    fn from(_error: AllocError) -> ReadError {
        ReadError::NoMemory
    }
}

impl<T: Drop> From<AllocFailed<T>> for ReadError {
    ghost use Rattle.std.specs.Prelude.{◌≡◌};
    ghost use Rattle.journal_store.specs.declared.reading.ReadError.TheVariants.{NoMemory};

    ghost from_gives = { λ _ e. e ≡ NoMemory };

    fn from(_error: AllocFailed<T>) -> ReadError {
        ReadError::NoMemory
    }
}

/// An entry, with the number of the session in whose journal it is.
#[derive(Debug, Drop)]
pub struct SessionEntry {
    pub session: u32,
    pub entry: Entry,
}

// What kind of call an entry keeps.
#[derive(Clone, Copy, Debug, PartialEq, Eq)]
pub(crate) enum Kind {
    Open,
    Arrive,
    Collect,
    Back,
    BackClosed,
    Tick,
    TakeInward,
    Limit,
}

/// Reads the content of a record.
#[tactic(auto, unfolding(crate::specs::Reading::entry_at))]
pub fn read_content(alloc: Global, bytes: &[u8]) -> Result<SessionEntry, ReadError>
    ensures { Gives (λ read. read) result (entry_at bytes.now) }
{
    let (session, rest) = number4_of(bytes)?;
    let (caller, rest) = number4_of(rest)?;
    let (byte, rest) = byte_of(rest)?;
    let kind = kind_of(byte)?;
    let (now, rest) = number8_of(rest)?;
    let call = call_of(alloc, kind, now, rest)?;
    Ok(SessionEntry {
        session,
        entry: Entry { caller, call },
    })
}

fn call_of(alloc: Global, kind: Kind, now: u64, bytes: &[u8]) -> Result<Entered, ReadError>
    ensures { Gives (λ call. call) result (call_at kind now bytes.now) }
{
    match kind {
        Kind::Open => open_of(alloc, now, bytes),
        Kind::Arrive => arrive_of(alloc, now, bytes),
        Kind::Collect => collect_of(now, bytes),
        Kind::Back => back_of(alloc, now, bytes),
        Kind::BackClosed => back_closed_of(now, bytes),
        Kind::Tick => tick_of(now, bytes),
        Kind::TakeInward => take_inward_of(now, bytes),
        Kind::Limit => limit_of(now, bytes),
    }
}

#[tactic(auto, unfolding(crate::specs::Reading::open_at))]
fn open_of(alloc: Global, now: u64, bytes: &[u8]) -> Result<Entered, ReadError>
    ensures { Gives (λ call. call) result (open_at now bytes.now) }
{
    let (version, rest) = number2_of(bytes)?;
    if version != RULES_VERSION {
        return Err(ReadError::NoEntry);
    }
    let (limit, rest) = number8_of(rest)?;
    let (gap_waits, rest) = number4_of(rest)?;
    let (sid, rest) = text_of(alloc, rest)?;
    let (host, rest) = shared_of(alloc, rest)?;
    let (greeting, rest) = greeting_of(alloc, rest)?;
    let (body, rest) = shared_of(alloc, rest)?;
    ends(rest)?;
    Ok(Entered::Open {
        sid,
        host,
        greeting,
        body,
        now: Moment::from_millis(now),
        limit,
        gap_waits,
    })
}

#[tactic(auto, unfolding(crate::specs::Reading::arrive_at))]
fn arrive_of(alloc: Global, now: u64, bytes: &[u8]) -> Result<Entered, ReadError>
    ensures { Gives (λ call. call) result (arrive_at now bytes.now) }
{
    let (body, rest) = shared_of(alloc, bytes)?;
    ends(rest)?;
    Ok(Entered::Arrive {
        body,
        now: Moment::from_millis(now),
    })
}

#[tactic(auto, unfolding(crate::specs::Reading::collect_at))]
fn collect_of(now: u64, bytes: &[u8]) -> Result<Entered, ReadError>
    ensures { Gives (λ call. call) result (call_at Kind.Collect now bytes.now) }
{
    if now != 0 {
        return Err(ReadError::NoEntry);
    }
    let (ticket, rest) = number4_of(bytes)?;
    ends(rest)?;
    Ok(Entered::Collect {
        ticket: Ticket::new(ticket),
    })
}

#[tactic(auto, unfolding(crate::specs::Reading::back_at))]
fn back_of(alloc: Global, now: u64, bytes: &[u8]) -> Result<Entered, ReadError>
    ensures { Gives (λ call. call) result (back_at now bytes.now) }
{
    let (number, rest) = number2_of(bytes)?;
    let stream = stream_of(number)?;
    let (stanza, rest) = shared_of(alloc, rest)?;
    ends(rest)?;
    Ok(Entered::Back {
        stream,
        stanza,
        now: Moment::from_millis(now),
    })
}

#[tactic(auto, unfolding(crate::specs::Reading::back_closed_at))]
fn back_closed_of(now: u64, bytes: &[u8]) -> Result<Entered, ReadError>
    ensures { Gives (λ call. call) result (back_closed_at now bytes.now) }
{
    let (number, rest) = number2_of(bytes)?;
    let stream = stream_of(number)?;
    let (byte, rest) = byte_of(rest)?;
    let closing = closing_of(byte)?;
    ends(rest)?;
    Ok(Entered::BackClosed {
        stream,
        closing,
        now: Moment::from_millis(now),
    })
}

fn tick_of(now: u64, bytes: &[u8]) -> Result<Entered, ReadError>
    ensures { Gives (λ call. call) result (call_at Kind.Tick now bytes.now) }
{
    ends(bytes)?;
    Ok(Entered::Tick {
        now: Moment::from_millis(now),
    })
}

fn take_inward_of(now: u64, bytes: &[u8]) -> Result<Entered, ReadError>
    ensures { Gives (λ call. call) result (call_at Kind.TakeInward now bytes.now) }
{
    if now != 0 {
        return Err(ReadError::NoEntry);
    }
    ends(bytes)?;
    Ok(Entered::TakeInward)
}

#[tactic(auto, unfolding(crate::specs::Reading::limit_at))]
fn limit_of(now: u64, bytes: &[u8]) -> Result<Entered, ReadError>
    ensures { Gives (λ call. call) result (limit_at now bytes.now) }
{
    let (byte, rest) = byte_of(bytes)?;
    let kind = limited_of(byte)?;
    let (cost, rest) = number8_of(rest)?;
    ends(rest)?;
    Ok(Entered::Limit {
        kind,
        cost,
        now: Moment::from_millis(now),
    })
}
