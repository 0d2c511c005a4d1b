// The fields of a content, each read off the front of its bytes.
ghost use Rattle.std.specs.Prelude.{◌≡◌, ℕ, ◌==◌, List, Option, Some, None, length, true, false, OnOk, OnErr, IfErr};
ghost use Rattle.journal_store.specs.Reading.{Gives, byte_at, number2_at, number4_at, number8_at, text_at, texts_at, greeting_at, stream_in, closing_in, limited_in, kind_in};

use crate::reading::{Kind, ReadError};
use bosh_types::{Closing, SharedText, Stanzas, StreamNo, Text};
use session_journal::Limited;
use std::alloc::Global;

pub(crate) fn byte_of(bytes: &[u8]) -> Result<(u8, &[u8]), ReadError>
    ensures { Gives (λ read. (read.0, read.1.now)) result (byte_at bytes.now) }
{
    match bytes {
        [byte, rest @ ..] => Ok((*byte, rest)),
        [] => Err(ReadError::NoEntry),
    }
}

pub(crate) fn number2_of(bytes: &[u8]) -> Result<(u16, &[u8]), ReadError>
    ensures { Gives (λ read. (read.0, read.1.now)) result (number2_at bytes.now) }
{
    if bytes.len() < 2 {
        return Err(ReadError::NoEntry);
    }
    let (front, rest) = bytes.split_at(2);
    Ok((u16::from_be_bytes([front[0], front[1]]), rest))
}

pub(crate) fn number4_of(bytes: &[u8]) -> Result<(u32, &[u8]), ReadError>
    ensures { Gives (λ read. (read.0, read.1.now)) result (number4_at bytes.now) }
{
    if bytes.len() < 4 {
        return Err(ReadError::NoEntry);
    }
    let (front, rest) = bytes.split_at(4);
    Ok((
        u32::from_be_bytes([front[0], front[1], front[2], front[3]]),
        rest,
    ))
}

pub(crate) fn number8_of(bytes: &[u8]) -> Result<(u64, &[u8]), ReadError>
    ensures { Gives (λ read. (read.0, read.1.now)) result (number8_at bytes.now) }
{
    if bytes.len() < 8 {
        return Err(ReadError::NoEntry);
    }
    let (front, rest) = bytes.split_at(8);
    let eight = [
        front[0], front[1], front[2], front[3], front[4], front[5], front[6], front[7],
    ];
    Ok((u64::from_be_bytes(eight), rest))
}

// The bytes of a text, where they lie.
#[tactic(auto, unfolding(crate::specs::Reading::text_at))]
fn slice_of(bytes: &[u8]) -> Result<(&[u8], &[u8]), ReadError>
    ensures { Gives (λ read. (read.0.now, read.1.now)) result (text_at bytes.now) }
{
    let (count, rest) = number4_of(bytes)?;
    let count = count as usize;
    if rest.len() < count {
        return Err(ReadError::NoEntry);
    }
    Ok(rest.split_at(count))
}

pub(crate) fn text_of(alloc: Global, bytes: &[u8]) -> Result<(Text, &[u8]), ReadError>
    ensures { Gives (λ read. (read.0, read.1.now)) result (text_at bytes.now) }
{
    let (text, rest) = slice_of(bytes)?;
    let text = Text::from_vec(Vec::from_slice(alloc, text)?);
    Ok((text, rest))
}

pub(crate) fn shared_of(alloc: Global, bytes: &[u8]) -> Result<(SharedText, &[u8]), ReadError>
    ensures { Gives (λ read. (read.0, read.1.now)) result (text_at bytes.now) }
{
    let (text, rest) = text_of(alloc, bytes)?;
    let text = SharedText::new(alloc, text)?;
    Ok((text, rest))
}

#[tactic(auto, unfolding(crate::specs::Reading::greeting_at))]
pub(crate) fn greeting_of(alloc: Global, bytes: &[u8]) -> Result<(Stanzas, &[u8]), ReadError>
    ensures { Gives (λ read. (read.0, read.1.now)) result (greeting_at bytes.now) }
{
    let (count, rest) = number4_of(bytes)?;
    texts_of(alloc, count, rest)
}

// So many texts.
#[tactic(auto, unfolding(crate::specs::Reading::texts_at))]
fn texts_of(alloc: Global, count: u32, bytes: &[u8]) -> Result<(Stanzas, &[u8]), ReadError>
    ensures { Gives (λ read. (read.0, read.1.now)) result (texts_at count bytes.now) }
{
    let mut texts = Vec::new(alloc);
    let mut rest = bytes;
    let mut left = count;
    while left > 0 {
        let (text, after) = text_of(alloc, rest)?;
        texts.push(text)?;
        rest = after;
        left -= 1;
    }
    Ok((Stanzas::from_vec(texts), rest))
}

pub(crate) fn stream_of(number: u16) -> Result<StreamNo, ReadError>
    ensures { Gives (λ read. read) result (stream_in number) }
{
    match StreamNo::new(number) {
        Some(stream) => Ok(stream),
        None => Err(ReadError::NoEntry),
    }
}

// No byte is left.
pub(crate) fn ends(rest: &[u8]) -> Result<(), ReadError>
    ensures ok { OnOk result ((length rest.now == 0) ≡ true) }
    ensures err { OnErr result ((length rest.now == 0) ≡ false) }
    ensures no_entry { IfErr result (λ error. error ≡ ReadError.NoEntry) }
{
    if rest.is_empty() {
        return Ok(());
    }
    Err(ReadError::NoEntry)
}

pub(crate) fn closing_of(byte: u8) -> Result<Closing, ReadError>
    ensures { Gives (λ read. read) result (closing_in byte) }
{
    match byte {
        0 => Ok(Closing::Plain),
        1 => Ok(Closing::RemoteConnectionFailed),
        2 => Ok(Closing::RemoteStreamError),
        3 => Ok(Closing::SystemShutdown),
        _ => Err(ReadError::NoEntry),
    }
}

pub(crate) fn limited_of(byte: u8) -> Result<Limited, ReadError>
    ensures { Gives (λ read. read) result (limited_in byte) }
{
    match byte {
        1 => Ok(Limited::Arrival),
        3 => Ok(Limited::ServerStanza),
        4 => Ok(Limited::ServerClosing),
        5 => Ok(Limited::Time),
        _ => Err(ReadError::NoEntry),
    }
}

pub(crate) fn kind_of(byte: u8) -> Result<Kind, ReadError>
    ensures { Gives (λ read. read) result (kind_in byte) }
{
    match byte {
        1 => Ok(Kind::Arrive),
        2 => Ok(Kind::Collect),
        3 => Ok(Kind::Back),
        4 => Ok(Kind::BackClosed),
        5 => Ok(Kind::Tick),
        6 => Ok(Kind::TakeInward),
        7 => Ok(Kind::Limit),
        8 => Ok(Kind::Open),
        _ => Err(ReadError::NoEntry),
    }
}
