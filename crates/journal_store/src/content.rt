// The content of a record: an entry of a session's journal as bytes.
ghost use Rattle.std.specs.Prelude.{◌≡◌, ℕ, List, [], ◌∷◌, ◌++◌, drop, length, OnOk, IsErrOf, ◌<◌, ◌≤◌, ◌^◌};
ghost use Rattle.std.specs.List.{AllByRecursion};
ghost use Rattle.journal_store.specs.Contents.{number2, number8, all_framed, texts_bytes, closing_byte, limited_kind, kind_of, moment_of, fields_of, content_of, HasLengths};
ghost use Rattle.journal_store.specs.Records.{HasLength, number4, framed};

use crate::group::AddError;
use bosh_types::{Closing, Text};
use session_journal::{Entered, Entry, Limited};
use std::alloc::AllocError;

// The version of the rules by which a journal is replayed. It changes with them.
pub(crate) const RULES_VERSION: u16 = 3;

/// Puts the content of an entry of a session in the place of what the buffer has. After an error the buffer has something else.
#[tactic(auto, unfolding(crate::specs::Contents::content_of))]
pub fn write_content(into: &mut Vec<u8>, session: u32, entry: &Entry) -> Result<(), AddError>
    ensures content { OnOk result (into.new.items ≡ content_of session entry.now) }
    // Only a text of 2^32 bytes or more is too long.
    ensures too_long { IsErrOf result AddError.TooLong → HasLengths entry.now.call → ⊥ }
{
    into.clear();
    push_number4(into, session)?;
    push_number4(into, entry.caller)?;
    into.push(kind_byte(&entry.call))?;
    push_number8(into, moment(&entry.call))?;
    push_fields(into, &entry.call)
}

#[tactic(auto, unfolding(crate::specs::Contents::number2))]
fn push_number2(into: &mut Vec<u8>, number: u16) -> Result<(), AllocError>
    ensures { OnOk result (into.new.items ≡ into.old.items ++ number2 number) }
{
    into.extend_from_slice(&number.to_be_bytes())
}

#[tactic(auto, unfolding(crate::specs::Records::number4))]
fn push_number4(into: &mut Vec<u8>, number: u32) -> Result<(), AllocError>
    ensures { OnOk result (into.new.items ≡ into.old.items ++ number4 number) }
{
    into.extend_from_slice(&number.to_be_bytes())
}

#[tactic(auto, unfolding(crate::specs::Contents::number8))]
fn push_number8(into: &mut Vec<u8>, number: u64) -> Result<(), AllocError>
    ensures { OnOk result (into.new.items ≡ into.old.items ++ number8 number) }
{
    into.extend_from_slice(&number.to_be_bytes())
}

// A text with its length before it.
fn push_text(into: &mut Vec<u8>, text: &[u8]) -> Result<(), AddError>
    ensures text { OnOk result (into.new.items ≡ into.old.items ++ framed text.now) }
    ensures too_long { IsErrOf result AddError.TooLong → 2 ^ 32 ≤ length text.now }
{
    let Ok(count) = u32::try_from(text.len()) else {
        return Err(AddError::TooLong);
    };
    push_number4(into, count)?;
    into.extend_from_slice(text)?;
    Ok(())
}

// Texts with their number before them.
#[tactic(auto, unfolding(crate::specs::Contents::texts_bytes))]
fn push_texts(into: &mut Vec<u8>, texts: &[Text]) -> Result<(), AddError>
    ensures texts { OnOk result (into.new.items ≡ into.old.items ++ texts_bytes texts.now) }
    ensures too_long { IsErrOf result AddError.TooLong → length texts.now < 2 ^ 32 → AllByRecursion HasLength texts.now → ⊥ }
{
    let Ok(count) = u32::try_from(texts.len()) else {
        return Err(AddError::TooLong);
    };
    push_number4(into, count)?;
    push_all(into, texts)
}

fn push_all(into: &mut Vec<u8>, texts: &[Text]) -> Result<(), AddError>
    ensures texts { OnOk result (into.new.items ≡ into.old.items ++ all_framed texts.now) }
    ensures too_long { IsErrOf result AddError.TooLong → AllByRecursion HasLength texts.now → ⊥ }
{
    for text in texts {
        push_text(into, text.as_slice())?;
    }
    Ok(())
}

fn closing_number(closing: Closing) -> u8
    ensures { result ≡ closing_byte closing }
{
    match closing {
        Closing::Plain => 0,
        Closing::RemoteConnectionFailed => 1,
        Closing::RemoteStreamError => 2,
        Closing::SystemShutdown => 3,
    }
}

fn limited_number(kind: Limited) -> u8
    ensures { result ≡ limited_kind kind }
{
    match kind {
        Limited::Arrival => 1,
        Limited::ServerStanza => 3,
        Limited::ServerClosing => 4,
        Limited::Time => 5,
    }
}

fn kind_byte(call: &Entered) -> u8
    ensures { result ≡ kind_of call.now }
{
    match call {
        Entered::Open { .. } => 8,
        Entered::Arrive { .. } => 1,
        Entered::Collect { .. } => 2,
        Entered::Back { .. } => 3,
        Entered::BackClosed { .. } => 4,
        Entered::Tick { .. } => 5,
        Entered::TakeInward => 6,
        Entered::Limit { .. } => 7,
    }
}

// The moment of a call, and 0 where it has none.
fn moment(call: &Entered) -> u64
    ensures { result ≡ moment_of call.now }
{
    match call {
        Entered::Open { now, .. } => now.millis(),
        Entered::Arrive { now, .. } => now.millis(),
        Entered::Collect { .. } => 0,
        Entered::Back { now, .. } => now.millis(),
        Entered::BackClosed { now, .. } => now.millis(),
        Entered::Tick { now } => now.millis(),
        Entered::TakeInward => 0,
        Entered::Limit { now, .. } => now.millis(),
    }
}

fn push_fields(into: &mut Vec<u8>, call: &Entered) -> Result<(), AddError>
    ensures fields { OnOk result (into.new.items ≡ into.old.items ++ fields_of call.now) }
    ensures too_long { IsErrOf result AddError.TooLong → HasLengths call.now → ⊥ }
{
    match call {
        Entered::Open {
            sid,
            host,
            greeting,
            body,
            limit,
            gap_waits,
            ..
        } => {
            push_number2(into, RULES_VERSION)?;
            push_number8(into, *limit)?;
            push_number4(into, *gap_waits)?;
            push_text(into, sid.as_slice())?;
            push_text(into, host.as_slice())?;
            push_texts(into, greeting.as_slice())?;
            push_text(into, body.as_slice())
        }
        Entered::Arrive { body, .. } => push_text(into, body.as_slice()),
        Entered::Collect { ticket } => Ok(push_number4(into, ticket.number())?),
        Entered::Back { stream, stanza, .. } => {
            push_number2(into, stream.number())?;
            push_text(into, stanza.as_slice())
        }
        Entered::BackClosed {
            stream,
            closing,
            ..
        } => {
            push_number2(into, stream.number())?;
            into.push(closing_number(*closing))?;
            Ok(())
        }
        Entered::Tick { .. } => Ok(()),
        Entered::TakeInward => Ok(()),
        Entered::Limit { kind, cost, .. } => {
            into.push(limited_number(*kind))?;
            push_number8(into, *cost)?;
            Ok(())
        }
    }
}
