// Each call and its reply.
ghost use Rattle.std.specs.Prelude.{◌≡◌, ◌<◌, IfOk, IfSome, OnErr};
ghost use Rattle.session_core.specs.Journal.{Arrive, Back, BackClosed, Collect, IsAllowed, Journal, TakeInward, Tick, state_of};
ghost use Rattle.session_core.specs.Machine.{arrive, back, back_closed, collect, take_inward, tick};
ghost use Rattle.session_journal.specs.Stored.{IsJournalOf};
ghost use Rattle.session_calls.specs.After.{after_call, left_in};

use bosh_types::{Closing, Inward, Moment, SharedText, StreamNo, Ticket};
use session_attrs::Request;
use session_core::{Arrived, Collected, Taken, Ticked};
use session_journal::{Call, Journalled, Reply};
use std::alloc::AllocError;

// The number that the one holder has in the journal.
const CALLER: u32 = 0;

/// A request arrives. The only error is want of memory, as for the calls below; then nothing has changed.
pub fn arrive(
    session: &mut Journalled,
    request: Request,
    body: SharedText,
    now: Moment,
) -> Result<Arrived, AllocError>
    requires { IsAllowed (Arrive request body now) }
    ensures reply { IfOk result (λ reply. (journal : Journal) → IsJournalOf session.old journal
        → (reply ≡ (arrive (state_of journal) request body now).1) × IsJournalOf session.new (after_call journal (Arrive request body now))) }
    ensures err { OnErr result (session.new ≡ session.old) }
{
    match session.step(CALLER, Call::Arrive { request, body, now })? {
        Reply::Arrive(arrived) => Ok(arrived),
        _ => unreachable!(),
    }
}

/// The server gives a stanza on this stream.
pub fn back(
    session: &mut Journalled,
    stream: StreamNo,
    stanza: SharedText,
    now: Moment,
) -> Result<Taken, AllocError>
    requires { IsAllowed (Back stream stanza now) }
    ensures reply { IfOk result (λ reply. (journal : Journal) → IsJournalOf session.old journal
        → (reply ≡ (back (state_of journal) stream stanza now).1) × IsJournalOf session.new (after_call journal (Back stream stanza now))) }
    ensures err { OnErr result (session.new ≡ session.old) }
{
    match session.step(
        CALLER,
        Call::Back {
            stream,
            stanza,
            now,
        },
    )? {
        Reply::Back(taken) => Ok(taken),
        _ => unreachable!(),
    }
}

/// The server closes this stream.
pub fn back_closed(
    session: &mut Journalled,
    stream: StreamNo,
    closing: Closing,
    now: Moment,
) -> Result<Taken, AllocError>
    ensures reply { IfOk result (λ reply. (journal : Journal) → IsJournalOf session.old journal
        → (reply ≡ (back_closed (state_of journal) stream closing now).1)
        × IsJournalOf session.new (after_call journal (BackClosed stream closing now))) }
    ensures err { OnErr result (session.new ≡ session.old) }
{
    match session.step(
        CALLER,
        Call::BackClosed {
            stream,
            closing,
            now,
        },
    )? {
        Reply::BackClosed(taken) => Ok(taken),
        _ => unreachable!(),
    }
}

/// Time passes.
pub fn tick(session: &mut Journalled, now: Moment) -> Result<Ticked, AllocError>
    ensures reply { IfOk result (λ reply. (journal : Journal) → IsJournalOf session.old journal
        → (reply ≡ (tick (state_of journal) now).1) × IsJournalOf session.new (after_call journal (Tick now))) }
    ensures err { OnErr result (session.new ≡ session.old) }
{
    match session.step(CALLER, Call::Tick { now })? {
        Reply::Tick(ticked) => Ok(ticked),
        _ => unreachable!(),
    }
}

/// The next inward item is taken, where one is left.
pub fn take_inward(session: &mut Journalled) -> Result<Option<Inward>, AllocError>
    ensures fewer { IfOk result (λ reply. IfSome reply (λ item. left_in session.new < left_in session.old)) }
    ensures reply { IfOk result (λ reply. (journal : Journal) → IsJournalOf session.old journal
        → (reply ≡ (take_inward (state_of journal)).1) × IsJournalOf session.new (after_call journal TakeInward)) }
    ensures err { OnErr result (session.new ≡ session.old) }
{
    match session.step(CALLER, Call::TakeInward)? {
        Reply::TakeInward(item) => Ok(item),
        _ => unreachable!(),
    }
}

/// What there is for a ticket. Takes no memory.
pub fn collect(session: &mut Journalled, ticket: Ticket) -> Collected
    ensures { (journal : Journal) → IsJournalOf session.old journal
        → (result ≡ (collect (state_of journal) ticket).1) × IsJournalOf session.new (after_call journal (Collect ticket)) }
{
    session.poll(CALLER, ticket)
}
