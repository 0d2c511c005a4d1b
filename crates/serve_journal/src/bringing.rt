// The sessions of a file go on.
ghost use Rattle.std.specs.Prelude.{◌≡◌, ◌==◌, All, IfOk, IfSome, List, Some, [], true};
ghost use Rattle.std.specs.List.{AllByRecursion, list_all};
ghost use Rattle.journal_store.specs.Contents.{moment_of};
ghost use Rattle.journal_store.specs.Crash.{EachCrash};
ghost use Rattle.journal_store.specs.Disk.{Only};
ghost use Rattle.journal_store.specs.Entries.{AreEntriesOf, FitsContent};
ghost use Rattle.journal_store.specs.RecordFile.{IsReady};
ghost use Rattle.journal_store.specs.declared.reading.SessionEntry.{SessionEntry};
ghost use Rattle.session_journal.specs.Entries.{journal_in};
ghost use Rattle.session_store.specs.Journals.{AreLogs};
ghost use Rattle.session_store.specs.Store.{Stores};
ghost use Rattle.session_table.specs.Opens.{opened_sid, sid_in};
ghost use Rattle.serve_journal.specs.Bringing.{Brings, IfSessions, KeepsLive, LeavesLive, are_finished, has_ended, is_finished, latest_in, latest_of};

use bosh_types::{Closing, Moment, SharedText, StreamNo, Text};
use entry_queue::{EntryQueue, Noted};
use journal_store::{Disk, Stored};
use session_journal::{Call, Entered, Entry, Journalled};
use session_store::{Opened, Store, open};
use session_table::{Directory, Restored, Resumed};
use std::alloc::{AllocError, Global};
use std::sync::{Arc, Wait};

/// What a file of journals brings back.
#[derive(Drop)]
pub enum Brought<D: Disk + Drop> {
    /// Its sessions, where what they enter from now on is stored, and the latest moment that one of them has seen.
    Sessions {
        restored: Restored,
        store: Store<D>,
        latest: Moment,
    },
    /// The file isn't one of journals from this place on; or, with 0, a session of it isn't one that a server opened.
    Damaged {
        at: u64,
    },
    Failed,
    NoMemory,
}

/// Opens a file of journals. One whose sessions have all ended begins anew, with none. Of each stream that is open the server behind has lost its
/// side, but for the first stream of a session at one of these hosts: the session is told so, which is noted in the queue as what it enters from
/// now on is. A file that isn't one of a server's sessions is `Damaged`, and stays as it is.
pub fn bring<R: Wait, D: Disk + Drop>(
    rt: &R,
    alloc: Global,
    disk: D,
    queue: &Arc<EntryQueue>,
    lasting: &[&[u8]],
) -> Brought<D>
    ensures brings { D.told → Brings D.seen D.time D.left (D.seen disk) result }
    ensures ready { D.told → IfSessions result (λ store. IsReady D.seen D.time D.left store.journals.file) }
    // A crash at any moment leaves the entries of the file, or none where all of its sessions have ended.
    ensures any_moment { D.told → Only (D.seen disk) (D.left disk (D.time disk)) → (entries : List SessionEntry) → AllByRecursion FitsContent entries →
        AreEntriesOf (D.seen disk) entries → IfSessions result (λ store. EachCrash D.time D.left disk store.journals.file.disk (LeavesLive entries)) }
{
    match open(alloc, disk) {
        Opened::Store { store, sessions } => {
            let mut store = store;
            let mut sessions = sessions;
            let Stored::Done = let_ended_go(&mut store, &mut sessions) else {
                return Brought::Failed;
            };
            match bring_sessions(rt, alloc, sessions, queue, lasting) {
                Ok(Some((restored, latest))) => Brought::Sessions {
                    restored,
                    store,
                    latest,
                },
                Ok(None) => Brought::Damaged { at: 0 },
                Err(AllocError) => Brought::NoMemory,
            }
        }
        Opened::Damaged { at, .. } => Brought::Damaged { at },
        Opened::Failed(_) => Brought::Failed,
        Opened::NoMemory(_) => Brought::NoMemory,
    }
}

// Lets all sessions of a file go where there are some, and each is a server's and has ended.
fn let_ended_go<D: Disk + Drop>(store: &mut Store<D>, sessions: &mut Vec<Journalled>) -> Stored
    requires { D.told → IsReady D.seen D.time D.left store.old.journals.file }
    ensures ready { D.told → IsReady D.seen D.time D.left store.new.journals.file }
    ensures keeps { D.told → result ≡ Stored.Done → (entries : List SessionEntry) → AreLogs sessions.old.items entries → Stores D.seen D.time D.left store.old entries [] →
        KeepsLive D.seen D.time D.left store.new entries sessions.old.items }
    ensures any_moment { D.told → (entries : List SessionEntry) → AreLogs sessions.old.items entries → Stores D.seen D.time D.left store.old entries [] →
        EachCrash D.time D.left store.old.journals.file.disk store.new.journals.file.disk (LeavesLive entries) }
{
    if !are_finished(sessions.as_slice()) {
        return Stored::Done;
    }
    sessions.clear();
    store.clear()
}

// Whether there are sessions, each a server's that has ended.
#[tactic(auto, using(crate::proofs::BringingLemmas::some_finished))]
fn are_finished(sessions: &[Journalled]) -> bool
    ensures { result ≡ are_finished sessions.now }
{
    !sessions.is_empty() && all_finished(sessions)
}

fn all_finished(sessions: &[Journalled]) -> bool
    ensures { result ≡ list_all is_finished sessions.now }
{
    sessions.iter().all(is_finished)
}

fn is_finished(session: &Journalled) -> bool
    ensures { result ≡ is_finished session.now }
{
    is_over(session) && is_alone(session.entries())
}

#[tactic(auto, using(crate::proofs::BringingLemmas::ended_after))]
fn is_over(session: &Journalled) -> bool
    ensures { result ≡ has_ended (journal_in session.now) }
{
    session.ending().is_some()
}

// The sessions, where each is one that a server opened, and the latest moment that one of them has seen. The only error is want of
// memory.
fn bring_sessions<R: Wait>(
    rt: &R,
    alloc: Global,
    sessions: Vec<Journalled>,
    queue: &Arc<EntryQueue>,
    lasting: &[&[u8]],
) -> Result<Option<(Restored, Moment)>, AllocError> {
    let latest = latest_of(sessions.as_slice());
    let mut resumed = Vec::new(alloc);
    let mut number = 0u64;
    for session in sessions {
        number = number.saturating_add(1);
        let mut session = session;
        let first_lasts = lasts(session.entries(), lasting);
        cut_off(rt, &mut session, number, first_lasts, latest, queue)?;
        let Some(one) = resumed_of(alloc, session)? else {
            return Ok(None);
        };
        resumed.push(one)?;
    }
    let Some(restored) = Directory::resumed(alloc, Arc::try_clone(queue)?, resumed)? else {
        return Ok(None);
    };
    Ok(Some((restored, latest)))
}

// The session as one that comes back, where it was opened under a name, and no entry of it is another's than the directory's.
fn resumed_of(alloc: Global, session: Journalled) -> Result<Option<Resumed>, AllocError> {
    if !is_alone(session.entries()) {
        return Ok(None);
    }
    let Some(sid) = name_of(alloc, session.entries())? else {
        return Ok(None);
    };
    let recorded = session.into_recorded();
    Ok(Some(Resumed { sid, recorded }))
}

// Whether all entries are those of the caller with the number 0.
#[tactic(auto, using(crate::proofs::BringingLemmas::all_alone))]
fn is_alone(entries: &[Entry]) -> bool
    ensures is { result ≡ list_all (λ e. e.caller == 0) entries.now }
    ensures all { result ≡ true → All (λ e. e.caller ≡ 0) entries.now }
{
    entries.iter().all(is_own)
}

fn is_own(entry: &Entry) -> bool
    ensures { result ≡ (entry.now.caller == 0) }
{
    entry.caller == 0
}

// The name under which these entries open a session.
fn name_of(alloc: Global, entries: &[Entry]) -> Result<Option<SharedText>, AllocError>
    ensures { IfOk result (λ name. IfSome name (λ sid. opened_sid entries.now ≡ Some sid)) }
{
    let Some(first) = entries.first() else {
        return Ok(None);
    };
    if first.caller != 0 {
        return Ok(None);
    }
    name_in(alloc, &first.call)
}

fn name_in(alloc: Global, call: &Entered) -> Result<Option<SharedText>, AllocError>
    ensures { IfOk result (λ name. IfSome name (λ sid. sid_in call.now ≡ Some sid)) }
{
    match call {
        Entered::Open { sid, .. } => {
            let text = Vec::from_slice(alloc, sid.as_slice())?;
            let name = SharedText::new(alloc, Text::from_vec(text))?;
            Ok(Some(name))
        }
        _ => Ok(None),
    }
}

// Whether its host is one of these.
fn lasts(entries: &[Entry], lasting: &[&[u8]]) -> bool {
    let Some(first) = entries.first() else {
        return false;
    };
    match &first.call {
        Entered::Open { host, .. } => lasting.iter().any(|known| *known == host.as_slice()),
        _ => false,
    }
}

// The open streams of a session that goes on are lost, but for the first one where its host lasts.
fn cut_off<R: Wait>(
    rt: &R,
    session: &mut Journalled,
    number: u64,
    first_lasts: bool,
    now: Moment,
    queue: &EntryQueue,
) -> Result<(), AllocError> {
    for place in 0..8 {
        let Some(stream) = StreamNo::new(place) else {
            return Ok(());
        };
        if !(first_lasts && place == 0) {
            cut_stream(rt, session, number, stream, now, queue)?;
        }
    }
    Ok(())
}

// The stream is lost, where the session goes on and it is open.
fn cut_stream<R: Wait>(
    rt: &R,
    session: &mut Journalled,
    number: u64,
    stream: StreamNo,
    now: Moment,
    queue: &EntryQueue,
) -> Result<(), AllocError> {
    if session.ending().is_some() || !session.is_running(stream) {
        return Ok(());
    }
    let index = session.entries().len() as u64;
    let call = Call::BackClosed {
        stream,
        closing: Closing::RemoteConnectionFailed,
        now,
    };
    let _reply = session.step(0, call)?;
    if let Some(call) = entered_at(session.entries(), index) {
        let entry = Entry { caller: 0, call };
        queue.note(
            rt,
            Noted {
                session: number,
                index,
                entry,
            },
        );
    }
    Ok(())
}

// What the entry at this place is that a closing made, or a limit in its place.
fn entered_at(entries: &[Entry], index: u64) -> Option<Entered> {
    let entry = entries.get(index as usize)?;
    match &entry.call {
        Entered::BackClosed {
            stream,
            closing,
            now,
        } => Some(Entered::BackClosed {
            stream: *stream,
            closing: *closing,
            now: *now,
        }),
        Entered::Limit { kind, cost, now } => Some(Entered::Limit {
            kind: *kind,
            cost: *cost,
            now: *now,
        }),
        _ => None,
    }
}

// The latest moment of all entries, 0 where none has one.
fn latest_of(sessions: &[Journalled]) -> Moment
    ensures { result ≡ latest_of sessions.now }
{
    let mut latest = 0u64;
    for session in sessions {
        latest = latest.max(latest_in(session.entries()));
    }
    Moment::from_millis(latest)
}

fn latest_in(entries: &[Entry]) -> u64
    ensures { result ≡ latest_in entries.now }
{
    let mut latest = 0u64;
    for entry in entries {
        latest = latest.max(moment_of(&entry.call));
    }
    latest
}

// The moment of an entry, 0 where it has none.
fn moment_of(call: &Entered) -> u64
    ensures { result ≡ moment_of call.now }
{
    match call {
        Entered::Open { now, .. } => now.millis(),
        Entered::Arrive { now, .. } => now.millis(),
        Entered::Back { now, .. } => now.millis(),
        Entered::BackClosed { now, .. } => now.millis(),
        Entered::Tick { now } => now.millis(),
        Entered::Limit { now, .. } => now.millis(),
        Entered::Collect { .. } => 0,
        Entered::TakeInward => 0,
    }
}
