// Opening a file of journals: each record is entered once more, and the sessions stand as they stood.
ghost use Rattle.std.specs.Prelude.{◌≡◌, ◌+◌, [], IfOk, IfSome, List, false, length, map, true};
ghost use Rattle.session_journal.specs.declared.entry.Entry.{Entry};
ghost use Rattle.journal_store.specs.declared.reading.SessionEntry.{SessionEntry};
ghost use Rattle.journal_store.specs.Crash.{EachCrash};
ghost use Rattle.journal_store.specs.Disk.{Only, Untouched};
ghost use Rattle.journal_store.specs.Entries.{AreEntriesOf};
ghost use Rattle.journal_store.specs.RecordFile.{IsReady};
ghost use Rattle.session_store.specs.Journals.{AreJournals, AreLogs};
ghost use Rattle.session_store.specs.Opened.{Brings, CountsOpened, CountsRead, HasEntered, IfStore, ReadsAll, disk_of};

use crate::replay::{Replayed, replay};
use crate::store::Store;
use journal_store::{Begun, Disk, Finished, Group, JournalFile, Next, Opening, RecordFile};
use session_journal::Journalled;
use std::alloc::{AllocError, Global};

// A record has a gate and its length before its content.
const HEAD: u64 = 5;

/// What opening a file of journals gives.
#[derive(Drop)]
pub enum Opened<D: Disk> {
    /// The file, and the sessions of it by their numbers from 1 on, those that have ended too.
    Store {
        store: Store<D>,
        sessions: Vec<Journalled>,
    },
    /// The record at this place of the file isn't an entry that may come there. The disk comes back.
    Damaged {
        at: u64,
        disk: D,
    },
    /// The disk failed, and comes back.
    Failed(D),
    /// There wasn't the memory. The disk comes back.
    NoMemory(D),
}

// How the records of a file were entered.
#[derive(Clone, Copy, Debug, PartialEq, Eq)]
enum Read {
    All,
    Damaged { at: u64 },
    Failed,
    NoMemory,
}

/// Opens a file of journals that a crash may have left: the sessions of it are as they stood.
pub fn open<D: Disk>(alloc: Global, disk: D) -> Opened<D>
    ensures brings { D.told → Brings D.seen D.time D.left (D.seen disk) result }
    ensures unspent { IfStore result (λ store. store.journals.file.is_spent ≡ false) }
    ensures ready { D.told → IfStore result (λ store. IsReady D.seen D.time D.left store.journals.file) }
    // A crash at any moment leaves the journals that the file has.
    ensures any_moment { D.told → Only (D.seen disk) (D.left disk (D.time disk)) → (entries : List SessionEntry) → AreEntriesOf (D.seen disk) entries →
        EachCrash D.time D.left disk (disk_of result) (λ image. AreEntriesOf image entries) }
    ensures faults { CountsOpened D.faults (D.faults disk) result }
{
    let mut opening = match Opening::begin(disk) {
        Begun::Opened(opening) => opening,
        Begun::Failed(disk) => return Opened::Failed(disk),
    };
    let mut sessions = Vec::new(alloc);
    match read_all(alloc, &mut opening, &mut sessions) {
        Read::All => finish(alloc, opening, sessions),
        Read::Damaged { at } => Opened::Damaged {
            at,
            disk: opening.into_disk(),
        },
        Read::Failed => Opened::Failed(opening.into_disk()),
        Read::NoMemory => Opened::NoMemory(opening.into_disk()),
    }
}

// Enters each record in turn.
fn read_all<D: Disk>(
    alloc: Global,
    opening: &mut Opening<D>,
    sessions: &mut Vec<Journalled>,
) -> Read
    requires begun { D.told → HasEntered D.seen D.time D.left opening.old [] sessions.old.items }
    requires none { sessions.old.items ≡ [] }
    ensures reads { D.told → ReadsAll D.seen D.time D.left opening.new sessions.new.items result }
    ensures ended { result ≡ Read.All → opening.new.has_ended ≡ true }
    ensures seen { D.told → D.seen opening.new.disk ≡ D.seen opening.old.disk }
    ensures any_moment { D.told → EachCrash D.time D.left opening.old.disk opening.new.disk (Untouched (D.seen opening.old.disk)) }
    ensures faults { CountsRead (D.faults opening.old.disk) (D.faults opening.new.disk) result }
{
    let mut at = 0u64;
    loop {
        let content = match opening.next(alloc) {
            Next::Content(content) => content,
            Next::End => return Read::All,
            Next::Failed => return Read::Failed,
            Next::NoMemory => return Read::NoMemory,
        };
        match replay(alloc, sessions, content.as_slice()) {
            Ok(Replayed::Entered) => {
                // No file is so long.
                let Some(place) = behind(at, content.len()) else {
                    return Read::NoMemory;
                };
                at = place;
            }
            Ok(Replayed::Damaged) => return Read::Damaged { at },
            Err(AllocError) => return Read::NoMemory,
        }
    }
}

// The place behind a record with so many bytes of content.
fn behind(at: u64, content: usize) -> Option<u64>
    ensures { IfSome result (λ place. place ≡ at + 5 + content) }
{
    let head = at.checked_add(HEAD)?;
    head.checked_add(content as u64)
}

// Mends the end of the file, and counts what the sessions have.
fn finish<D: Disk>(alloc: Global, opening: Opening<D>, sessions: Vec<Journalled>) -> Opened<D>
    requires ended { opening.has_ended ≡ true }
    requires read { D.told → (entries : List SessionEntry) × HasEntered D.seen D.time D.left opening entries sessions.items }
    ensures brings { D.told → Brings D.seen D.time D.left (D.seen opening.disk) result }
    ensures unspent { IfStore result (λ store. store.journals.file.is_spent ≡ false) }
    ensures ready { D.told → IfStore result (λ store. IsReady D.seen D.time D.left store.journals.file) }
    ensures any_moment { D.told → (entries : List SessionEntry) → HasEntered D.seen D.time D.left opening entries sessions.items →
        EachCrash D.time D.left opening.disk (disk_of result) (λ image. AreEntriesOf image entries) }
    ensures faults { CountsOpened D.faults (D.faults opening.disk) result }
{
    let Ok(counts) = counts_of(alloc, sessions.as_slice()) else {
        return Opened::NoMemory(opening.into_disk());
    };
    let Ok(group) = Group::new(alloc) else {
        return Opened::NoMemory(opening.into_disk());
    };
    match opening.finish() {
        Finished::Opened(file) => {
            let journals = JournalFile::new(file, group, Vec::new(alloc));
            Opened::Store {
                store: Store { journals, counts },
                sessions,
            }
        }
        Finished::Failed(disk) => Opened::Failed(disk),
    }
}

// How many entries each session has.
fn counts_of(alloc: Global, sessions: &[Journalled]) -> Result<Vec<usize>, AllocError>
    ensures { IfOk result (λ counts. counts.items ≡ map (λ (log : List Entry). length log) sessions.now) }
{
    let mut counts = Vec::new(alloc);
    for session in sessions {
        counts.push(session.entries().len())?;
    }
    Ok(counts)
}
