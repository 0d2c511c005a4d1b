// The command `keep`: a script over the sessions of a file.
ghost use Rattle.std.specs.Prelude.{◌≡◌, ◌≢◌, ◌↔◌, ◌++◌, [], ◌∷◌, Contains, IfOk, IfSome, List, None, ℕ, false, is_some};
ghost use Rattle.std.specs.Io.KnownBytes.{Appends};
ghost use Rattle.std.specs.List.{AllByRecursion};
ghost use Rattle.bosh_ports.specs.Faults.{HasRisen};
ghost use Rattle.journal_store.specs.Disk.{Only};
ghost use Rattle.journal_store.specs.Entries.{AreEntriesOf, FitsContent};
ghost use Rattle.journal_store.specs.RecordFile.{IsReady};
ghost use Rattle.journal_store.specs.declared.reading.SessionEntry.{SessionEntry};
ghost use Rattle.session_store.specs.Journals.{AreJournals, AreLogs};
ghost use Rattle.session_store.specs.Opened.{IsDamagedAt};
ghost use Rattle.session_store.specs.Store.{Stores};
ghost use Rattle.bosh_commands.specs.Keep.{GivesKept, GivesResumed, KeepsFile, LeavesUndamaged, SaysDamaged, damaged_text, disk_of, file_in, keep_command, kept_status, status_of};

use crate::run::{BAD_SCRIPT, DONE, NO_MEMORY, READ_FAULT, WRITE_FAULT, WRONG_WORDS};
use bosh_ports::{Sink, Source, give_all};
use journal_store::Disk;
use script_text::{Driven, KeptError, Sessions, drive_over, push_number};
use session_journal::Journalled;
use session_store::{Opened, Store, open};
use std::alloc::{AllocError, Global};

/// The disk failed: what the last line entered is on it or not, and all before is.
pub const STORE_FAULT: u8 = 11;
/// The file isn't one of journals: `damaged` says from which byte on.
pub const DAMAGED: u8 = 12;

/// What a run over a file came to: its status, and the file or its disk as it is then.
#[derive(Drop)]
pub enum Kept<D: Disk> {
    /// A script was run over it.
    Ran { status: u8, store: Store<D> },
    /// It was not opened.
    Stopped { status: u8, disk: D },
}

impl<D: Disk> Kept<D> {
    pub fn status(&self) -> u8
        ensures { result ≡ status_of self.now }
    {
        match self {
            Kept::Ran { status, .. } => *status,
            Kept::Stopped { status, .. } => *status,
        }
    }
}

/// Runs the script that the source gives over the sessions of the file on this disk, where the words are `keep` and a name. What a
/// line enters is on the disk before anything of its report is given. The status is that of `drive`; or the disk failed; or the
/// file is damaged, and `damaged` and the place were given.
pub fn run_kept<S: Source, K: Sink, D: Disk>(
    alloc: Global,
    words: &[String],
    source: &mut S,
    sink: &mut K,
    disk: D,
) -> Kept<D>
    ensures statuses { Contains (0 ∷ 2 ∷ 3 ∷ 4 ∷ 5 ∷ 6 ∷ 11 ∷ 12 ∷ []) (status_of result) }

    // Other words, and these alone, have the status 2, and then nothing is touched.
    ensures wrong_words { (status_of result ≡ 2) ↔ (file_in words.now ≡ None) }
    ensures unread { status_of result ≡ 2 → source.new ≡ source.old }
    ensures unwritten { status_of result ≡ 2 → sink.new ≡ sink.old }
    ensures unstored { status_of result ≡ 2 → disk_of result ≡ disk }

    // Where the disk tells its content and the source its bytes, these statuses are those of the script over the sessions of the file,
    // and what was given is its report and nothing else.
    ensures done { D.told → status_of result ≡ 0 → GivesKept (D.seen disk) (S.left source.old) 0 (K.given sink.old) (K.given sink.new) }
    ensures bad { D.told → status_of result ≡ 3 → GivesKept (D.seen disk) (S.left source.old) 3 (K.given sink.old) (K.given sink.new) }

    // This one says where the file is damaged; and of a damaged file no script is read.
    ensures damaged { D.told → status_of result ≡ 12 → SaysDamaged (D.seen disk) (K.given sink.old) (K.given sink.new) }
    ensures unrun { D.told → (at : ℕ) → IsDamagedAt (D.seen disk) at → source.new ≡ source.old }

    // Whatever came of a file of journals: a crash now leaves the journal of each session as it is after the lines of whose report
    // anything was given, or after one line more, and of the report of those lines a front was given and nothing else; and a crash at any
    // moment leaves them as they are after some of the script's lines.
    ensures crash { D.told → Only (D.seen disk) (D.left disk (D.time disk)) → IfSome (S.left source.old) (λ script. (entries : List SessionEntry) →
        AreEntriesOf (D.seen disk) entries → AllByRecursion FitsContent entries → AreJournals entries →
        KeepsFile D.time D.left entries script disk (disk_of result) (K.given sink.old) (K.given sink.new)) }

    // What a crash at any moment leaves of it is a file that is damaged nowhere, so that it can be opened again.
    ensures undamaged { D.told → Only (D.seen disk) (D.left disk (D.time disk)) → IfSome (S.left source.old) (λ script. (entries : List SessionEntry) →
        AreEntriesOf (D.seen disk) entries → AllByRecursion FitsContent entries → AreJournals entries → LeavesUndamaged D.time D.left disk (disk_of result)) }

    // A count of faults rises with the status that names it, and with no other.
    ensures read_fault { status_of result ≡ 4 → HasRisen (S.faults source.old) (S.faults source.new) }
    ensures read_counts { status_of result ≢ 4 → S.faults source.new ≡ S.faults source.old }
    ensures write_fault { status_of result ≡ 5 → HasRisen (K.faults sink.old) (K.faults sink.new) }
    ensures write_counts { status_of result ≢ 5 → K.faults sink.new ≡ K.faults sink.old }
    ensures store_fault { status_of result ≡ 11 → HasRisen (D.faults disk) (D.faults (disk_of result)) }
    ensures store_counts { status_of result ≢ 11 → D.faults (disk_of result) ≡ D.faults disk }
{
    if !is_keep(words) {
        return Kept::Stopped {
            status: WRONG_WORDS,
            disk,
        };
    }
    match open(alloc, disk) {
        Opened::Store { store, sessions } => keep(alloc, store, sessions, source, sink),
        Opened::Damaged { at, disk } => Kept::Stopped {
            status: tell_damaged(alloc, sink, at),
            disk,
        },
        Opened::Failed(disk) => Kept::Stopped {
            status: STORE_FAULT,
            disk,
        },
        Opened::NoMemory(disk) => Kept::Stopped {
            status: NO_MEMORY,
            disk,
        },
    }
}

// Whether the words are `keep` and the name of a file.
fn is_keep(words: &[String]) -> bool
    ensures { result ≡ is_some (file_in words.now) }
{
    match words {
        [word, name] => is_keep_of(word.as_bytes(), name.as_bytes()),
        _ => false,
    }
}

#[tactic(auto, unfolding(crate::specs::Keep::keep_command))]
fn is_keep_of(word: &[u8], _name: &[u8]) -> bool
    ensures { result ≡ is_some (keep_command word.now _name.now) }
{
    word == b"keep".as_slice()
}

// Runs the script over the sessions of an opened file.
fn keep<S: Source, K: Sink, D: Disk>(
    alloc: Global,
    mut store: Store<D>,
    sessions: Vec<Journalled>,
    source: &mut S,
    sink: &mut K,
) -> Kept<D>
    requires ready { D.told → IsReady D.seen D.time D.left store.journals.file }
    requires unspent { store.journals.file.is_spent ≡ false }
    ensures statuses { Contains (0 ∷ 3 ∷ 4 ∷ 5 ∷ 6 ∷ 11 ∷ []) (status_of result) }
    ensures done { status_of result ≡ 0 → IfSome (S.left source.old) (λ script. GivesResumed sessions.items script 0 (K.given sink.old) (K.given sink.new)) }
    ensures bad { status_of result ≡ 3 → IfSome (S.left source.old) (λ script. GivesResumed sessions.items script 3 (K.given sink.old) (K.given sink.new)) }
    ensures crash { D.told → IfSome (S.left source.old) (λ script. (entries : List SessionEntry) →
        AllByRecursion FitsContent entries → AreJournals entries → Stores D.seen D.time D.left store entries [] → AreLogs sessions.items entries →
        KeepsFile D.time D.left entries script store.journals.file.disk (disk_of result) (K.given sink.old) (K.given sink.new)) }
    ensures read_fault { status_of result ≡ 4 → HasRisen (S.faults source.old) (S.faults source.new) }
    ensures read_counts { status_of result ≢ 4 → S.faults source.new ≡ S.faults source.old }
    ensures write_fault { status_of result ≡ 5 → HasRisen (K.faults sink.old) (K.faults sink.new) }
    ensures write_counts { status_of result ≢ 5 → K.faults sink.new ≡ K.faults sink.old }
    ensures store_fault { status_of result ≡ 11 → HasRisen (D.faults store.journals.file.disk) (D.faults (disk_of result)) }
    ensures store_counts { status_of result ≢ 11 → D.faults (disk_of result) ≡ D.faults store.journals.file.disk }
{
    let Ok(sessions) = Sessions::resume(alloc, sessions) else {
        return Kept::Ran {
            status: NO_MEMORY,
            store,
        };
    };
    let driven = drive_over(alloc, &mut store, sessions, source, sink);
    let status = status_after(driven);
    Kept::Ran { status, store }
}

// The status of a script that was run over a file.
fn status_after(driven: Result<Driven, KeptError>) -> u8
    ensures { result ≡ kept_status driven }
{
    match driven {
        Ok(Driven::Done) => DONE,
        Ok(Driven::Bad { .. }) => BAD_SCRIPT,
        Err(KeptError::ReadFault) => READ_FAULT,
        Err(KeptError::WriteFault) => WRITE_FAULT,
        Err(KeptError::StoreFault) => STORE_FAULT,
        Err(KeptError::NoMemory) => NO_MEMORY,
    }
}

// Says from which byte on the file is none of journals.
fn tell_damaged<K: Sink>(alloc: Global, sink: &mut K, at: u64) -> u8
    ensures statuses { Contains (5 ∷ 6 ∷ 12 ∷ []) result }
    ensures given { result ≡ 12 → Appends (K.given sink.old) (K.given sink.new) (damaged_text at) }
    ensures write_fault { result ≡ 5 → HasRisen (K.faults sink.old) (K.faults sink.new) }
    ensures write_counts { result ≢ 5 → K.faults sink.new ≡ K.faults sink.old }
{
    let Ok(text) = damaged_text(alloc, at) else {
        return NO_MEMORY;
    };
    match give_all(sink, text.as_slice()) {
        Ok(()) => DAMAGED,
        Err(_) => WRITE_FAULT,
    }
}

#[tactic(auto, unfolding(crate::specs::Keep::damaged_text))]
fn damaged_text(alloc: Global, at: u64) -> Result<Vec<u8>, AllocError>
    ensures { IfOk result (λ text. text.items ≡ damaged_text at) }
{
    let mut text = Vec::from_slice(alloc, b"damaged ")?;
    push_number(alloc, &mut text, at)?;
    text.push(b'\n')?;
    Ok(text)
}
