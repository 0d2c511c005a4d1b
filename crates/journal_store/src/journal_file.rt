// The journals of sessions in a file: entries wait, and are stored together.
ghost use Rattle.std.specs.Prelude.{◌≡◌, ◌≢◌, ◌⊎◌, ◌↔◌, ℕ, ◌+◌, ◌≤◌, ◌^◌, List, [], ◌∷◌, ◌++◌, IsTrue, length, OnOk, OnErr, IsErrOf};
ghost use Rattle.journal_store.specs.Contents.{content_of, HasLengths};
ghost use Rattle.journal_store.specs.Crash.{EachCrash};
ghost use Rattle.journal_store.specs.Entries.{Keeps, contents_of, AreBeforeOrAfter, AreBeforeOrNone};
ghost use Rattle.journal_store.specs.RecordFile.{IsAtRest, IsReady, CountsStored};

use crate::content::write_content;
use crate::disk::Disk;
use crate::group::{AddError, Group};
use crate::reading::SessionEntry;
use crate::record_file::{RecordFile, Stored};
use session_journal::Entry;

/// The journals of sessions in one file. What waits is stored by one call, all of it or nothing.
#[derive(Drop)]
pub struct JournalFile<D: Disk> {
    pub(crate) file: RecordFile<D>,
    pub(crate) waiting: Group,
    // Room for a content.
    room: Vec<u8>,
}

impl<D: Disk> JournalFile<D> {
    /// The journals of a file. It takes no memory.
    pub fn new(file: RecordFile<D>, group: Group, room: Vec<u8>) -> JournalFile<D>
        requires { group ≡ [] }
        ensures keeps { D.told → (stored : List SessionEntry) → IsAtRest D.seen D.time D.left file (contents_of stored) → Keeps D.seen D.time D.left result stored [] }
        ensures file { result.file ≡ file }
    {
        JournalFile {
            file,
            waiting: group,
            room,
        }
    }

    /// Has an entry of a session wait. The disk isn't asked for anything. After an error all is as it was.
    pub fn add(&mut self, session: u32, entry: &Entry) -> Result<(), AddError>
        ensures waits { D.told → (stored waiting : List SessionEntry) → Keeps D.seen D.time D.left self.old stored waiting →
            OnOk result (Keeps D.seen D.time D.left self.new stored (waiting ++ (record { session = session; entry = entry.now }) ∷ [])) }
        ensures err { D.told → (stored waiting : List SessionEntry) → Keeps D.seen D.time D.left self.old stored waiting →
            OnErr result (Keeps D.seen D.time D.left self.new stored waiting) }
        ensures file { self.new.file ≡ self.old.file }
    {
        write_content(&mut self.room, session, entry)?;
        self.waiting.add(&self.room)
    }

    /// Stores the entries that wait, all of them or none. Once it is done each crash image has them; after `Full` they wait as before.
    pub fn store(&mut self) -> Stored
        requires { D.told → IsReady D.seen D.time D.left self.old.file }
        ensures ready { D.told → IsReady D.seen D.time D.left self.new.file }
        ensures stored { D.told → result ≡ Stored.Done → (stored waiting : List SessionEntry) → Keeps D.seen D.time D.left self.old stored waiting →
            Keeps D.seen D.time D.left self.new (stored ++ waiting) [] }
        // A crash at any moment of the call leaves the entries from before it, or these and all that waited.
        ensures any_moment { D.told → (stored waiting : List SessionEntry) → Keeps D.seen D.time D.left self.old stored waiting →
            EachCrash D.time D.left self.old.file.disk self.new.file.disk (AreBeforeOrAfter stored waiting) }
        ensures spent { (result ≡ Stored.Spent) ↔ IsTrue self.old.file.is_spent }
        ensures spends { (IsTrue self.new.file.is_spent) ↔ (IsTrue self.old.file.is_spent ⊎ (result ≡ Stored.Failed)) }
        ensures full { result ≡ Stored.Full → 2 ^ 64 ≤ self.old.file.end + length self.old.waiting }
        ensures untouched { (result ≡ Stored.Full) ⊎ (result ≡ Stored.Spent) → self.new ≡ self.old }
        ensures faults { CountsStored (D.faults self.old.file.disk) (D.faults self.new.file.disk) result }
    {
        match self.file.store(&self.waiting) {
            Stored::Done => {
                self.waiting.clear();
                Stored::Done
            }
            Stored::Full => Stored::Full,
            Stored::Failed => Stored::Failed,
            Stored::Spent => Stored::Spent,
        }
    }

    /// Lets all journals go, and what waits. It is never `Full`.
    pub fn clear(&mut self) -> Stored
        requires { D.told → IsReady D.seen D.time D.left self.old.file }
        ensures ready { D.told → IsReady D.seen D.time D.left self.new.file }
        ensures cleared { D.told → result ≡ Stored.Done → Keeps D.seen D.time D.left self.new [] [] }
        // A crash at any moment of the call leaves the entries from before it, or none.
        ensures any_moment { D.told → (stored waiting : List SessionEntry) → Keeps D.seen D.time D.left self.old stored waiting →
            EachCrash D.time D.left self.old.file.disk self.new.file.disk (AreBeforeOrNone stored) }
        ensures never_full { result ≢ Stored.Full }
        ensures spent { (result ≡ Stored.Spent) ↔ IsTrue self.old.file.is_spent }
        ensures spends { (IsTrue self.new.file.is_spent) ↔ (IsTrue self.old.file.is_spent ⊎ (result ≡ Stored.Failed)) }
        ensures faults { CountsStored (D.faults self.old.file.disk) (D.faults self.new.file.disk) result }
    {
        self.waiting.clear();
        self.file.clear()
    }

    pub fn file(&self) -> &RecordFile<D>
        ensures { result.now ≡ self.now.file }
    {
        &self.file
    }
}
