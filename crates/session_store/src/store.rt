// The journals of a file while their sessions go on.
ghost use Rattle.std.specs.Prelude.{◌≡◌, ◌≢◌, ◌⊎◌, ◌↔◌, ◌≤◌, ◌==◌, ◌++◌, ℕ, [], ◌+◌, ◌<◌, ◌∷◌, IsTrue, List, OnErr, OnOk, drop, get_or, if◌then◌else◌, length, map, max, take};
ghost use Rattle.std.specs.List.{AllByRecursion};
ghost use Rattle.journal_store.specs.declared.reading.SessionEntry.{SessionEntry};
ghost use Rattle.journal_store.specs.Crash.{EachCrash};
ghost use Rattle.journal_store.specs.Entries.{AreBeforeOrAfter, AreBeforeOrNone, Keeps, journal_in};
ghost use Rattle.journal_store.specs.RecordFile.{CountsStored, IsReady};
ghost use Rattle.session_store.specs.Journals.{opened_in};
ghost use Rattle.session_store.specs.Store.{FitsNumbers, Stores, of_session};

use journal_store::{AddError, Disk, JournalFile, Stored};
use session_journal::{Entered, Entry};
use std::alloc::{AllocError, Global};

/// The journals of a file, to which those of sessions are added as they grow.
#[derive(Drop)]
pub struct Store<D: Disk> {
    pub(crate) journals: JournalFile<D>,
    // How many entries of each session are stored or wait, by its number from 1 on.
    pub(crate) counts: Vec<usize>,
}

impl<D: Disk> Store<D> {
    /// Has the entries of a session wait that its journal has beyond those that are stored or wait. Sessions have numbers from 1 on.
    /// After an error some of them may wait.
    pub fn keep(&mut self, session: u32, journal: &[Entry]) -> Result<(), AddError>
        ensures keeps { D.told → 1 ≤ session → (stored waiting : List SessionEntry) → Stores D.seen D.time D.left self.old stored waiting →
            OnOk result (Stores D.seen D.time D.left self.new stored (waiting ++ map (of_session session) (drop (length (journal_in session (stored ++ waiting))) journal.now))) }
        ensures file { self.new.journals.file ≡ self.old.journals.file }
    {
        let Some(place) = session.checked_sub(1) else {
            return Ok(());
        };
        let fresh = behind(journal, count_at(self.counts.as_slice(), place as usize));
        if fresh.is_empty() {
            return Ok(());
        }
        add_all(&mut self.journals, session, fresh)?;
        set_count(&mut self.counts, place, journal.len())?;
        Ok(())
    }

    /// Has the next entry of a session wait, as `keep` does those that its journal has. Sessions have numbers from 1 on. After an error all is
    /// as it was. An entry that can't be counted is as where memory is wanting.
    pub fn add(&mut self, session: u32, entry: &Entry) -> Result<(), AddError>
        ensures adds { D.told → 1 ≤ session → (stored waiting : List SessionEntry) → Stores D.seen D.time D.left self.old stored waiting →
            OnOk result (Stores D.seen D.time D.left self.new stored (waiting ++ of_session session entry.now ∷ [])) }
        ensures err { D.told → (stored waiting : List SessionEntry) → Stores D.seen D.time D.left self.old stored waiting →
            OnErr result (Stores D.seen D.time D.left self.new stored waiting) }
        ensures file { self.new.journals.file ≡ self.old.journals.file }
    {
        let Some(place) = session.checked_sub(1) else {
            return Ok(());
        };
        let place = place as usize;
        let Some(count) = count_at(self.counts.as_slice(), place).checked_add(1) else {
            return Err(AddError::NoMemory);
        };
        let before = self.counts.len();
        let Ok(()) = lengthen(&mut self.counts, place + 1) else {
            self.counts.truncate(before);
            return Err(AddError::NoMemory);
        };
        // The proof learns here that each number fits its bytes.
        know_numbers(session, entry);
        match self.journals.add(session, entry) {
            Ok(()) => {
                set_at(&mut self.counts, place, count);
                Ok(())
            }
            Err(error) => {
                self.counts.truncate(before);
                Err(error)
            }
        }
    }

    /// How many entries of a session are stored or wait.
    pub fn count(&self, session: u32) -> usize
        ensures { D.told → (stored waiting : List SessionEntry) → Stores D.seen D.time D.left self.now stored waiting →
            result ≡ length (journal_in session (stored ++ waiting)) }
    {
        match session.checked_sub(1) {
            Some(place) => count_at(self.counts.as_slice(), place as usize),
            None => 0,
        }
    }

    /// How many sessions were opened by what is stored or waits.
    pub fn sessions(&self) -> usize
        ensures { D.told → (stored waiting : List SessionEntry) → Stores D.seen D.time D.left self.now stored waiting →
            result ≡ opened_in (stored ++ waiting) }
    {
        self.counts.len()
    }

    /// Stores what waits, all of it or nothing. Once it is done each crash image has it.
    pub fn store(&mut self) -> Stored
        requires { D.told → IsReady D.seen D.time D.left self.old.journals.file }
        ensures ready { D.told → IsReady D.seen D.time D.left self.new.journals.file }
        ensures stored { D.told → result ≡ Stored.Done → (stored waiting : List SessionEntry) → Stores D.seen D.time D.left self.old stored waiting →
            Stores D.seen D.time D.left self.new (stored ++ waiting) [] }
        // A crash at any moment of the call leaves the entries from before it, or these and all that waited.
        ensures any_moment { D.told → (stored waiting : List SessionEntry) → Stores D.seen D.time D.left self.old stored waiting →
            EachCrash D.time D.left self.old.journals.file.disk self.new.journals.file.disk (AreBeforeOrAfter stored waiting) }
        ensures spent { (result ≡ Stored.Spent) ↔ IsTrue self.old.journals.file.is_spent }
        ensures spends { (IsTrue self.new.journals.file.is_spent) ↔ (IsTrue self.old.journals.file.is_spent ⊎ (result ≡ Stored.Failed)) }
        ensures faults { CountsStored (D.faults self.old.journals.file.disk) (D.faults self.new.journals.file.disk) result }
    {
        self.journals.store()
    }

    /// Lets all journals go, and what waits: the file has no session then. It is never `Full`.
    pub fn clear(&mut self) -> Stored
        requires { D.told → IsReady D.seen D.time D.left self.old.journals.file }
        ensures ready { D.told → IsReady D.seen D.time D.left self.new.journals.file }
        ensures cleared { D.told → result ≡ Stored.Done → Stores D.seen D.time D.left self.new [] [] }
        // A crash at any moment of the call leaves the entries from before it, or none.
        ensures any_moment { D.told → (stored waiting : List SessionEntry) → Stores D.seen D.time D.left self.old stored waiting →
            EachCrash D.time D.left self.old.journals.file.disk self.new.journals.file.disk (AreBeforeOrNone stored) }
        ensures never_full { result ≢ Stored.Full }
        ensures spent { (result ≡ Stored.Spent) ↔ IsTrue self.old.journals.file.is_spent }
        ensures spends { (IsTrue self.new.journals.file.is_spent) ↔ (IsTrue self.old.journals.file.is_spent ⊎ (result ≡ Stored.Failed)) }
        ensures faults { CountsStored (D.faults self.old.journals.file.disk) (D.faults self.new.journals.file.disk) result }
    {
        self.counts.clear();
        self.journals.clear()
    }

    /// The disk that the file is on.
    pub fn disk(&self) -> &D
        ensures { result.now ≡ self.now.journals.file.disk }
    {
        self.journals.file().disk()
    }
}

// The entries behind so many.
fn behind(journal: &[Entry], count: usize) -> &[Entry]
    ensures { result.now ≡ drop count journal.now }
{
    if count >= journal.len() {
        return &[];
    }
    let (_, rest) = journal.split_at(count);
    rest
}

// What was counted at a place.
fn count_at(counts: &[usize], place: usize) -> usize
    ensures { result ≡ get_or counts.now place 0 }
{
    match counts.get(place) {
        Some(count) => *count,
        None => 0,
    }
}

// From now on this is counted at a place.
fn set_count(counts: &mut Vec<usize>, place: u32, count: usize) -> Result<(), AllocError>
    ensures reads { OnOk result ((other : ℕ) → get_or counts.new.items other 0 ≡ (if other == place then count else get_or counts.old.items other 0)) }
    ensures long { OnOk result (length counts.new.items ≡ max (place + 1) (length counts.old.items)) }
{
    let place = place as usize;
    lengthen(counts, place + 1)?;
    counts[place] = count;
    Ok(())
}

// From now on this is counted at a place that there is.
fn set_at(counts: &mut Vec<usize>, place: usize, count: usize)
    requires { place < length counts.old.items }
    ensures reads { (other : ℕ) → get_or counts.new.items other 0 ≡ (if other == place then count else get_or counts.old.items other 0) }
    ensures long { length counts.new.items ≡ length counts.old.items }
{
    counts[place] = count;
}

// There are so many counts at least, the further ones 0. After an error there may be fewer.
fn lengthen(counts: &mut Vec<usize>, least: usize) -> Result<(), AllocError>
    ensures reads { (other : ℕ) → get_or counts.new.items other 0 ≡ get_or counts.old.items other 0 }
    ensures front { take (length counts.old.items) counts.new.items ≡ counts.old.items }
    ensures long { OnOk result (length counts.new.items ≡ max least (length counts.old.items)) }
{
    let mut missing = least.saturating_sub(counts.len());
    while missing > 0 {
        let Ok(()) = counts.push(0) else {
            return Err(AllocError);
        };
        missing -= 1;
    }
    Ok(())
}

// Has these entries of a session wait. After an error some of them may.
fn add_all<D: Disk>(
    journals: &mut JournalFile<D>,
    session: u32,
    entries: &[Entry],
) -> Result<(), AddError>
    ensures waits { D.told → (stored waiting : List SessionEntry) → Keeps D.seen D.time D.left journals.old stored waiting →
        OnOk result (Keeps D.seen D.time D.left journals.new stored (waiting ++ map (of_session session) entries.now)) }
    ensures numbers { OnOk result (AllByRecursion FitsNumbers (map (of_session session) entries.now)) }
    ensures file { journals.new.file ≡ journals.old.file }
{
    for entry in entries {
        // The proof learns here that each number fits its bytes.
        know_numbers(session, entry);
        journals.add(session, entry)?;
    }
    Ok(())
}

// The types of an entry's numbers say how large they are at most. It does nothing.
fn know_numbers(session: u32, entry: &Entry)
    ensures { FitsNumbers (of_session session entry.now) }
{
    let _session = session;
    let _caller = entry.caller;
    match &entry.call {
        Entered::Open {
            now,
            limit,
            gap_waits,
            ..
        } => {
            let _now = now.millis();
            let _limit = *limit;
            let _gap_waits = *gap_waits;
        }
        Entered::Arrive { now, .. } => {
            let _now = now.millis();
        }
        Entered::Collect { ticket } => {
            let _ticket = ticket.number();
        }
        Entered::Back { stream, now, .. } => {
            let _stream = stream.number();
            let _now = now.millis();
        }
        Entered::BackClosed { stream, now, .. } => {
            let _stream = stream.number();
            let _now = now.millis();
        }
        Entered::Tick { now } => {
            let _now = now.millis();
        }
        Entered::TakeInward => {}
        Entered::Limit { cost, now, .. } => {
            let _cost = *cost;
            let _now = now.millis();
        }
    }
}
