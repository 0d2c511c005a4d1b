// Who stores what sessions enter.
ghost use Rattle.std.specs.Prelude.{◌≡◌, ◌++◌, ◌∷◌, ◌<◌, ◌≤◌, [], IfSome, List, OnOk, length, slice_get, true};
ghost use Rattle.journal_store.specs.RecordFile.{IsReady};
ghost use Rattle.journal_store.specs.declared.reading.SessionEntry.{SessionEntry};
ghost use Rattle.session_store.specs.Store.{Stores, of_session};
ghost use Rattle.serve_journal.specs.Writing.{IsFar, IsNext, Puts, Writes, Written, far_in};
ghost use Rattle.serve_journal.specs.declared.writer.Early.{Early};

use entry_queue::{EntryQueue, Noted};
use journal_store::{Disk, Stored};
use session_journal::History;
use session_store::Store;
use std::alloc::{AllocError, Global};
use std::collections::VecDeque;
use std::sync::Wait;

/// An entry that was taken and isn't put yet.
#[derive(Drop)]
pub(crate) struct Early {
    // How many were taken before it.
    pub(crate) place: u64,
    pub(crate) noted: Noted,
}

/// Stores entries in groups, each behind those of its session that stand before it, and openings in the order of their numbers.
#[derive(Drop)]
pub struct Writer<D: Disk + Drop> {
    pub(crate) store: Store<D>,
    // Those that wait for what stands before them.
    pub(crate) early: Vec<Early>,
    // What was taken from the queue, in order.
    pub(crate) taken: History<Noted>,
}

impl<D: Disk + Drop> Writer<D> {
    /// Nothing was taken yet.
    pub fn new(alloc: Global, store: Store<D>) -> Writer<D>
        ensures store { result.store ≡ store }
        ensures none { result.taken ≡ [] }
        ensures writes { D.told → (stored : List SessionEntry) → Stores D.seen D.time D.left store stored [] → Writes D.seen D.time D.left result stored [] }
    {
        Writer {
            store,
            early: Vec::new(alloc),
            taken: History::new(),
        }
    }

    /// Stores what was taken from the queue, and tells it how far all is stored: so many entries, from the first that was ever noted on, are in the
    /// file, and each crash image has them. None where the disk failed or there was no memory: then entries are lost, the queue is told so, and
    /// nothing more is to be written.
    pub fn write<R: Wait>(
        &mut self,
        rt: &R,
        queue: &EntryQueue,
        entries: &mut VecDeque<Noted>,
    ) -> Option<u64>
        requires { D.told → IsReady D.seen D.time D.left self.old.store.journals.file }
        ensures ready { D.told → IsReady D.seen D.time D.left self.new.store.journals.file }
        ensures taken { IfSome result (λ _. self.new.taken ≡ self.old.taken ++ entries.old.items) }
        ensures stored { D.told → (stored : List SessionEntry) → Writes D.seen D.time D.left self.old stored [] →
            IfSome result (Written D.seen D.time D.left self.new stored) }
    {
        let Ok(()) = self.put_all(entries) else {
            queue.lose(rt);
            return None;
        };
        let Stored::Done = self.store.store() else {
            queue.lose(rt);
            return None;
        };
        let stored = far_of(self.taken.len(), self.early.as_slice());
        tell(rt, queue, self, stored);
        Some(stored)
    }

    // Has all wait that may be put by now.
    fn put_all(&mut self, entries: &mut VecDeque<Noted>) -> Result<(), AllocError>
        ensures puts { D.told → (stored waiting : List SessionEntry) → Writes D.seen D.time D.left self.old stored waiting →
            OnOk result (Puts D.seen D.time D.left self.new stored waiting) }
        ensures taken { OnOk result (self.new.taken ≡ self.old.taken ++ entries.old.items) }
        ensures file { self.new.store.journals.file ≡ self.old.store.journals.file }
    {
        for _ in 0..entries.len() {
            let Some(noted) = entries.pop_front() else {
                unreachable!();
            };
            self.take(noted)?;
        }
        Ok(())
    }

    // One more was taken. It is put where that may be, and with it those that came before it.
    fn take(&mut self, noted: Noted) -> Result<(), AllocError>
        ensures puts { D.told → (stored waiting : List SessionEntry) → Writes D.seen D.time D.left self.old stored waiting →
            OnOk result (Puts D.seen D.time D.left self.new stored waiting) }
        ensures taken { OnOk result (self.new.taken ≡ self.old.taken ++ noted ∷ []) }
        ensures file { self.new.store.journals.file ≡ self.old.store.journals.file }
    {
        self.note(noted)?;
        for _ in 0..self.early.len() {
            let Some(place) = next_in(&self.store, self.early.as_slice()) else {
                return Ok(());
            };
            self.put(place)?;
        }
        Ok(())
    }

    // One more was taken, and isn't put yet.
    fn note(&mut self, noted: Noted) -> Result<(), AllocError>
        ensures writes { D.told → (stored waiting : List SessionEntry) → Writes D.seen D.time D.left self.old stored waiting →
            OnOk result (Writes D.seen D.time D.left self.new stored waiting) }
        ensures taken { OnOk result (self.new.taken ≡ self.old.taken ++ noted ∷ []) }
        ensures file { self.new.store.journals.file ≡ self.old.store.journals.file }
    {
        self.taken.room()?;
        let place = self.taken.len();
        self.taken.add(&noted);
        self.early.push(Early { place, noted })?;
        Ok(())
    }

    // Puts the one at this place of those that came early.
    fn put(&mut self, place: usize) -> Result<(), AllocError>
        requires within { place < length self.old.early.items }
        requires next { D.told → (stored waiting : List SessionEntry) → Stores D.seen D.time D.left self.old.store stored waiting →
            (early : Early) → slice_get self.old.early.items place ≡ Some early → IsNext (stored ++ waiting) early.noted }
        ensures puts { D.told → (stored waiting : List SessionEntry) → Writes D.seen D.time D.left self.old stored waiting →
            OnOk result (Puts D.seen D.time D.left self.new stored waiting) }
        ensures taken { self.new.taken ≡ self.old.taken }
        ensures file { self.new.store.journals.file ≡ self.old.store.journals.file }
    {
        let early = self.early.remove(place);
        add(&mut self.store, &early.noted)
    }
}

// Tells the queue that so many of those that were taken, from the first on, are stored.
fn tell<R: Wait, D: Disk + Drop>(rt: &R, queue: &EntryQueue, writer: &Writer<D>, stored: u64)
    requires { IsFar writer.now.taken writer.now.early.items stored }
{
    let _writer = writer;
    queue.tell_stored(rt, stored);
}

// How many of so many that were taken, from the first on, don't wait for what stands before them.
fn far_of(taken: u64, waiting: &[Early]) -> u64
    ensures { result ≡ far_in taken waiting.now }
{
    let mut far = taken;
    for early in waiting {
        far = far.min(early.place);
    }
    far
}

// The place of one that may be put by now.
fn next_in<D: Disk + Drop>(store: &Store<D>, early: &[Early]) -> Option<usize>
    ensures within { IfSome result (λ place. place < length early.now) }
    ensures next { D.told → (stored waiting : List SessionEntry) → Stores D.seen D.time D.left store.now stored waiting →
        IfSome result (λ place. (e : Early) → slice_get early.now place ≡ Some e → IsNext (stored ++ waiting) e.noted) }
{
    for place in 0..early.len() {
        if is_next(store, &early[place].noted) {
            return Some(place);
        }
    }
    None
}

// Whether all stands that has to stand before it.
fn is_next<D: Disk + Drop>(store: &Store<D>, noted: &Noted) -> bool
    ensures { D.told → (stored waiting : List SessionEntry) → Stores D.seen D.time D.left store.now stored waiting →
        result ≡ true → IsNext (stored ++ waiting) noted.now }
{
    let Ok(session) = u32::try_from(noted.session) else {
        return false;
    };
    if session == 0 {
        return false;
    }
    if store.count(session) as u64 != noted.index {
        return false;
    }
    session as usize - 1 <= store.sessions()
}

// Has the entry wait to be stored.
fn add<D: Disk + Drop>(store: &mut Store<D>, noted: &Noted) -> Result<(), AllocError>
    ensures adds { D.told → 1 ≤ noted.now.session → (stored waiting : List SessionEntry) → Stores D.seen D.time D.left store.old stored waiting →
        OnOk result (Stores D.seen D.time D.left store.new stored (waiting ++ of_session noted.now.session noted.now.entry ∷ [])) }
    ensures file { store.new.journals.file ≡ store.old.journals.file }
{
    let Ok(session) = u32::try_from(noted.session) else {
        return Err(AllocError);
    };
    match store.add(session, &noted.entry) {
        Ok(()) => Ok(()),
        Err(_) => Err(AllocError),
    }
}
