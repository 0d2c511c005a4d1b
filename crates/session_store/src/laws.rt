// What holds of files whose entries are journals.
ghost use Rattle.std.specs.Prelude.{◌+◌, ◌++◌, ◌≤◌, ℕ, List, map};
ghost use Rattle.std.specs.List.{AllByRecursion};
ghost use Rattle.session_journal.specs.declared.entry.Entry.{Entry};
ghost use Rattle.session_journal.specs.Stored.{IsLegal};
ghost use Rattle.journal_store.specs.Entries.{AreEntriesOf, FitsContent, journal_in};
ghost use Rattle.journal_store.specs.declared.reading.SessionEntry.{SessionEntry};
ghost use Rattle.session_store.specs.Journals.{AreJournals, opened_in};
ghost use Rattle.session_store.specs.Opened.{IsDamagedAt};
ghost use Rattle.session_store.specs.Store.{of_session};

/// A file whose entries are journals is damaged nowhere.
pub fn a_file_of_journals_is_not_damaged()
    ensures { (file : List ℕ) (entries : List SessionEntry) (at : ℕ) → AreEntriesOf file entries → AllByRecursion FitsContent entries →
        AreJournals entries → IsDamagedAt file at → ⊥ }
{}

/// The entries of a file stay journals where a session's go on as one, be it a session that there is or the next one.
pub fn journals_that_grow_are_journals()
    ensures { (session : ℕ) (more : List Entry) (entries : List SessionEntry) → AreJournals entries → 1 ≤ session → session ≤ opened_in entries + 1 →
        IsLegal (journal_in session entries ++ more) → AreJournals (entries ++ map (of_session session) more) }
{}
