// What holds of the files that are left.
ghost use Rattle.std.specs.Prelude.{◌≡◌, ◌++◌, ℕ, List, Some, slice_get};
ghost use Rattle.session_journal.specs.Stored.{IsLegal};
ghost use Rattle.journal_store.specs.Entries.{journal_in};
ghost use Rattle.journal_store.specs.declared.reading.SessionEntry.{SessionEntry};
ghost use Rattle.session_store.specs.Journals.{AreJournals};
ghost use Rattle.serve_journal.specs.Writing.{AllGo};

/// A file of journals stays one where entries go behind it in order, and the sessions that they are of have journals with them.
pub fn entries_in_order_are_journals()
    ensures { (entries more : List SessionEntry) → AreJournals entries → AllGo entries more →
        ((place : ℕ) (e : SessionEntry) → slice_get more place ≡ Some e → IsLegal (journal_in e.session (entries ++ more))) → AreJournals (entries ++ more) }
{}
