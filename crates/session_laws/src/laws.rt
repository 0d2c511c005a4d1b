ghost use Rattle.std.specs.Prelude.{◌≡◌, ℕ, List, [], ◌∷◌, Some};
ghost use Rattle.session_core.specs.declared.copy.RequestCopy.{RequestCopy};
ghost use Rattle.session_core.specs.Journal.{Call, Entry, Journal, IsJournal, IsAllowed, MayEnter, entered_by, after_entry, state_of};
ghost use Rattle.session_core.specs.Processed.{Processed};
ghost use Rattle.session_core.specs.Run.{IsLongestRun};
ghost use Rattle.session_core.specs.State.{Placing};
ghost use Rattle.session_laws.specs.Growing.{with_later};
ghost use Rattle.session_laws.specs.Laws.{KeptLaws};
ghost use Rattle.session_laws.specs.RunEnded.{IsRunOfEnded};

/// What every journal of a session keeps.
pub fn every_journal_keeps_the_laws()
    ensures laws { (journal : Journal) → IsJournal journal → KeptLaws journal }
{}

/// There is one longest run of what was received, and one run of a session that has ended.
pub fn there_is_one_run()
    ensures longest { (first : ℕ) (placings : List Placing) (run other : List RequestCopy) → IsLongestRun first placings run → IsLongestRun first placings other → run ≡ other }
    ensures ended { (journal : Journal) → IsJournal journal → (run other : List Processed) → IsRunOfEnded journal run → IsRunOfEnded journal other → run ≡ other }
{}

/// A call that enters something makes a longer journal, as does whatever may be entered, and the state is then that after the entry.
pub fn calls_make_longer_journals()
    ensures made { (journal : Journal) (call : Call) (entry : Entry) → IsJournal journal → IsAllowed call
        → entered_by (state_of journal) call ≡ Some entry.entered → IsJournal (with_later journal (entry ∷ [])) }
    ensures entry { (journal : Journal) (entry : Entry) → IsJournal journal → MayEnter (state_of journal) entry.entered
        → IsJournal (with_later journal (entry ∷ [])) }
    ensures state { (journal : Journal) (entry : Entry) → state_of (with_later journal (entry ∷ [])) ≡ after_entry (state_of journal) entry.entered }
{}
