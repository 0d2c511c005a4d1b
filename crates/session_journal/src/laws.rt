ghost use Rattle.std.specs.Prelude.{List};
ghost use Rattle.session_core.specs.Journal.{Journal};
ghost use Rattle.session_journal.specs.declared.entry.Entry.{Entry};
ghost use Rattle.session_journal.specs.SeenLaws.{SeenLaws};
ghost use Rattle.session_journal.specs.Stored.{IsJournalOf};

use session_laws::every_journal_keeps_the_laws;

/// What everything that was seen of a session keeps, as what a pass of its gate has seen.
pub fn what_was_seen_keeps_the_laws()
    ensures { (log : List Entry) (journal : Journal) → IsJournalOf log journal → SeenLaws log journal }
{
    every_journal_keeps_the_laws();
}
