ghost use Rattle.std.specs.Prelude.{◌≡◌, All, List, ℕ};
ghost use Rattle.script_text.specs.Answered.{AreAccounted, GivesKept, IsRefused, lines_told, stages_by};
ghost use Rattle.session_store.specs.Opened.{IsDamagedAt};
ghost use Rattle.script_text.specs.Entered.{AreStill, AreTimed, IsEntered};
ghost use Rattle.script_text.specs.Fates.{HasFates};
ghost use Rattle.script_text.specs.Handed.{IsHanded};
ghost use Rattle.script_text.specs.Kept.{HasJournalsOf};
ghost use Rattle.script_text.specs.Live.{PlainLive};
ghost use Rattle.script_text.specs.Manager.{PlainManager};
ghost use Rattle.script_text.specs.Headline.{KeepsItsWord, opened_by, sessions_of};
ghost use Rattle.script_text.specs.Posted.{CameFrom, posts_by};
ghost use Rattle.script_text.specs.Script.{drive_of};

use session_laws::every_journal_keeps_the_laws;

/// What the report of every script, whatever its bytes, says of the sessions that it opens: of each what went inward, once and
/// in order, and how it ended; that to each came what the script posted for it; that each line is the entry that it says, at
/// the moment of the last line `at`, of the live session that it names, and of no other; that what the server hands to a
/// session it was given, or is said to be refused, and then left nothing but its entry; that each request that was posted is
/// answered, lost, gone, or waits; that each answer that went out is what one of them gave, for good, the id of the latest
/// request on the answer's connection, or is the error of a copy of that id that was struck, or refuses a body with the
/// condition of its cause; that a body with such a cause was refused so, and touched no session; and that a request whose id
/// has a kept answer was given its bytes.
pub fn reports_tell_of_sessions()
    ensures told { (script : List ℕ) → KeepsItsWord (drive_of script) }
    ensures came { (script : List ℕ) → All (CameFrom (posts_by script)) (sessions_of (drive_of script)) }
    ensures stages { (script : List ℕ) → lines_told (stages_by script) ≡ (drive_of script).report }
    ensures entered { (script : List ℕ) → All IsEntered (stages_by script) }
    ensures moments { (script : List ℕ) → AreTimed 0 (stages_by script) }
    ensures still { (script : List ℕ) → All (AreStill (sessions_of (drive_of script))) (stages_by script) }
    ensures handed { (script : List ℕ) → All IsHanded (stages_by script) }
    ensures fates { (script : List ℕ) → All HasFates (stages_by script) }
    ensures answers { (script : List ℕ) → All (AreAccounted (opened_by (drive_of script)) (sessions_of (drive_of script))) (stages_by script) }
    ensures refused { (script : List ℕ) → All IsRefused (stages_by script) }
    ensures repeats { (script : List ℕ) → All GivesKept (stages_by script) }
{
    every_journal_keeps_the_laws();
}

/// What a crash leaves of a file over whose sessions a script is run is damaged nowhere.
pub fn crashes_leave_no_damage()
    ensures { (m : PlainManager) (ended : List PlainLive) (script image : List ℕ) (at : ℕ) → HasJournalsOf m ended script image → IsDamagedAt image at → ⊥ }
{}
