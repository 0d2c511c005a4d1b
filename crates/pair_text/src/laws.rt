// What is true of every report of two ends.
ghost use Rattle.std.specs.Prelude.{ℕ, List};
ghost use Rattle.pair_text.specs.Script.{pair_of};
ghost use Rattle.pair_text.specs.Told.{Tells};

use two_ends::every_world_keeps_both_prefixes;

/// The report of any script tells of one world: of all that was seen in it, and of nothing else. Its `in` lines are what went
/// inward at the manager, on each stream a beginning of what the client made for it; its `got` lines are what the client handed out, on each
/// stream a beginning of what the server gave on it.
pub fn reports_tell_of_one_world()
    ensures told { (script : List ℕ) → Tells (pair_of script).last (pair_of script).report }
{
    every_world_keeps_both_prefixes();
}
