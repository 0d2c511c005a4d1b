ghost use Rattle.std.specs.Prelude.{◌≡◌, ℕ, ◌↔◌, List, ◌++◌, true};
ghost use Rattle.body_cutter.specs.declared.place.Place.TheVariants.{Start, StanzaStart};
ghost use Rattle.body_cutter.specs.declared.place.Kind.TheVariants as kinds;
ghost use Rattle.body_cutter.specs.Reader.{State, first_state};
ghost use Rattle.body_cutter.specs.Refusal.{Ended, reading};
ghost use Rattle.body_cutter.specs.BodyText.{IsBodyText, IsElementText};
ghost use Rattle.body_cutter.specs.Completion.{completion};
ghost use Rattle.body_cutter.specs.Viable.{has_state, IsViable};

/// Some bytes make a text of the grammar of a prefix exactly where the reader has a state after it.
pub fn prefixes_are_viable_where_read()
    // What completes the state makes a text of the prefix that was read to it.
    ensures completed_body { (front : List ℕ) (s : State) → reading 0 (first_state kinds.Body Start) front ≡ Ended s → IsBodyText (front ++ completion s) }
    ensures completed_stanza { (front : List ℕ) (s : State) → reading 0 (first_state kinds.Stanza StanzaStart) front ≡ Ended s → IsElementText (front ++ completion s) }
    ensures body { (front : List ℕ) → IsViable IsBodyText front ↔ (has_state (reading 0 (first_state kinds.Body Start) front) ≡ true) }
    ensures stanza { (front : List ℕ) → IsViable IsElementText front ↔ (has_state (reading 0 (first_state kinds.Stanza StanzaStart) front) ≡ true) }
{}
