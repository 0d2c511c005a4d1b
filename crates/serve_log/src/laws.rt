// A law of what is written.
ghost use Rattle.std.specs.Prelude.{◌≡◌, ℕ, List, true};
ghost use Rattle.std.specs.List.{list_all};
ghost use Rattle.serve_log.specs.Fields.{is_seen, shown_text};

/// No value breaks a line, whatever its bytes: all that is written of a text is 32 or more, so that a line ends where its writer ends it, and
/// nobody who chooses a text can make a line of it.
pub fn values_are_seen()
    ensures values { (text : List ℕ) → list_all is_seen (shown_text text) ≡ true }
{}
