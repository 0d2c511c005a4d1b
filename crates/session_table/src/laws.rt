ghost use Rattle.std.specs.Prelude.{◌≡◌, ℕ, Contains, List};
ghost use Rattle.session_table.specs.declared.calls.LiveSession.{LiveSession};
ghost use Rattle.session_table.specs.declared.entry.Entry.{Entry};
ghost use Rattle.session_table.specs.History.{IsLegal, openings_of};
ghost use Rattle.session_table.specs.Purses.{IsNumberOf};
ghost use Rattle.session_table.specs.Replies.{live_sessions};
ghost use Rattle.session_table.specs.Sessions.{OpenedSession};

/// The names of sessions differ: in whatever was seen of a directory, two sessions of one name are one session.
pub fn names_differ()
    ensures { (log : List Entry) → IsLegal log → (x y : OpenedSession) → Contains (openings_of log) x → Contains (openings_of log) y → x.sid ≡ y.sid → x ≡ y }
{}

/// The directory tells a live session under the number that its name has: whoever finds it by its name finds that number.
pub fn live_sessions_are_told_by_number()
    ensures { (log : List Entry) → IsLegal log → (session : LiveSession) → Contains (live_sessions log) session → (number : ℕ) → IsNumberOf session.sid number → number ≡ session.number }
{}
