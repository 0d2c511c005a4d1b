ghost use Rattle.std.specs.Prelude.{◌≡◌, ◌<◌, ◌^◌, ℕ, Some};
ghost use Rattle.session_table.specs.History.{IsLegal};
ghost use Rattle.session_pump.specs.Pumping.{Pumping, line_of};
ghost use Rattle.session_pump.specs.Rows.{Row};
ghost use Rattle.session_pump.specs.declared.line.Line.{Line};
ghost use Rattle.pump_laws.specs.Passing.{HandsInOrder, PassesInOrder};
ghost use Rattle.pump_laws.specs.Rows.{AllTell, IsNew};

/// After any calls of a pump, whatever they answered and however many back ends failed: what the back ends of a stream's host were
/// passed on its wire is what was taken of its session for the stream, in order, each item once, and what of that is kept comes next. And what
/// one of them gave on that wire is what the session was given on the stream, in order, each stanza once, and what is kept comes next.
pub fn every_row_passes_in_order()
    ensures passes { (a b : Pumping) → IsNew a → Row a b → IsLegal b.directory.seen
        → (number : ℕ) (line : Line) → number < 2 ^ 32 → line_of b.lines number ≡ Some line → PassesInOrder b number line }
    ensures gives { (a b : Pumping) → IsNew a → AllTell a → Row a b → IsLegal b.directory.seen
        → (number : ℕ) (line : Line) → number < 2 ^ 32 → line_of b.lines number ≡ Some line → HandsInOrder b number line }
{}
