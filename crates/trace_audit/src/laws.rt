// What the definitions say of traces.
ghost use Rattle.std.specs.Prelude.{◌≡◌, ℕ, List};
ghost use Rattle.trace_audit.specs.declared.line.TraceLine.{TraceLine};
ghost use Rattle.trace_audit.specs.declared.outcome.Audited.{Audited};
ghost use Rattle.trace_audit.specs.Outcome.{Audits};
ghost use Rattle.trace_audit.specs.Prefixes.{KeepsBothPrefixes};
ghost use Rattle.trace_audit.specs.Rules.{Holds};

/// Of a trace in which no line breaks a rule, what went inward is a beginning of what was sent, and what was got of what was
/// given. Who made the trace isn't trusted.
pub fn a_trace_that_holds_keeps_both_prefixes()
    ensures { (lines : List TraceLine) → Holds lines → KeepsBothPrefixes lines }
{}

/// A text has one outcome: so it is a yes exactly where it is a trace that holds, and a no exactly where a line breaks a rule first.
pub fn a_trace_has_one_outcome()
    ensures { (text : List ℕ) (one other : Audited) → Audits text one → Audits text other → one ≡ other }
{}
