// In which order the lines of a session are written.
ghost use Rattle.std.specs.Prelude.{◌≡◌, ◌↔◌, ◌⊎◌, ◌<◌, ◌≤◌, true};

/// Where the id of a copy stands among the ids that came.
#[derive(Clone, Copy, PartialEq, Eq)]
pub enum Place {
    /// It is below the first.
    Low,
    /// One with it came without a gap.
    Again,
    /// It is the next one.
    Next,
    /// One below it didn't come yet.
    Beyond,
}

/// Where an id stands: each from `first` on came that is below `next`, and this one didn't.
pub fn place_of(first: u64, next: u64, rid: u64) -> Place
    requires { first ≤ next }
    ensures low { (result ≡ Place.Low) ↔ (rid < first) }
    ensures again { (result ≡ Place.Again) ↔ ((first ≤ rid) × (rid < next)) }
    ensures next { (result ≡ Place.Next) ↔ (rid ≡ next) }
    ensures beyond { (result ≡ Place.Beyond) ↔ (next < rid) }
{
    if rid < first {
        return Place::Low;
    }
    if rid < next {
        return Place::Again;
    }
    if rid == next {
        return Place::Next;
    }
    Place::Beyond
}

/// Whether an answer may be written now: its request was written before, and so was, for one without a `type`, an answer without one to
/// each lower id. `next` is the lowest id whose request wasn't, and `unanswered` the lowest without such an answer.
pub fn is_due(next: u64, unanswered: u64, rid: u64, is_typed: bool) -> bool
    ensures { (result ≡ true) ↔ ((rid < next) × ((is_typed ≡ true) ⊎ (rid ≤ unanswered))) }
{
    if rid >= next {
        return false;
    }
    if is_typed {
        return true;
    }
    rid <= unanswered
}
