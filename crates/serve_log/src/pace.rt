// How often a kind of line is written.
ghost use Rattle.std.specs.Prelude.{◌≡◌, ◌≤◌, ◌<◌, ◌+◌, ◌-◌, ◌^◌, IfSome, None, Some, min, true};
ghost use Rattle.serve_log.specs.Paces.{may_tell};

/// How long there is no other line of a kind, in milliseconds.
const APART: u64 = 1000;

/// What is to be told of one kind, and when it was told last: at most one line a second, with a count.
#[derive(Clone, Copy, Debug)]
pub struct Pace {
    waiting: u64,
    told: Option<u64>,
}

// Whether a second has passed since the last line of the kind.
fn may_tell(told: Option<u64>, now: u64) -> bool
    ensures { result ≡ may_tell told now }
{
    match told {
        Some(told) => told <= now && now - told >= APART,
        None => true,
    }
}

impl Pace {
    /// Nothing is to be told, and nothing was.
    pub fn new() -> Pace
        ensures none { result.waiting ≡ 0 }
        ensures untold { result.told ≡ None }
    {
        Pace {
            waiting: 0,
            told: None,
        }
    }

    /// So much more is to be told.
    pub fn add(&mut self, count: u64)
        ensures { self.new ≡ record self.old { waiting = min (self.old.waiting + count) (2 ^ 64 - 1) } }
    {
        self.waiting = self.waiting.saturating_add(count);
    }

    /// How much is told at this moment: all that waits, where a second has passed since the last time; else 0, and nothing changes.
    pub fn take_due(&mut self, now: u64) -> u64
        ensures told { 0 < result → (result ≡ self.old.waiting) × (self.new ≡ record { waiting = 0; told = Some now }) }
        ensures apart { 0 < result → IfSome self.old.told (λ told. told + 1000 ≤ now) }
        ensures untold { result ≡ 0 → self.new ≡ self.old }
        ensures due { may_tell self.old.told now ≡ true → result ≡ self.old.waiting }
    {
        if self.waiting == 0 || !may_tell(self.told, now) {
            return 0;
        }
        let count = self.waiting;
        *self = Pace {
            waiting: 0,
            told: Some(now),
        };
        count
    }

    /// How many milliseconds after this moment something is to be told, where something waits.
    pub fn rest(&self, now: u64) -> Option<u64>
        ensures none { self.now.waiting ≡ 0 → result ≡ None }
        ensures some { 0 < self.now.waiting → IfSome result (λ rest. rest ≤ 1000) }
    {
        if self.waiting == 0 {
            return None;
        }
        match self.told {
            Some(told) => Some(told.saturating_add(APART).saturating_sub(now).min(APART)),
            None => Some(0),
        }
    }
}
