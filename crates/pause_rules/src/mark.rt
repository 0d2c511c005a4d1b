ghost use Rattle.std.specs.Prelude.{◌≡◌};
ghost use Rattle.pause_rules.specs.Overactive.{apart};

use bosh_types::Moment;

/// What the rules on overactivity ask of a request.
#[derive(Clone, Copy, Debug, PartialEq, Eq)]
pub struct Mark {
    /// When the copy arrived that stands for it.
    pub arrived: Moment,
    /// It has no stanza, and is neither a pause nor a terminate nor a restart.
    pub empty: bool,
    /// It created the session.
    pub creation: bool,
    /// Its answer was given, and without payloads.
    pub bare: bool,
}

impl Mark {
    /// How many milliseconds lie between two arrivals, whichever came first.
    pub(crate) fn apart(&self, other: &Mark) -> u64
        ensures { result ≡ apart self.now other.now }
    {
        self.arrived.millis().abs_diff(other.arrived.millis())
    }
}
