// What a session is opened with.
ghost use Rattle.std.specs.Prelude.{◌≡◌};
ghost use Rattle.session_table.specs.Replies.{gap_waits_in};

use bosh_types::limits::{JOURNAL_BYTES, MOST_OPENINGS, MOST_SESSIONS};
use bosh_types::{Moment, SharedText, Stanzas, Text};
use session_attrs::Request;

const MOST_GAP_WAITS: u32 = 10;

/// How much may be kept where a session is opened.
#[derive(Clone, Copy, Debug, PartialEq, Eq)]
pub struct Limits {
    /// How many sessions may be live at once.
    pub live: u32,
    /// How many may be opened since the directory was made.
    pub openings: u32,
    /// How many counted bytes the journal of each may have.
    pub journal: u64,
    /// After how many times its `wait` a session answers a request beyond a gap by an error (XEP-0124, section 17.3): 1 to 10. What is
    /// less counts as 1, and what is more as 10.
    pub gap_waits: u32,
}

impl Limits {
    /// Those of a server that was told no others.
    pub const USUAL: Limits = Limits {
        live: MOST_SESSIONS,
        openings: MOST_OPENINGS,
        journal: JOURNAL_BYTES,
        gap_waits: 1,
    };

    // How many times it is, within 1 and 10.
    pub(crate) fn gap_waits_within(&self) -> u32
        ensures { result ≡ gap_waits_in self.now }
    {
        self.gap_waits.max(1).min(MOST_GAP_WAITS)
    }
}

/// A creation, which its body gives, for a host with a greeting; the part of the session's name that was drawn for it; and the limits
/// that it is opened within.
#[derive(Drop)]
pub struct Opening {
    pub name: Text,
    pub host: SharedText,
    pub greeting: Stanzas,
    pub request: Request,
    pub body: SharedText,
    pub at: Moment,
    pub limits: Limits,
}
