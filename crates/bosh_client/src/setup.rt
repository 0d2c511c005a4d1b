ghost use Rattle.std.specs.Prelude.{◌≡◌};
ghost use Rattle.bosh_client.specs.Setup.{is_setup, polls};

use bosh_types::{Rid, Text};
use session_attrs::is_allowed_text;

/// What a client begins with.
#[derive(Debug, Drop)]
pub struct ClientSetup {
    /// The id of its first request (XEP-0124, section 14.1).
    pub first: Rid,
    /// The host that it wants to reach.
    pub to: Text,
    /// For how many seconds a request may be held, at most 120, and how many may be held, at most 4. With a 0 the client
    /// polls (XEP-0124, section 12).
    pub wait: u32,
    pub hold: u32,
    /// Whether it asks for acknowledgements (XEP-0124, section 9).
    pub ack: bool,
    /// What its key sequences are made from, and how many keys each has: 2 to 4096, or 0 where no keys are sent (XEP-0124,
    /// section 15).
    pub seed: Text,
    pub keys: u32,
}

impl ClientSetup {
    /// Whether a client may begin with it: the numbers are in their ranges, and the host has at most 1023 bytes, which are
    /// UTF-8 of characters that XML 1.0, section 2.2, allows.
    #[tactic(auto, unfolding(crate::specs::Setup::is_setup))]
    pub fn is_valid(&self) -> bool
        ensures { result ≡ is_setup self.now }
    {
        if self.wait > 120 || self.hold > 4 {
            return false;
        }
        if self.keys == 1 || self.keys > 4096 {
            return false;
        }
        if self.to.len() > 1023 {
            return false;
        }
        is_allowed_text(self.to.as_slice())
    }

    /// Whether the client polls, since it lets nothing be held.
    pub(crate) fn polls(&self) -> bool
        ensures { result ≡ polls self.now }
    {
        self.wait == 0 || self.hold == 0
    }
}
