// The limit of a session's journal: each entry of it adds its cost to the counted bytes.
ghost use Rattle.std.specs.Prelude.{◌≡◌, ◌+◌, OnErr, OnOk, false, nat_lt};
ghost use Rattle.session_core.specs.Arriving.{IsModest};
ghost use Rattle.session_core.specs.Machine.{body_cost, full_with, is_full, stanza_cost, with_cost};
ghost use Rattle.session_core.specs.StandsFor.{StandsFor};
ghost use Rattle.session_core.specs.State.{PlainSession, is_over};
ghost use Rattle.session_core.specs.Time.{time_applied};

use crate::session::Session;
use bosh_types::{Ending, Moment, SharedText};
use session_attrs::Request;
use std::alloc::{AllocError, Global};

/// What a closing, and the passing of time, add to the counted bytes of the journal.
pub const PLAIN_COST: u64 = 64;

/// What an arriving body adds to the counted bytes of the journal.
pub fn cost_of_body(request: &Request, body: &SharedText) -> u64
    requires { IsModest request.now body.now }
    ensures { result ≡ body_cost request.now body.now }
{
    128 + body.len() as u64 + 64 * request.stanzas.len() as u64
}

/// What a stanza of the server adds to the counted bytes of the journal.
pub fn cost_of_stanza(stanza: &SharedText) -> u64
    ensures { result ≡ stanza_cost stanza.now }
{
    let bytes = stanza.as_slice();
    PLAIN_COST + bytes.len() as u64
}

impl Session {
    /// Whether the journal has no room for an entry of this cost: the counted bytes with it are more than the limit.
    #[tactic(auto, unfolding(crate::specs::StandsFor::StandsFor))]
    pub fn is_full(&self, cost: u64) -> bool
        ensures { (plain : PlainSession) → StandsFor self.now plain → result ≡ is_full plain cost }
    {
        passes_limit(self.limit, self.counted, cost)
    }

    /// A session that goes on ends, since its journal has no room for an entry of this cost, whatever call would make it. Nothing
    /// else is applied, and the session's moment stays. The only error is want of memory, and then all is as it was.
    pub fn meet_limit(&mut self, alloc: Global, cost: u64) -> Result<(), AllocError>
        ensures after { (plain : PlainSession) → StandsFor self.old plain → is_over plain ≡ false
            → OnOk result (StandsFor self.new (full_with cost plain)) }
        ensures err { OnErr result (self.new ≡ self.old) }
    {
        let mut draft = self.copied(alloc)?;
        draft.fill(alloc, cost)?;
        *self = draft;
        Ok(())
    }

    /// The same, of which after an error anything may be left.
    #[tactic(auto, unfolding(crate::specs::StandsFor::StandsFor))]
    pub(crate) fn fill(&mut self, alloc: Global, cost: u64) -> Result<(), AllocError>
        ensures { (plain : PlainSession) → StandsFor self.old plain → is_over plain ≡ false
            → OnOk result (StandsFor self.new (full_with cost plain)) }
    {
        let counted = self.counted;
        self.end(alloc, Ending::JournalFull { counted, cost })
    }

    /// An entry for which there is room: time is applied first, and then its cost is counted.
    pub(crate) fn enter(&mut self, alloc: Global, cost: u64, now: Moment) -> Result<(), AllocError>
        ensures { (plain : PlainSession) → StandsFor self.old plain → is_full plain cost ≡ false
            → OnOk result (StandsFor self.new (with_cost cost (time_applied plain now))) }
    {
        self.apply_time(alloc, now)?;
        self.count(cost);
        Ok(())
    }

    #[tactic(auto, unfolding(crate::specs::StandsFor::StandsFor))]
    fn count(&mut self, cost: u64)
        ensures { (plain : PlainSession) → StandsFor self.old plain → is_full plain cost ≡ false
            → StandsFor self.new (with_cost cost plain) }
    {
        self.counted = sum_within(self.limit, self.counted, cost);
    }
}

// The sum of both, which is at most the limit.
fn sum_within(limit: u64, counted: u64, cost: u64) -> u64
    ensures { nat_lt limit (counted + cost) ≡ false → result ≡ counted + cost }
{
    counted.saturating_add(cost).min(limit)
}

// Whether this cost leads beyond the limit.
fn passes_limit(limit: u64, counted: u64, cost: u64) -> bool
    ensures { result ≡ nat_lt limit (counted + cost) }
{
    match counted.checked_add(cost) {
        Some(sum) => sum > limit,
        None => true,
    }
}
