// The requests of a client: when one is due, and its bytes.
ghost use Rattle.std.specs.Prelude.{◌≡◌, ◌+◌, ◌<◌, ◌≤◌, ◌==◌, IfOk, IfSome, List, None, OnErr, Option, Some, false, length, true};
ghost use Rattle.std.specs.Option.{option_copied, option_map};
ghost use Rattle.bosh_types.specs.Rid.{greatest_rid};
ghost use Rattle.bosh_client.specs.declared.agreed.Agreed.{Agreed};
ghost use Rattle.bosh_client.specs.KeyPlace.{FollowsKeys, keys_turned};
ghost use Rattle.bosh_client.specs.Machine.{copy, has_rested, is_due, is_due_of, most_open, next_made, next_request, with_request};
ghost use Rattle.bosh_client.specs.PlainClient.{PlainClient, has_ended, last_taken, next_id, queued};
ghost use Rattle.bosh_client.specs.Loads.{Loads};
ghost use Rattle.bosh_client.specs.Outgoing.{front_of};
ghost use Rattle.bosh_client.specs.Requests.{ack_for, agreed, creation_parts, later_parts};
ghost use Rattle.bosh_client.specs.StandsFor.{Does, StandsFor};

use crate::agreed::Agreed;
use crate::client::Client;
use crate::exchanges::Slot;
use crate::keys::Keys;
use crate::outgoing::Outgoing;
use crate::queue::Load;
use crate::replies::Next;
use body_writer::{RequestParts, write_request};
use bosh_types::{CopyIn, Moment, Rid, SharedText, Stanzas, Text};
use key_sequence::KeyMaker;
use std::alloc::{AllocError, Global};

impl Client {
    /// The next request, where one is due at this moment. The front of the queue is due while fewer requests are open than
    /// the manager allows, a pause or a terminate also while just so many are (XEP-0124, sections 10 and 11); where nothing is
    /// queued, an empty request is due once none is open, but in a polling client only the agreed seconds after the last answer
    /// (section 12). Before the creation's answer only the creation is due. `Nothing` exactly where nothing is due, or the
    /// client ended; `RidsSpent` exactly where something is due and no id is left. Both change nothing. A body takes as
    /// many stanzas for the same stream as it may, at most 1024 and 1,000,000 bytes, or one of anything else. An `Err` comes from want of
    /// memory alone, and the client is as before.
    #[tactic(auto, unfolding(crate::specs::StandsFor::StandsFor))]
    pub fn next_request(&mut self, alloc: Global, now: Moment) -> Result<Next, AllocError>
        ensures step { (plain : PlainClient) → StandsFor self.old plain
            → IfOk result (λ reply. Does self.new reply (next_request plain now)) }
        ensures err { OnErr result (self.new ≡ self.old) }
    {
        if self.end.is_some() || !self.is_due(now) {
            return Ok(Next::Nothing);
        }
        let Some(rid) = self.exchanges.next() else {
            return Ok(Next::RidsSpent);
        };
        if self.agreed.is_none() {
            return self.create(alloc);
        }
        self.go_on(alloc, rid)
    }

    /// The bytes of a request that has no answer yet, to be sent again: `None` exactly where there is no such request or its
    /// answer was taken. It takes no memory.
    #[tactic(auto, unfolding(crate::specs::StandsFor::StandsFor))]
    pub fn copy(&self, rid: Rid) -> Option<&[u8]>
        ensures { (plain : PlainClient) → StandsFor self.now plain → option_copied result ≡ copy plain rid }
    {
        match self.exchanges.at(rid)? {
            Slot::Open(body) => Some(body.as_slice()),
            Slot::Answered { .. } => None,
        }
    }

    // Whether a request is due.
    #[tactic(auto, unfolding(crate::specs::StandsFor::StandsFor))]
    fn is_due(&self, now: Moment) -> bool
        ensures { (plain : PlainClient) → StandsFor self.now plain → result ≡ is_due plain now }
    {
        match &self.agreed {
            Some(agreed) => self.is_due_by(agreed, now),
            None => self.exchanges.is_empty(),
        }
    }

    #[tactic(auto, unfolding(crate::specs::StandsFor::StandsFor))]
    fn is_due_by(&self, agreed: &Agreed, now: Moment) -> bool
        ensures { (plain : PlainClient) → StandsFor self.now plain → result ≡ is_due_of plain agreed.now (queued plain) now }
    {
        match self.queue.first() {
            Some(item) => (self.exchanges.open_count() as u64) < most_open(agreed, item),
            None => self.exchanges.open_count() == 0 && self.has_rested(agreed, now),
        }
    }

    // A polling client leaves the agreed seconds after the last answer.
    #[tactic(auto, unfolding(crate::specs::StandsFor::StandsFor))]
    fn has_rested(&self, agreed: &Agreed, now: Moment) -> bool
        ensures { (plain : PlainClient) → StandsFor self.now plain → result ≡ has_rested plain agreed.now now }
    {
        if !self.setup.polls() {
            return true;
        }
        let rested = now.millis().saturating_sub(self.last_taken.millis());
        u64::from(agreed.polling) * 1000 <= rested
    }

    // The request that creates the session.
    #[tactic(auto, unfolding(crate::specs::StandsFor::StandsFor))]
    fn create(&mut self, alloc: Global) -> Result<Next, AllocError>
        requires { self.old.exchanges.first + length self.old.exchanges.slots ≤ greatest_rid }
        ensures step { (plain : PlainClient) → StandsFor self.old plain → length plain.requests ≡ 0 → agreed plain ≡ None
            → IfOk result (λ reply. Does self.new reply (with_request plain (next_made plain None))) }
        ensures err { OnErr result (self.new ≡ self.old) }
    {
        let parts = self.creation_parts(alloc)?;
        let body = SharedText::new(alloc, write_request(alloc, &parts)?)?;
        let sent = body.again()?;
        self.exchanges.push(body)?;
        Ok(Next::Request {
            rid: self.setup.first,
            body: sent,
        })
    }

    #[tactic(auto, unfolding(crate::specs::StandsFor::StandsFor))]
    fn creation_parts(&self, alloc: Global) -> Result<RequestParts, AllocError>
        ensures { (plain : PlainClient) → StandsFor self.now plain → length plain.requests ≡ 0
            → IfOk result (λ parts. parts ≡ creation_parts plain.setup) }
    {
        let to = self.setup.to.copy_in(alloc)?;
        Ok(RequestParts {
            rid: self.setup.first,
            sid: None,
            stream: None,
            to: None,
            creation: Some((to, self.setup.wait, self.setup.hold)),
            ack: if self.setup.ack { Some(1) } else { None },
            key: None,
            newkey: self.keys.as_ref().map(|keys| keys.newkey()),
            pause: None,
            terminate: false,
            restart: false,
            payloads: Stanzas::from_vec(Vec::new(alloc)),
        })
    }

    // A later request, which takes what is queued.
    #[tactic(auto, unfolding(crate::specs::StandsFor::StandsFor))]
    fn go_on(&mut self, alloc: Global, rid: Rid) -> Result<Next, AllocError>
        requires { self.old.exchanges.first + length self.old.exchanges.slots ≤ greatest_rid }
        ensures step { (plain : PlainClient) (a : Agreed) → StandsFor self.old plain → agreed plain ≡ Some a → rid ≡ next_id plain
            → IfOk result (λ reply. Does self.new reply (with_request plain (next_made plain (Some a)))) }
        ensures err { OnErr result (self.new ≡ self.old) }
    {
        let load = self.queue.load();
        let follows = self.next_sequence(alloc)?;
        let parts = self.later_parts(alloc, rid, load, &follows)?;
        let body = SharedText::new(alloc, write_request(alloc, &parts)?)?;
        let sent = body.again()?;
        self.exchanges.push(body)?;
        self.queue.drop_front(load.count);
        turn_keys(&mut self.keys, follows);
        Ok(Next::Request { rid, body: sent })
    }

    #[tactic(auto, unfolding(crate::specs::StandsFor::StandsFor))]
    fn later_parts(
        &self,
        alloc: Global,
        rid: Rid,
        load: Load,
        follows: &Option<KeyMaker>,
    ) -> Result<RequestParts, AllocError>
        requires { load.count ≤ length self.now.queue }
        ensures { (plain : PlainClient) (a : Agreed) → StandsFor self.now plain → agreed plain ≡ Some a → rid ≡ next_id plain
            → Loads self.now.queue load → FollowsKeys self.now.keys follows.now
            → IfOk result (λ parts. parts ≡ later_parts plain a (front_of (queued plain))) }
    {
        Ok(RequestParts {
            rid,
            sid: self.sid(alloc)?,
            stream: load.stream,
            to: self.queue.host_in(alloc)?,
            creation: None,
            ack: self.ack_for(rid),
            key: self.keys.as_ref().map(|keys| keys.key()),
            newkey: follows.as_ref().map(|maker| maker.newkey()),
            pause: load.pause,
            terminate: load.terminate,
            restart: load.restart,
            payloads: self.queue.stanzas_in(alloc, load.count)?,
        })
    }

    fn sid(&self, alloc: Global) -> Result<Option<Text>, AllocError>
        ensures { IfOk result (λ sid. sid ≡ option_map (λ a. a.sid) self.now.agreed) }
    {
        match &self.agreed {
            Some(agreed) => Ok(Some(agreed.sid.copy_in(alloc)?)),
            None => Ok(None),
        }
    }

    // The highest id up to which all answers were taken, where that isn't the one before the request's own.
    #[tactic(auto, unfolding(crate::specs::StandsFor::StandsFor))]
    fn ack_for(&self, rid: Rid) -> Option<u64>
        ensures { (plain : PlainClient) (a : Agreed) → StandsFor self.now plain → agreed plain ≡ Some a → rid ≡ next_id plain
            → result ≡ ack_for plain a }
    {
        let agreed = self.agreed.as_ref()?;
        if !agreed.acks {
            return None;
        }
        let lowest = self.exchanges.lowest();
        if lowest >= rid.value() {
            return None;
        }
        Some(lowest - 1)
    }

    // The key sequence that has to follow, in a client with keys.
    fn next_sequence(&self, alloc: Global) -> Result<Option<KeyMaker>, AllocError>
        ensures { IfOk result (λ follows. FollowsKeys self.now.keys follows) }
    {
        match &self.keys {
            Some(keys) => keys.next_sequence(alloc),
            None => Ok(None),
        }
    }
}

// The key was sent, in a client with keys.
fn turn_keys(keys: &mut Option<Keys>, follows: Option<KeyMaker>)
    requires { FollowsKeys keys.old follows }
    ensures { keys.new ≡ keys_turned keys.old }
{
    if let Some(keys) = keys {
        keys.turn(follows);
    }
}

// How many requests may be open where this comes next.
fn most_open(agreed: &Agreed, item: &Outgoing) -> u64
    ensures { result ≡ most_open agreed.now item.now }
{
    let requests = u64::from(agreed.requests);
    match item {
        Outgoing::Stanza { .. } => requests,
        Outgoing::Restart => requests,
        Outgoing::Pause(_) => requests + 1,
        Outgoing::Add(_) => requests,
        Outgoing::Close(_) => requests + 1,
        Outgoing::Terminate => requests + 1,
    }
}
