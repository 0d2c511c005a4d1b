// Answers are taken, and their payloads handed out.
ghost use Rattle.std.specs.Prelude.{◌≡◌, ℕ, ◌+◌, ◌<◌, ◌≤◌, IfOk, IfSome, IsTrue, List, [], None, OnErr, false, is_none, is_some, length, true};
ghost use Rattle.bosh_client.specs.Left.{left_in, left_of};
ghost use Rattle.bosh_client.specs.Machine.{answer, hand_out, hand_out_on, lacks_sid, is_unknown, misnames, with_answer};
ghost use Rattle.bosh_client.specs.Places.{comes_next};
ghost use Rattle.bosh_client.specs.declared.replies.Answered.TheVariants as answerings;
ghost use Rattle.bosh_client.specs.PlainClient.{PlainClient, end_of, lies_on, lowest, request_at, taken};
ghost use Rattle.bosh_client.specs.declared.told.Told.{Told};
ghost use Rattle.bosh_client.specs.Requests.{agreed_by, agreement};
ghost use Rattle.bosh_client.specs.StandsFor.{Does, HoldsRequests, StandsFor};

use crate::agreed::Agreed;
use crate::client::Client;
use crate::exchanges::{Exchanges, is_open};
use crate::payloads::Payloads;
use crate::reading::{AnswerError, read_answer};
use crate::replies::{Answered, ClientEnd, Why};
use crate::setup::ClientSetup;
use crate::told::{Naming, Told};
use bosh_types::{CopyIn, Moment, Rid, StreamNo, Text};
use std::alloc::{AllocError, Global};

impl Client {
    /// An answer to a request came. `Unmade` exactly where there is no such request; else `Stale` exactly where its answer was
    /// taken before; else `Broken` with the first reason for which the body is no answer; else `Again`, from the lowest id
    /// without an answer to this one, where it is an error; else `Done`. All but `Done` change nothing, and the first two take no
    /// memory. An `Err` comes from want of memory alone, and the client is as before.
    pub fn answer(
        &mut self,
        alloc: Global,
        rid: Rid,
        body: &[u8],
        now: Moment,
    ) -> Result<Answered, AllocError>
        ensures step { (plain : PlainClient) → StandsFor self.old plain
            → IfOk result (λ reply. Does self.new reply (answer plain rid body.now now)) }
        ensures err { OnErr result (self.new ≡ self.old) }

        // Memory is wanted only for the answer to a request that was made and has none yet.
        ensures wants { (plain : PlainClient) → StandsFor self.old plain → OnErr result (IsTrue (is_some (request_at plain rid)) × IsTrue (is_none (taken plain rid))) }
    {
        if !self.is_made(rid) {
            return Ok(Answered::Unmade);
        }
        if !self.is_open(rid) {
            return Ok(Answered::Stale);
        }
        let told = match read_answer(alloc, body) {
            Ok(told) => told,
            Err(AnswerError::Memory) => return Err(AllocError),
            Err(AnswerError::Broken(why)) => return Ok(Answered::Broken(why)),
        };
        if self.misnames(rid, &told) {
            return Ok(Answered::Broken(Why::Attribute));
        }
        if told.error {
            return Ok(self.again(rid));
        }
        if self.lacks_sid(rid, &told) {
            return Ok(Answered::Broken(Why::NoSid));
        }
        let made = self.agreement(alloc, rid, &told)?;
        self.take(rid, told, made, now);
        Ok(Answered::Done)
    }

    /// The next payload: those of the answers in the order of ids, up to the first id whose answer has not come or is terminal.
    /// With each fewer are left. It takes no memory.
    #[tactic(auto, unfolding(crate::specs::StandsFor::StandsFor))]
    pub fn hand_out(&mut self) -> Option<Text>
        ensures step { (plain : PlainClient) → StandsFor self.old plain → Does self.new result (hand_out plain) }
        ensures fewer { IfSome result (λ payload. left_in self.new < left_in self.old) }
    {
        match self.hand_out_on() {
            Some((_, payload)) => Some(payload),
            None => None,
        }
    }

    /// The next payload with the stream on which it lies: the one that its answer names, and the first where it names none or answers the
    /// creation (XEP-0124, section 16). It takes no memory.
    #[tactic(auto, unfolding(crate::specs::StandsFor::StandsFor))]
    pub fn hand_out_on(&mut self) -> Option<(StreamNo, Text)>
        ensures step { (plain : PlainClient) → StandsFor self.old plain → Does self.new result (hand_out_on plain) }
        ensures fewer { IfSome result (λ payload. left_in self.new < left_in self.old) }
    {
        move_on(&mut self.exchanges, &mut self.inbox);
        self.inbox.take_first()
    }

    /// How the first terminal answer ended the client: `None` exactly where none was taken. It takes no memory.
    #[tactic(auto, unfolding(crate::specs::StandsFor::StandsFor))]
    pub fn ended(&self) -> Option<ClientEnd>
        ensures { (plain : PlainClient) → StandsFor self.now plain → result ≡ end_of plain }
    {
        self.end
    }

    // Whether a request with this id was made.
    #[tactic(auto, unfolding(crate::specs::StandsFor::StandsFor))]
    fn is_made(&self, rid: Rid) -> bool
        ensures { (plain : PlainClient) → StandsFor self.now plain → result ≡ is_some (request_at plain rid) }
    {
        if rid.value() < self.setup.first.value() {
            return false;
        }
        match self.exchanges.next() {
            Some(next) => rid.value() < next.value(),
            None => true,
        }
    }

    // Whether it has no answer yet.
    #[tactic(auto, unfolding(crate::specs::StandsFor::StandsFor))]
    fn is_open(&self, rid: Rid) -> bool
        ensures { (plain : PlainClient) → StandsFor self.now plain → is_some (request_at plain rid) ≡ true → result ≡ is_none (taken plain rid) }
    {
        match self.exchanges.at(rid) {
            Some(slot) => is_open(slot),
            None => false,
        }
    }

    fn lacks_sid(&self, rid: Rid, told: &Told) -> bool
        ensures { (plain : PlainClient) → plain.setup ≡ self.now.setup → result ≡ lacks_sid plain rid told.now }
    {
        rid == self.setup.first && told.end.is_none() && told.sid.is_none()
    }

    // Whether it has payloads on a stream that no session has.
    fn misnames(&self, rid: Rid, told: &Told) -> bool
        ensures { (plain : PlainClient) → plain.setup ≡ self.now.setup → result ≡ misnames plain rid told.now }
    {
        rid != self.setup.first && is_unknown(told.stream) && !told.payloads.is_empty()
    }

    // What is to be sent again once the request with this id, which has no answer, counts as not received.
    #[tactic(auto, unfolding(crate::specs::StandsFor::StandsFor))]
    fn again(&self, rid: Rid) -> Answered
        ensures { (plain : PlainClient) → StandsFor self.now plain → is_some (request_at plain rid) ≡ true → is_none (taken plain rid) ≡ true
            → result ≡ answerings.Again (lowest plain) rid }
    {
        // The lowest id without an answer is this one or a lower one, so it is a request id.
        let _value = rid.value();
        let first = Rid::new(self.exchanges.lowest()).unwrap_or(rid);
        Answered::Again { first, last: rid }
    }

    // What is agreed by the answer to the creation.
    fn agreement(&self, alloc: Global, rid: Rid, told: &Told) -> Result<Option<Agreed>, AllocError>
        ensures { IfOk result (λ made. self.now.setup.hold ≤ 4 → made ≡ agreement self.now.setup rid told.now) }
    {
        if rid != self.setup.first {
            return Ok(None);
        }
        Ok(Some(agreed_by(alloc, &self.setup, told)?))
    }

    // The answer is taken. It takes no memory.
    #[tactic(auto, unfolding(crate::specs::StandsFor::StandsFor))]
    fn take(&mut self, rid: Rid, told: Told, made: Option<Agreed>, now: Moment)
        ensures { (plain : PlainClient) (body : List ℕ) → StandsFor self.old plain → is_some (request_at plain rid) ≡ true → taken plain rid ≡ None
            → made ≡ agreement plain.setup rid told
            → StandsFor self.new (with_answer plain rid (record { body = body; tells = told; moment = now })) }
    {
        self.agreed = made.or(self.agreed.take());
        self.end = self.end.or(told.end);
        self.last_taken = now;
        let on = lies_on(&self.setup, rid, told.stream);
        let payloads = Payloads::new(on, told.payloads);
        self.exchanges.fill(rid, payloads, told.end.is_some());
        move_on(&mut self.exchanges, &mut self.inbox);
    }
}

// Goes on to the next answer that has payloads to be handed out. It takes no memory.
fn move_on(exchanges: &mut Exchanges, inbox: &mut Payloads)
    ensures stands { (plain : PlainClient) → HoldsRequests exchanges.old inbox.old plain → HoldsRequests exchanges.new inbox.new plain }
    ensures stops { inbox.new ≡ [] → comes_next exchanges.new.slots ≡ false }
    ensures left { length inbox.new + left_of exchanges.new.slots ≡ length inbox.old + left_of exchanges.old.slots }
{
    while inbox.is_empty() {
        match exchanges.take_front() {
            Some(payloads) => *inbox = payloads,
            None => return,
        }
    }
}

fn is_unknown(naming: Naming) -> bool
    ensures { result ≡ is_unknown naming }
{
    match naming {
        Naming::Unnamed => false,
        Naming::Stream(_) => false,
        Naming::Unknown => true,
    }
}

// The stream on which the payloads of an answer lie.
fn lies_on(setup: &ClientSetup, rid: Rid, naming: Naming) -> StreamNo
    ensures { (told : Told) → told.stream ≡ naming → result ≡ lies_on setup.now rid told }
{
    if rid == setup.first {
        return StreamNo::unnamed();
    }
    match naming {
        Naming::Stream(stream) => stream,
        _ => StreamNo::unnamed(),
    }
}

// What the creation's answer says; what it leaves out is read as is usual.
fn agreed_by(alloc: Global, setup: &ClientSetup, told: &Told) -> Result<Agreed, AllocError>
    ensures { IfOk result (λ agreed. setup.now.hold ≤ 4 → agreed ≡ agreed_by setup.now told.now) }
{
    let sid = match &told.sid {
        Some(sid) => sid.copy_in(alloc)?,
        None => Text::from_vec(Vec::new(alloc)),
    };
    let usual = setup.hold.saturating_add(1);
    Ok(Agreed {
        sid,
        requests: told.requests.unwrap_or(usual).max(1),
        polling: told.polling.unwrap_or(5),
        maxpause: told.maxpause.unwrap_or(0),
        acks: setup.ack && told.acknowledges,
    })
}
