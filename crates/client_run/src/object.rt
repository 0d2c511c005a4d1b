// A client behind a gate: many threads call it, and each is told what one thread would be told.
ghost use Rattle.std.specs.Prelude.{◌≡◌, [], IfOk, IsTrue, OnErr, ◌∷◌};
ghost use Rattle.bosh_client.specs.Machine.{copy};
ghost use Rattle.bosh_client.specs.PlainClient.{PlainClient};
ghost use Rattle.bosh_client.specs.Runs.{IsAllowed, step};
ghost use Rattle.bosh_client.specs.Runs as plain;
ghost use Rattle.bosh_client.specs.Setup.{is_setup};
ghost use Rattle.bosh_client.specs.StandsFor.{Does, StandsFor};
ghost use Rattle.client_run.specs.Calls.{IsReplyTo, call_in, changes, reply_in};
ghost use Rattle.client_run.specs.History.{Steps, first_entry};

use crate::call::{Answer, Call, Question, Reply};
use crate::entry::Entry;
use bosh_client::{Answered, Client, ClientSetup, Next, Queued};
use bosh_types::{Rid, Text};
use http_server::Log;
use parked_gate::Object;
use std::alloc::{AllocError, Global};
use std::convert::Infallible;
use std::marker::Model;
use std::snapshot::Snapshot;

/// A client with its history. Clauses see that history; the client stands for what its entries tell. The entries are read by
/// proofs alone and take no memory.
#[derive(Drop)]
pub struct ClientObject {
    alloc: Global,
    client: Client,
    setup: Snapshot<ClientSetup>,
    calls: Log<u32, Call>,
    // How many entries there are, the setup among them.
    count: u64,
}

impl Model for ClientObject {
    ghost use Rattle.std.specs.Prelude.{List};
    ghost use Rattle.client_run.specs.declared.entry.Entry.{Entry};

    ghost Value = { List Entry };

    ghost use Rattle.std.specs.Prelude.{◌≡◌, length};
    ghost use Rattle.client_run.specs.History.{Stands, history_of};

    ghost view = { λ o. history_of o.setup.value o.calls.items };

    ghost invariant = { λ o. Stands o.client (history_of o.setup.value o.calls.items) × (o.count ≡ length (history_of o.setup.value o.calls.items)) };
}

impl ClientObject {
    /// A client that has nothing to send yet and has made no request. Its history has how it began. The only error is want of
    /// memory.
    pub fn new(alloc: Global, setup: ClientSetup) -> Result<ClientObject, AllocError>
        requires { IsTrue (is_setup setup) }
        ensures { IfOk result (λ object. object ≡ first_entry setup ∷ []) }
    {
        let first = Snapshot::of(&setup);
        let client = Client::new(alloc, setup)?;
        Ok(ClientObject {
            alloc,
            client,
            setup: first,
            calls: Log::new(),
            count: 1,
        })
    }

    // Makes a call for the caller with this number, and enters it where it changed the client. The only error is want of
    // memory, and then all is as it was.
    fn make(&mut self, caller: u32, call: &Call) -> Result<Reply, AllocError>
        requires { IsAllowed (call_in call.now) }
        ensures step { IfOk result (λ reply. Steps self.old caller call.now reply self.new) }
        ensures err { OnErr result (self.new ≡ self.old) }
    {
        let Some(count) = self.count.checked_add(1) else {
            return Err(AllocError);
        };
        let reply = made(&mut self.client, self.alloc, call)?;
        if !changes(&reply) {
            return Ok(reply);
        }
        self.calls = self.calls.and(&caller, call);
        self.count = count;
        Ok(reply)
    }
}

/// A call and a question may find no memory. Nothing is waited for.
impl Object for ClientObject {
    ghost use Rattle.bosh_client.specs.Runs.{IsAllowed};
    ghost use Rattle.client_run.specs.Calls.{call_in};
    ghost use Rattle.client_run.specs.History.{Answers, IsLegal, RepliesTo};

    type Call = Call;

    type Reply = Result<Reply, AllocError>;

    type Ask = ();

    type Found = Infallible;

    type Question = Question;

    type Answer = Result<Answer, AllocError>;

    type Entry = Entry;

    ghost history = { λ object. object };

    ghost caller_of = { λ e. e.caller };

    ghost is_legal = { IsLegal };

    ghost may = { λ call. IsAllowed (call_in call) };

    ghost replies = { RepliesTo };

    ghost lacks = { λ _ _. Unit {0} };

    ghost finds = { λ _ _ _ _. ⊥ };

    ghost answers = { Answers };

    fn step(&mut self, caller: u32, call: Call) -> Result<Reply, AllocError> {
        self.make(caller, &call)
    }

    fn poll(&mut self, _caller: u32, _ask: ()) -> Option<Infallible> {
        None
    }

    fn look(&self, question: &Question) -> Result<Answer, AllocError> {
        match question {
            Question::Copy { rid } => {
                let body = copied(&self.client, self.alloc, *rid)?;
                Ok(Answer::Copy(body))
            }
            Question::Ended => Ok(Answer::Ended(self.client.ended())),
        }
    }

    fn count(&self) -> u64 {
        self.count
    }
}

// Makes a call of a client. The only error is want of memory, and then the client is as before.
fn made(client: &mut Client, alloc: Global, call: &Call) -> Result<Reply, AllocError>
    requires { IsAllowed (call_in call.now) }
    ensures step { (plain : PlainClient) → StandsFor client.old plain → IfOk result (λ reply. Does client.new (reply_in reply) (step plain (call_in call.now))) }
    ensures named { IfOk result (IsReplyTo call.now) }
    ensures err { OnErr result (client.new ≡ client.old) }
{
    match call {
        Call::Put { stanza } => {
            let queued = client.put(alloc, stanza.as_slice())?;
            Ok(Reply::Queued(queued))
        }
        Call::Restart => {
            let queued = client.restart()?;
            Ok(Reply::Queued(queued))
        }
        Call::Pause { seconds } => {
            let queued = client.pause(*seconds)?;
            Ok(Reply::Queued(queued))
        }
        Call::Terminate => {
            let queued = client.terminate()?;
            Ok(Reply::Queued(queued))
        }
        Call::Next { now } => {
            let next = client.next_request(alloc, *now)?;
            Ok(Reply::Next(next))
        }
        Call::Answer { rid, body, now } => {
            let answered = client.answer(alloc, *rid, body.as_slice(), *now)?;
            Ok(Reply::Answered(answered))
        }
        Call::HandOut => Ok(Reply::HandOut(client.hand_out_on())),
    }
}

// Whether a call with this reply changed its client.
fn changes(reply: &Reply) -> bool
    ensures { result ≡ changes (reply_in reply.now) }
{
    match reply {
        Reply::Queued(queued) => *queued == Queued::Done,
        Reply::Next(next) => is_request(next),
        Reply::Answered(answered) => *answered == Answered::Done,
        Reply::HandOut(payload) => payload.is_some(),
    }
}

fn is_request(next: &Next) -> bool
    ensures { result ≡ changes (plain.ToNext next.now) }
{
    match next {
        Next::Request { .. } => true,
        Next::Nothing => false,
        Next::RidsSpent => false,
    }
}

// The bytes of a request that has no answer yet.
fn copied(client: &Client, alloc: Global, rid: Rid) -> Result<Option<Text>, AllocError>
    ensures { (plain : PlainClient) → StandsFor client.now plain → IfOk result (λ body. body ≡ copy plain rid) }
{
    match client.copy(rid) {
        Some(bytes) => {
            let copy = Vec::from_slice(alloc, bytes)?;
            Ok(Some(Text::from_vec(copy)))
        }
        None => Ok(None),
    }
}
