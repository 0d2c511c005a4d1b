// What a client has to send is queued.
ghost use Rattle.std.specs.Prelude.{◌≡◌, IfOk, IsTrue, OnErr, OnOk, false};
ghost use Rattle.std.specs.List.{count_by};
ghost use Rattle.body_cutter.specs.Cutting.{is_stanza};
ghost use Rattle.bosh_client.specs.Machine.{add, allows_pause, close_stream, has_stream, is_over, pause, put, put_for, put_on, restart, terminate};
ghost use Rattle.bosh_client.specs.Outgoing as outgoing;
ghost use Rattle.bosh_client.specs.PlainClient.{PlainClient, queued, streams};
ghost use Rattle.bosh_client.specs.Runs.{IsHost};
ghost use Rattle.bosh_client.specs.StandsFor.{Does, StandsFor};

use crate::client::Client;
use crate::outgoing::Outgoing;
use crate::replies::Queued;
use bosh_types::limits::{MOST_STREAMS, MOST_WAITING};
use bosh_types::{StreamNo, Text};
use std::alloc::{AllocError, Global};

impl Client {
    /// A stanza is to be sent, for all streams that are open. `Full` exactly where 1024 stanzas are queued, and `Over`, which is tested
    /// first, exactly where the client has ended, or a terminate was queued, or the closing of the last stream: then the stanza is not
    /// taken. An `Err` comes from want of memory alone, and the client is as before.
    #[tactic(auto, unfolding(crate::specs::StandsFor::StandsFor))]
    pub fn put(&mut self, alloc: Global, stanza: &[u8]) -> Result<Queued, AllocError>
        requires { IsTrue (is_stanza stanza.now) }
        ensures step { (plain : PlainClient) → StandsFor self.old plain
            → IfOk result (λ reply. Does self.new reply (put plain stanza.now)) }
        ensures err { OnErr result (self.new ≡ self.old) }
    {
        if self.is_over() {
            return Ok(Queued::Over);
        }
        self.put_for(alloc, None, stanza)
    }

    /// A stanza is to be sent on one stream (XEP-0124, section 16). `Over` as for a stanza for all; then `NoStream` exactly where there is
    /// no such stream: streams are the first and those that were added, in this order, but for those that this client closed; then `Full`
    /// as for a stanza for all.
    #[tactic(auto, unfolding(crate::specs::StandsFor::StandsFor))]
    pub fn put_on(
        &mut self,
        alloc: Global,
        stream: StreamNo,
        stanza: &[u8],
    ) -> Result<Queued, AllocError>
        requires { IsTrue (is_stanza stanza.now) }
        ensures step { (plain : PlainClient) → StandsFor self.old plain
            → IfOk result (λ reply. Does self.new reply (put_on plain stream stanza.now)) }
        ensures err { OnErr result (self.new ≡ self.old) }
    {
        if self.is_over() {
            return Ok(Queued::Over);
        }
        if !self.has_stream(stream) {
            return Ok(Queued::NoStream);
        }
        self.put_for(alloc, Some(stream), stanza)
    }

    // A stanza is queued, where there is room.
    #[tactic(auto, unfolding(crate::specs::StandsFor::StandsFor))]
    fn put_for(
        &mut self,
        alloc: Global,
        on: Option<StreamNo>,
        stanza: &[u8],
    ) -> Result<Queued, AllocError>
        ensures step { (plain : PlainClient) → StandsFor self.old plain
            → IfOk result (λ reply. Does self.new reply (put_for plain on stanza.now)) }
        ensures err { OnErr result (self.new ≡ self.old) }
    {
        if self.queue.stanzas() >= MOST_WAITING {
            return Ok(Queued::Full);
        }
        let bytes = Text::from_vec(Vec::from_slice(alloc, stanza)?);
        self.queue.push_stanza(on, bytes)?;
        Ok(Queued::Done)
    }

    /// One more stream is to be opened, to this host (XEP-0124, section 16): the i-th that is added is stream i. `Over` as for a stanza;
    /// then `Full` exactly where seven were added. The answer of its request comes at once and has no payloads.
    #[tactic(auto, unfolding(crate::specs::StandsFor::StandsFor))]
    pub fn add(&mut self, alloc: Global, to: &[u8]) -> Result<Queued, AllocError>
        requires { IsHost to.now }
        ensures step { (plain : PlainClient) → StandsFor self.old plain
            → IfOk result (λ reply. Does self.new reply (add plain to.now)) }
        ensures err { OnErr result (self.new ≡ self.old) }
    {
        if self.is_over() {
            return Ok(Queued::Over);
        }
        if self.streams.opened() >= MOST_STREAMS {
            return Ok(Queued::Full);
        }
        let to = Text::from_vec(Vec::from_slice(alloc, to)?);
        self.queue.push_other(Outgoing::Add(to))?;
        let _stream = self.streams.open();
        Ok(Queued::Done)
    }

    /// A stream is to be closed (XEP-0124, section 16), once all that was queued before was sent. `Over` and `NoStream` as for a stanza
    /// on that stream. The closing of the last stream ends the session, as a terminate does.
    #[tactic(auto, unfolding(crate::specs::StandsFor::StandsFor))]
    pub fn close_stream(&mut self, stream: StreamNo) -> Result<Queued, AllocError>
        ensures step { (plain : PlainClient) → StandsFor self.old plain
            → IfOk result (λ reply. Does self.new reply (close_stream plain stream)) }
        ensures err { OnErr result (self.new ≡ self.old) }
    {
        if self.is_over() {
            return Ok(Queued::Over);
        }
        if !self.has_stream(stream) {
            return Ok(Queued::NoStream);
        }
        self.queue.push_other(Outgoing::Close(stream))?;
        let _shut = self.streams.close(stream);
        self.closing = self.streams.running().is_empty();
        Ok(Queued::Done)
    }

    /// The stream is to begin anew (XEP-0206, section 5), once all that was queued before was sent. `Over` as for a stanza.
    #[tactic(auto, unfolding(crate::specs::StandsFor::StandsFor))]
    pub fn restart(&mut self) -> Result<Queued, AllocError>
        ensures step { (plain : PlainClient) → StandsFor self.old plain
            → IfOk result (λ reply. Does self.new reply (restart plain)) }
        ensures err { OnErr result (self.new ≡ self.old) }
    {
        if self.is_over() {
            return Ok(Queued::Over);
        }
        self.queue.push_other(Outgoing::Restart)?;
        Ok(Queued::Done)
    }

    /// The session is to end (XEP-0124, section 13), once all that was queued before was sent. `Over` as for a stanza.
    #[tactic(auto, unfolding(crate::specs::StandsFor::StandsFor))]
    pub fn terminate(&mut self) -> Result<Queued, AllocError>
        ensures step { (plain : PlainClient) → StandsFor self.old plain
            → IfOk result (λ reply. Does self.new reply (terminate plain)) }
        ensures err { OnErr result (self.new ≡ self.old) }
    {
        if self.is_over() {
            return Ok(Queued::Over);
        }
        self.queue.push_other(Outgoing::Terminate)?;
        self.closing = true;
        Ok(Queued::Done)
    }

    /// The client will be silent for so many seconds (XEP-0124, section 10), once all that was queued before was sent. `Over`
    /// as for a stanza; then `TooLong` exactly where `seconds` is 0, or more than the creation's answer allows, or that was
    /// not taken.
    #[tactic(auto, unfolding(crate::specs::StandsFor::StandsFor))]
    pub fn pause(&mut self, seconds: u32) -> Result<Queued, AllocError>
        ensures step { (plain : PlainClient) → StandsFor self.old plain
            → IfOk result (λ reply. Does self.new reply (pause plain seconds)) }
        ensures err { OnErr result (self.new ≡ self.old) }
    {
        if self.is_over() {
            return Ok(Queued::Over);
        }
        if !self.allows_pause(seconds) {
            return Ok(Queued::TooLong);
        }
        self.queue.push_other(Outgoing::Pause(seconds))?;
        Ok(Queued::Done)
    }

    /// How many stanzas are queued.
    #[tactic(auto, unfolding(crate::specs::StandsFor::StandsFor))]
    pub fn queued(&self) -> usize
        ensures { (plain : PlainClient) → StandsFor self.now plain → result ≡ count_by outgoing.is_stanza (queued plain) }
    {
        self.queue.stanzas()
    }

    // Whether the stream is the first or was added, and wasn't closed.
    #[tactic(auto, unfolding(crate::specs::StandsFor::StandsFor))]
    fn has_stream(&self, stream: StreamNo) -> bool
        ensures { (plain : PlainClient) → StandsFor self.now plain → result ≡ has_stream plain stream }
    {
        self.streams.running().contains(stream)
    }

    // Whether nothing is accepted any more.
    #[tactic(auto, unfolding(crate::specs::StandsFor::StandsFor))]
    fn is_over(&self) -> bool
        ensures { (plain : PlainClient) → StandsFor self.now plain → result ≡ is_over plain }
    {
        self.end.is_some() || self.closing
    }

    fn allows_pause(&self, seconds: u32) -> bool
        ensures { result ≡ allows_pause self.now.agreed seconds }
    {
        match &self.agreed {
            Some(agreed) => 0 < seconds && seconds <= agreed.maxpause,
            None => false,
        }
    }
}
