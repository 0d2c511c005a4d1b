// One stream over its link, with what was passed and what came on it.
ghost use Rattle.std.specs.Prelude.{◌≡◌, ℕ, List, Option, [], IfOk, OnErr, OnOk, false, length, map, ◌++◌};
ghost use Rattle.bosh_ports.specs.Faults.{HasRisen};
ghost use Rattle.stream_backend.specs.Flow.{Gives, Hears, IsFlow, Stays, begun, closed_with, passed_on, texts_of};
ghost use Rattle.xmpp_stream.specs.Wire.{IsRead, IsWritten};

use bosh_types::{Inward, SharedText};
use http_server::Log;
use std::alloc::AllocError;
use std::marker::Model;
use std::snapshot::Snapshot;
use xmpp_stream::{Came, Incoming, Outgoing, Paid, PollLink, Stream};

// A stream, its link as it was when the stream began, the items that were passed and the texts that came. What only proofs read
// takes no memory.
#[derive(Drop)]
pub(crate) struct Flow<L: PollLink + Drop> {
    stream: Stream<L>,
    start: Snapshot<L>,
    passed: Log<Inward, ()>,
    came: Log<SharedText, ()>,
}

impl<L: PollLink + Drop> Model for Flow<L> {
    ghost use Rattle.std.specs.Prelude.{map};
    ghost use Rattle.stream_backend.specs.Flow.{Flow, IsFlow};

    ghost Value = { Flow };

    ghost view = { λ f. record {
      start_given = L.given f.start.value;
      start_left = L.left f.start.value;
      given = L.given f.stream.link;
      left = L.left f.stream.link;
      faults = L.faults f.stream.link;
      idle = L.idle f.stream.link;
      outgoing = f.stream.outgoing;
      incoming = f.stream.incoming;
      passed = map (λ entry. entry.0) f.passed.items;
      came = map (λ entry. entry.0) f.came.items;
    } };

    ghost invariant = { λ f. IsFlow (record {
      start_given = L.given f.start.value;
      start_left = L.left f.start.value;
      given = L.given f.stream.link;
      left = L.left f.stream.link;
      faults = L.faults f.stream.link;
      idle = L.idle f.stream.link;
      outgoing = f.stream.outgoing;
      incoming = f.stream.incoming;
      passed = map (λ entry. entry.0) f.passed.items;
      came = map (λ entry. entry.0) f.came.items;
    }) };
}

impl<L: PollLink + Drop> Flow<L> {
    // A stream whose header is owed. It takes no memory.
    pub(crate) fn new(link: L, outgoing: Outgoing, incoming: Incoming) -> Flow<L>
        requires owed { (start : Option (List ℕ)) → IsWritten start start outgoing [] }
        requires taken { (start : Option (List ℕ)) → IsRead start start incoming [] }
        ensures { result ≡ begun (L.given link) (L.left link) (L.faults link) (L.idle link) outgoing incoming }
    {
        let start = Snapshot::of(&link);
        Flow {
            stream: Stream::new(link, outgoing, incoming),
            start,
            passed: Log::new(),
            came: Log::new(),
        }
    }

    // What is known of every stream.
    pub(crate) fn see(&self)
        ensures { IsFlow self.now }
    {
        let _ = &self.stream;
    }

    // Owes the text of an item on a stream that wasn't closed. The only error is want of memory, after which all is as before.
    pub(crate) fn pass(&mut self, item: &Inward) -> Result<(), AllocError>
        requires { self.old.outgoing.closed ≡ false }
        ensures ok { OnOk result (self.new ≡ passed_on self.new.outgoing.owed item.now self.old) }
        ensures err { OnErr result (self.new ≡ self.old) }
    {
        self.stream.outgoing.pass(item)?;
        self.passed = self.passed.and(item, &());
        Ok(())
    }

    // Owes the end tag, unless it was owed before. The only error is want of memory, after which all is as before.
    pub(crate) fn close(&mut self) -> Result<(), AllocError>
        ensures ok { OnOk result (self.new ≡ closed_with self.new.outgoing.owed self.old) }
        ensures err { OnErr result (self.new ≡ self.old) }
    {
        self.stream.outgoing.close()
    }

    // Gives what is owed, as far as the link has room for it.
    pub(crate) fn give(&mut self) -> Paid
        ensures gives { Gives self.old self.new }
        ensures all { result ≡ Paid.All → self.new.outgoing.owed ≡ [] }
        ensures waits { result ≡ Paid.Waits → HasRisen self.old.idle self.new.idle }
        ensures failed { result ≡ Paid.Failed → HasRisen self.old.faults self.new.faults }
    {
        self.stream.outgoing.give(&mut self.stream.link)
    }

    // What comes next. The only error is want of memory, after which the same comes next.
    pub(crate) fn read(&mut self) -> Result<Came, AllocError>
        ensures ok { IfOk result (λ came. Hears came self.old self.new) }
        ensures err { OnErr result (Stays self.old self.new) }
    {
        let came = self.stream.incoming.poll(&mut self.stream.link)?;
        note(&mut self.came, &came);
        Ok(came)
    }

    // Gives what is owed, and says what comes next. The only error is want of memory, after which the same comes next.
    pub(crate) fn poll(&mut self) -> Result<Came, AllocError>
        ensures ok { IfOk result (λ came. Hears came self.old self.new) }
        ensures err { OnErr result (Stays self.old self.new) }
    {
        if self.give() == Paid::Failed {
            return Ok(Came::Failed);
        }
        self.read()
    }

    // Tells the peer that nothing more will be given.
    pub(crate) fn finish(&mut self)
        ensures { Gives self.old self.new }
    {
        self.stream.link.finish();
    }

    // How many bytes are owed.
    pub(crate) fn owed(&self) -> usize
        ensures { result ≡ length self.now.outgoing.owed }
    {
        self.stream.outgoing.owed()
    }

    // Its link.
    pub(crate) fn into_link(self) -> L
        ensures given { L.given result ≡ self.given }
        ensures left { L.left result ≡ self.left }
        ensures faults { L.faults result ≡ self.faults }
    {
        let Flow { stream, .. } = self;
        let Stream { link, .. } = stream;
        link
    }
}

// Notes the text that came, if one did.
fn note(texts: &mut Log<SharedText, ()>, came: &Came)
    ensures { map (λ entry. entry.0) texts.new.items ≡ map (λ entry. entry.0) texts.old.items ++ texts_of came.now }
{
    match came {
        Came::Item(text) => *texts = texts.and(text, &()),
        Came::Closed { .. }
        | Came::Broken(_)
        | Came::NotYet
        | Came::Busy
        | Came::End
        | Came::Failed => {}
    }
}
