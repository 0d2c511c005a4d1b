// What happens at the client.
ghost use Rattle.std.specs.Prelude.{◌≡◌, IfOk, IsTrue};
ghost use Rattle.body_cutter.specs.Cutting.{is_stanza};
ghost use Rattle.bosh_client.specs.Machine.{add, close_stream, next_request, pause, put, put_on, restart, terminate};
ghost use Rattle.bosh_client.specs.Runs.{IsHost};
ghost use Rattle.two_ends.specs.Worlds.{IsPlainStep, IsPlain};
ghost use Rattle.world_laws.specs.declared.seen.Word.TheVariants as words;
ghost use Rattle.world_laws.specs.Steps.{queues, refusals, sends};
ghost use Rattle.world_laws.specs.World.{PlainWorld};

use crate::world::{World, nothing, only};
use bosh_client::{Next, Queued};
use bosh_types::{StreamNo, Text};
use std::alloc::{AllocError, Global};
use world_laws::{Seen, SeenItem, Word};

impl World {
    // A stanza is to be sent.
    pub(crate) fn put(&mut self, alloc: Global, stanza: Text) -> Result<Seen, AllocError>
        requires { IsTrue (is_stanza stanza) }
        ensures { IfOk result (λ seen. (w : PlainWorld) → IsPlain self.old w → IsPlainStep seen self.new (queues w words.Put (put w.client stanza))) }
    {
        let queued = self.client.put(alloc, stanza.as_slice())?;
        refused(alloc, Word::Put, queued)
    }

    // A stanza is to be sent on this stream.
    pub(crate) fn put_on(
        &mut self,
        alloc: Global,
        stream: StreamNo,
        stanza: Text,
    ) -> Result<Seen, AllocError>
        requires { IsTrue (is_stanza stanza) }
        ensures { IfOk result (λ seen. (w : PlainWorld) → IsPlain self.old w → IsPlainStep seen self.new (queues w words.PutOn (put_on w.client stream stanza))) }
    {
        let queued = self.client.put_on(alloc, stream, stanza.as_slice())?;
        refused(alloc, Word::PutOn, queued)
    }

    // A stream is to be opened to this host.
    pub(crate) fn add(&mut self, alloc: Global, to: Text) -> Result<Seen, AllocError>
        requires { IsHost to }
        ensures { IfOk result (λ seen. (w : PlainWorld) → IsPlain self.old w → IsPlainStep seen self.new (queues w words.Add (add w.client to))) }
    {
        let queued = self.client.add(alloc, to.as_slice())?;
        refused(alloc, Word::Add, queued)
    }

    // This stream is to be closed.
    pub(crate) fn stop_on(&mut self, alloc: Global, stream: StreamNo) -> Result<Seen, AllocError>
        ensures { IfOk result (λ seen. (w : PlainWorld) → IsPlain self.old w → IsPlainStep seen self.new (queues w words.StopOn (close_stream w.client stream))) }
    {
        let queued = self.client.close_stream(stream)?;
        refused(alloc, Word::StopOn, queued)
    }

    pub(crate) fn restart(&mut self, alloc: Global) -> Result<Seen, AllocError>
        ensures { IfOk result (λ seen. (w : PlainWorld) → IsPlain self.old w → IsPlainStep seen self.new (queues w words.Restart (restart w.client))) }
    {
        let queued = self.client.restart()?;
        refused(alloc, Word::Restart, queued)
    }

    pub(crate) fn pause(&mut self, alloc: Global, seconds: u32) -> Result<Seen, AllocError>
        ensures { IfOk result (λ seen. (w : PlainWorld) → IsPlain self.old w → IsPlainStep seen self.new (queues w words.Pause (pause w.client seconds))) }
    {
        let queued = self.client.pause(seconds)?;
        refused(alloc, Word::Pause, queued)
    }

    pub(crate) fn stop(&mut self, alloc: Global) -> Result<Seen, AllocError>
        ensures { IfOk result (λ seen. (w : PlainWorld) → IsPlain self.old w → IsPlainStep seen self.new (queues w words.Stop (terminate w.client))) }
    {
        let queued = self.client.terminate()?;
        refused(alloc, Word::Stop, queued)
    }

    // The client makes its next request: from now on it is in the network.
    pub(crate) fn send(&mut self, alloc: Global) -> Result<Seen, AllocError>
        ensures { IfOk result (λ seen. (w : PlainWorld) → IsPlain self.old w → IsPlainStep seen self.new (sends w (next_request w.client w.moment))) }
    {
        let next = self.client.next_request(alloc, self.moment)?;
        match next {
            Next::Nothing => only(alloc, SeenItem::Nothing),
            Next::RidsSpent => only(alloc, SeenItem::Spent),
            Next::Request { rid, body } => {
                self.sent.push(body.again()?)?;
                only(alloc, SeenItem::Req { rid, body })
            }
        }
    }
}

// What the client made of it is seen where it is a refusal.
fn refused(alloc: Global, line: Word, queued: Queued) -> Result<Seen, AllocError>
    ensures { IfOk result (λ seen. seen ≡ refusals line queued) }
{
    match queued {
        Queued::Done => Ok(nothing(alloc)),
        Queued::Over => only(alloc, SeenItem::RefusedOver { line }),
        Queued::Full => only(alloc, SeenItem::RefusedFull { line }),
        Queued::NoStream => only(alloc, SeenItem::RefusedNone { line }),
        Queued::TooLong => only(alloc, SeenItem::RefusedLong),
    }
}
