// What happens at the manager.
ghost use Rattle.std.specs.Prelude.{◌≡◌, IfOk, IsTrue, max};
ghost use Rattle.body_cutter.specs.Cutting.{is_stanza};
ghost use Rattle.two_ends.specs.Worlds.{IsPlainStep, IsPlain};
ghost use Rattle.world_laws.specs.Steps.{at, gives_to, passes_to, shuts_to, taken_refusals};
ghost use Rattle.world_laws.specs.World.{PlainWorld};

use crate::telling::see_all;
use crate::world::{World, nothing, only};
use bosh_types::{Closing, Moment, SharedText, StreamNo, Text};
use session_core::Taken;
use std::alloc::{AllocError, Global};
use world_laws::{Seen, SeenItem, Word};

impl World {
    // Time passes at the manager; a moment that is past is this one.
    pub(crate) fn at(&mut self, alloc: Global, moment: Moment) -> Result<Seen, AllocError>
        ensures { IfOk result (λ seen. (w : PlainWorld) → IsPlain self.old w → IsPlainStep seen self.new (passes_to (at w moment) w.manager)) }
    {
        self.moment = later(self.moment, moment);
        match &mut self.manager {
            Some(manager) => {
                let told = manager.pass(alloc, self.moment)?;
                see_all(&mut self.written, Vec::new(alloc), told)
            }
            None => Ok(nothing(alloc)),
        }
    }

    // The server gives a stanza on this stream; before the creation came there is no session to give it to.
    pub(crate) fn give(
        &mut self,
        alloc: Global,
        stream: StreamNo,
        stanza: Text,
    ) -> Result<Seen, AllocError>
        requires { IsTrue (is_stanza stanza) }
        ensures { IfOk result (λ seen. (w : PlainWorld) → IsPlain self.old w → IsPlainStep seen self.new (gives_to w stream stanza w.manager)) }
    {
        match &mut self.manager {
            Some(manager) => {
                let stanza = SharedText::new(alloc, stanza)?;
                let (taken, told) = manager.give(alloc, stream, stanza, self.moment)?;
                let refused = refusals(alloc, Word::Give, taken)?;
                see_all(&mut self.written, refused, told)
            }
            None => only(alloc, SeenItem::RefusedOver { line: Word::Give }),
        }
    }

    // The server closes this stream.
    pub(crate) fn shut(
        &mut self,
        alloc: Global,
        stream: StreamNo,
        closing: Closing,
    ) -> Result<Seen, AllocError>
        ensures { IfOk result (λ seen. (w : PlainWorld) → IsPlain self.old w → IsPlainStep seen self.new (shuts_to w stream closing w.manager)) }
    {
        match &mut self.manager {
            Some(manager) => {
                let (taken, told) = manager.shut(alloc, stream, closing, self.moment)?;
                let refused = refusals(alloc, Word::Shut, taken)?;
                see_all(&mut self.written, refused, told)
            }
            None => only(alloc, SeenItem::RefusedOver { line: Word::Shut }),
        }
    }
}

// The later of two moments.
fn later(one: Moment, other: Moment) -> Moment
    ensures { result ≡ max one other }
{
    if other > one {
        return other;
    }
    one
}

// What is seen where the server's stanza or closing was refused.
fn refusals(alloc: Global, line: Word, taken: Taken) -> Result<Vec<SeenItem>, AllocError>
    ensures { IfOk result (λ seen. seen.items ≡ taken_refusals line taken) }
{
    let mut seen = Vec::new(alloc);
    match taken {
        Taken::Done => Ok(seen),
        Taken::Full => {
            seen.push(SeenItem::RefusedFull { line })?;
            Ok(seen)
        }
        Taken::Over => {
            seen.push(SeenItem::RefusedOver { line })?;
            Ok(seen)
        }
    }
}
