// An answer comes to the client.
ghost use Rattle.std.specs.Prelude.{◌≡◌, ◌++◌, ◌<◌, ℕ, IfOk, IfSome, None, OnOk, Some, length, map, slice_get, suc};
ghost use Rattle.bosh_client.specs.Machine.{answer};
ghost use Rattle.bosh_client.specs.PlainClient.{PlainClient, end_of};
ghost use Rattle.bosh_client.specs.StandsFor.{StandsFor};
ghost use Rattle.two_ends.specs.Worlds.{IsPlain, IsPlainStep};
ghost use Rattle.world_laws.specs.Steps.{all_handed, ended_seen, got, left_of, returned, returns};
ghost use Rattle.world_laws.specs.World.{PlainWorld};

use crate::world::{World, Written, nothing, only};
use bosh_client::{Answered, Client, ClientEnd};
use bosh_types::{Rid, Row, SharedText, StreamNo, Text};
use std::alloc::{AllocError, Global};
use world_laws::{Seen, SeenItem};

impl World {
    // The answer with this number comes, where there is one.
    pub(crate) fn answer(&mut self, alloc: Global, number: u64) -> Result<Seen, AllocError>
        ensures { IfOk result (λ seen. (w : PlainWorld) → IsPlain self.old w → IsPlainStep seen self.new (returns w number)) }
    {
        match place_of(number, self.written.as_slice()) {
            Some(place) => {
                let written = written_at(self.written.as_slice(), place);
                let rid = written.rid;
                let body = written.body.again()?;
                self.answered(alloc, rid, body)
            }
            None => only(alloc, SeenItem::NoCopy),
        }
    }

    // An answer with this body comes to the request with this id.
    fn answered(&mut self, alloc: Global, rid: Rid, body: SharedText) -> Result<Seen, AllocError>
        ensures { IfOk result (λ seen. (w : PlainWorld) → IsPlain self.old w → IsPlainStep seen self.new (returned w rid (answer w.client rid body w.moment))) }
    {
        let before = self.client.ended();
        let answered = self
            .client
            .answer(alloc, rid, body.as_slice(), self.moment)?;
        match answered {
            Answered::Done => self.took(alloc, before),
            Answered::Unmade => Ok(nothing(alloc)),
            Answered::Stale => only(alloc, SeenItem::Stale { rid }),
            Answered::Broken(_) => only(alloc, SeenItem::Broken { rid }),
            Answered::Again { first, last } => only(alloc, SeenItem::Again { first, last }),
        }
    }

    // All that can be handed out is handed out at once, and the first terminal answer is seen.
    fn took(&mut self, alloc: Global, before: Option<ClientEnd>) -> Result<Seen, AllocError>
        ensures { IfOk result (λ seen. (w : PlainWorld) → IsPlain self.old w
            → IsPlainStep seen self.new (record { seen = map got (left_of w.client) ++ ended_seen before (end_of w.client); after = record w { client = all_handed w.client } })) }
    {
        let mut seen = Vec::new(alloc);
        hand_out_all(&mut self.client, &mut seen)?;
        push_ended(&mut seen, before, self.client.ended())?;
        Ok(Row::from_vec(seen))
    }
}

// The place of the answer with this number: they count from 1.
fn place_of(number: u64, written: &[Written]) -> Option<usize>
    ensures some { IfSome result (λ place. (number ≡ suc place) × (place < length written.now)) }
    ensures none { result ≡ None → 0 < number → length written.now < number }
{
    if number == 0 || number > written.len() as u64 {
        return None;
    }
    Some((number - 1) as usize)
}

fn written_at(written: &[Written], place: usize) -> &Written
    requires { place < length written.now }
    ensures { slice_get written.now place ≡ Some result.now }
{
    &written[place]
}

// All payloads that are left are handed out and seen, in order.
fn hand_out_all(client: &mut Client, seen: &mut Vec<SeenItem>) -> Result<(), AllocError>
    ensures { (c : PlainClient) → StandsFor client.old c
        → OnOk result ((seen.new.items ≡ seen.old.items ++ map got (left_of c)) × StandsFor client.new (all_handed c)) }
{
    while let Some(payload) = client.hand_out_on() {
        seen.push(got(payload))?;
    }
    Ok(())
}

// It is seen with its stream, but for the first one.
fn got(payload: (StreamNo, Text)) -> SeenItem
    ensures { result ≡ got payload }
{
    let (stream, stanza) = payload;
    if stream.number() == 0 {
        return SeenItem::Got { stanza };
    }
    SeenItem::GotOn { stream, stanza }
}

// The first terminal answer is seen once.
fn push_ended(
    seen: &mut Vec<SeenItem>,
    before: Option<ClientEnd>,
    now: Option<ClientEnd>,
) -> Result<(), AllocError>
    ensures { OnOk result (seen.new.items ≡ seen.old.items ++ ended_seen before now) }
{
    if before.is_some() {
        return Ok(());
    }
    match now {
        Some(end) => {
            seen.push(SeenItem::Ended {
                condition: end.condition,
            })?;
            Ok(())
        }
        None => Ok(()),
    }
}
