// What can be asked of a world.
ghost use Rattle.std.specs.Prelude.{◌≡◌, ◌+◌, ◌<◌, Some, length, map};
ghost use Rattle.two_ends.specs.Asked.{ending_in, greatest_open, if_open, last_answer, lowest_open};
ghost use Rattle.two_ends.specs.Worlds.{IsWorld, pair_of};
ghost use Rattle.world_laws.specs.World.{PlainWorld};

use crate::world::{World, Written};
use bosh_types::{Ending, Moment, Rid};

impl World {
    /// The present moment.
    pub fn moment(&self) -> Moment
        ensures { (w : PlainWorld) → IsWorld self.now w → result ≡ w.moment }
    {
        self.moment
    }

    /// How many requests the client made.
    pub fn requests(&self) -> u64
        ensures { (w : PlainWorld) → IsWorld self.now w → result ≡ length w.sent }
    {
        self.sent.len() as u64
    }

    /// The lowest id of a request that the client made and took no answer of.
    pub fn lowest_open(&self) -> Option<Rid>
        ensures { (w : PlainWorld) → IsWorld self.now w → result ≡ lowest_open w.client }
    {
        for place in 0..self.sent.len() {
            if let Some(rid) = self.open_at(place) {
                return Some(rid);
            }
        }
        None
    }

    /// The id of the client's last request, if it took no answer of it.
    pub fn greatest_open(&self) -> Option<Rid>
        ensures { (w : PlainWorld) → IsWorld self.now w → result ≡ greatest_open w.client }
    {
        let count = self.sent.len();
        if count == 0 {
            return None;
        }
        self.open_at(count - 1)
    }

    // The id of the request at this place, if the client took no answer of it.
    fn open_at(&self, place: usize) -> Option<Rid>
        requires { place < length self.now.sent.items }
        ensures { (w : PlainWorld) → IsWorld self.now w → result ≡ if_open w.client (Some (self.now.first + place)) }
    {
        let rid = Rid::new(self.first.value() + place as u64)?;
        if self.client.copy(rid).is_some() {
            return Some(rid);
        }
        None
    }

    /// The number, from 1, of the last answer that the manager wrote to a request with this id.
    pub fn last_answer(&self, rid: Rid) -> Option<u64>
        ensures { (w : PlainWorld) → IsWorld self.now w → result ≡ last_answer rid w.written }
    {
        last_in(&self.written, rid)
    }

    /// How the session ended, if it did.
    pub fn ending(&self) -> Option<Ending>
        ensures { (w : PlainWorld) → IsWorld self.now w → result ≡ ending_in w.manager }
    {
        self.manager.as_ref()?.session.ending()
    }
}

// The number of the last answer to a request with this id.
fn last_in(written: &[Written], rid: Rid) -> Option<u64>
    ensures { result ≡ last_answer rid (map pair_of written.now) }
{
    let mut last = None;
    let mut number = 0u64;
    for answer in written {
        number += 1;
        if answer.rid == rid {
            last = Some(number);
        }
    }
    last
}
