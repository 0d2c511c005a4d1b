// Events happen in a world.
ghost use Rattle.std.specs.Prelude.{◌≡◌, All, IfOk, List, ℕ};
ghost use Rattle.bosh_client.specs.declared.setup.ClientSetup.{ClientSetup};
ghost use Rattle.two_ends.specs.Summed.{given_now};
ghost use Rattle.two_ends.specs.Worlds.{IsPlain, IsPlainStep, IsRun, IsStep, IsWorld, ShowsBothPrefixes};
ghost use Rattle.world_laws.specs.Complete.{IsComplete};
ghost use Rattle.world_laws.specs.Promises.{all_seen};
ghost use Rattle.world_laws.specs.Setup.{IsAllowed, IsWorldSetup};
ghost use Rattle.world_laws.specs.Steps.{after, step};
ghost use Rattle.world_laws.specs.Timely.{IsTimely};
ghost use Rattle.world_laws.specs.World.{PlainWorld, new_world};

use crate::laws::events_are_counted;
use crate::sums::{given_by, put_by};
use crate::world::World;
use bosh_types::{Row, StreamNo};
use std::alloc::{AllocError, Global};
use world_laws::{
    Report, Seen, WorldEvent, every_world_keeps_both_prefixes, timely_worlds_are_complete,
};

impl World {
    /// Events happen one after the other. Where the world was new, on each stream, what was seen to be passed on to the server is a
    /// beginning of what the client made for it, and what was seen to be handed out a beginning of what the server gave on it; and
    /// where no copy of a request came after its answer was taken, nothing went wrong by itself between the two. The only error is
    /// want of memory, after which nothing is said of the world.
    pub fn run(&mut self, alloc: Global, events: Vec<WorldEvent>) -> Result<Report, AllocError>
        requires { All IsAllowed events.items }
        ensures run { IfOk result (λ report. (w : PlainWorld) → IsWorld self.old w → IsRun report self.new w events.items) }
        ensures prefixes { IfOk result (λ report. (host : List ℕ) (greeting : List (List ℕ)) (setup : ClientSetup) → IsWorldSetup host greeting setup
            → IsWorld self.old (new_world host greeting setup) → ShowsBothPrefixes (after (new_world host greeting setup) events.items) (all_seen report)) }
        ensures complete { IfOk result (λ report. (host : List ℕ) (greeting : List (List ℕ)) (setup : ClientSetup) → IsWorldSetup host greeting setup
            → IsWorld self.old (new_world host greeting setup) → IsTimely (new_world host greeting setup) events.items
            → IsComplete (after (new_world host greeting setup) events.items)) }
    {
        every_world_keeps_both_prefixes();
        timely_worlds_are_complete();
        let mut report = Vec::new(alloc);
        for event in events {
            let seen = self.step(alloc, event)?;
            report.push(seen)?;
        }
        Ok(Row::from_vec(report))
    }

    /// An event happens. The only error is want of memory, after which nothing is said of the world.
    pub fn step(&mut self, alloc: Global, event: WorldEvent) -> Result<Seen, AllocError>
        requires { IsAllowed event }
        ensures { IfOk result (λ seen. (w : PlainWorld) → IsWorld self.old w → IsStep seen self.new (step w event)) }
    {
        events_are_counted();
        let sums = self.sums;
        let put = put_by(&event);
        let given = given_by(&event);
        let was_open = self.manager.is_some();
        let greeting = self.site.greeting.len() as u64;
        let seen = self.happen(alloc, event)?;
        let is_open = self.manager.is_some();
        let given = given_since(was_open, is_open, greeting, given);
        self.sums = sums.after(put, given, seen.as_slice());
        Ok(seen)
    }

    // It happens, and nothing is counted.
    fn happen(&mut self, alloc: Global, event: WorldEvent) -> Result<Seen, AllocError>
        requires { IsAllowed event }
        ensures { IfOk result (λ seen. (w : PlainWorld) → IsPlain self.old w → IsPlainStep seen self.new (step w event)) }
    {
        match event {
            WorldEvent::At(moment) => self.at(alloc, moment),
            WorldEvent::Put(stanza) => self.put(alloc, stanza),
            WorldEvent::PutOn(stream, stanza) => self.put_on(alloc, stream, stanza),
            WorldEvent::Add(to) => self.add(alloc, to),
            WorldEvent::StopOn(stream) => self.stop_on(alloc, stream),
            WorldEvent::Restart => self.restart(alloc),
            WorldEvent::Pause(seconds) => self.pause(alloc, seconds),
            WorldEvent::Stop => self.stop(alloc),
            WorldEvent::Send => self.send(alloc),
            WorldEvent::Carry(rid) => self.carry(alloc, rid),
            WorldEvent::Give(stanza) => self.give(alloc, StreamNo::unnamed(), stanza),
            WorldEvent::GiveOn(stream, stanza) => self.give(alloc, stream, stanza),
            WorldEvent::Shut(closing) => self.shut(alloc, StreamNo::unnamed(), closing),
            WorldEvent::ShutOn(stream, closing) => self.shut(alloc, stream, closing),
            WorldEvent::Return(number) => self.answer(alloc, number),
        }
    }
}

// How many stanzas the server gave: the greeting, where the session was created.
fn given_since(was_open: bool, is_open: bool, greeting: u64, given: u64) -> u64
    ensures { result ≡ given_now was_open is_open greeting given }
{
    if was_open {
        return given;
    }
    if is_open {
        return greeting;
    }
    given
}
