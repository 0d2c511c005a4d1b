// Whether events come in time: no copy of a request after its answer was taken.
ghost use Rattle.std.specs.Prelude.{◌≡◌, ◌↔◌, All, IfOk, IsTrue, List, is_some, ℕ};
ghost use Rattle.bosh_client.specs.PlainClient.{taken};
ghost use Rattle.bosh_client.specs.declared.setup.ClientSetup.{ClientSetup};
ghost use Rattle.two_ends.specs.Asked.{AreFromFirst};
ghost use Rattle.two_ends.specs.Worlds.{IsWorld};
ghost use Rattle.world_laws.specs.Setup.{IsAllowed, IsWorldSetup};
ghost use Rattle.world_laws.specs.Timely.{IsTimely, is_in_time, is_timely};
ghost use Rattle.world_laws.specs.World.{PlainWorld, new_world};

use crate::arriving::place_in;
use crate::world::World;
use bosh_client::ClientSetup;
use bosh_types::{CopyIn, Rid, Stanzas, Text, copy_items};
use std::alloc::{AllocError, Global};
use world_laws::{WorldEvent, every_world_keeps_both_prefixes, timely_worlds_are_complete};

impl World {
    /// Whether no copy of these events comes after the client took its request's answer, in a world of their own that begins
    /// so. The only error is want of memory.
    pub fn timely(
        alloc: Global,
        host: &[u8],
        greeting: &Stanzas,
        setup: ClientSetup,
        events: &[WorldEvent],
    ) -> Result<bool, AllocError>
        requires begins { IsWorldSetup host.now greeting.now setup }
        requires allowed { All IsAllowed events.now }
        ensures { IfOk result (λ yes. IsTrue yes ↔ IsTimely (new_world host.now greeting.now setup) events.now) }
    {
        timely_worlds_are_complete();
        let host = Text::from_vec(Vec::from_slice(alloc, host)?);
        let greeting = Stanzas::from_vec(copy_items(alloc, greeting.as_slice())?);
        let mut world = World::new(alloc, host, greeting, setup)?;
        world.all_in_time(alloc, events)
    }

    // Whether each of these events comes in time, in a world that was new.
    fn all_in_time(&mut self, alloc: Global, events: &[WorldEvent]) -> Result<bool, AllocError>
        requires { All IsAllowed events.now }
        ensures { IfOk result (λ yes. (host : List ℕ) (greeting : List (List ℕ)) (setup : ClientSetup) → IsWorldSetup host greeting setup
            → IsWorld self.old (new_world host greeting setup) → yes ≡ is_timely (new_world host greeting setup) events.now) }
    {
        every_world_keeps_both_prefixes();
        for event in events {
            if !self.is_in_time(event) {
                return Ok(false);
            }
            let event = copied(alloc, event)?;
            self.step(alloc, event)?;
        }
        Ok(true)
    }

    // Whether this event comes in time.
    fn is_in_time(&self, event: &WorldEvent) -> bool
        ensures { (w : PlainWorld) → IsWorld self.now w → AreFromFirst w.client → result ≡ is_in_time w event.now }
    {
        match event {
            WorldEvent::Carry(rid) => !self.has_taken(*rid),
            _ => true,
        }
    }

    // Whether the client took an answer of this id: it made the request, and has no copy of it any more.
    fn has_taken(&self, rid: Rid) -> bool
        ensures { (w : PlainWorld) → IsWorld self.now w → AreFromFirst w.client → result ≡ is_some (taken w.client rid) }
    {
        if place_in(self.first, rid, self.sent.as_slice()).is_none() {
            return false;
        }
        self.client.copy(rid).is_none()
    }
}

// The same event again.
fn copied(alloc: Global, event: &WorldEvent) -> Result<WorldEvent, AllocError>
    ensures { IfOk result (λ copy. copy ≡ event.now) }
{
    match event {
        WorldEvent::At(moment) => Ok(WorldEvent::At(*moment)),
        WorldEvent::Put(stanza) => Ok(WorldEvent::Put(stanza.copy_in(alloc)?)),
        WorldEvent::PutOn(stream, stanza) => {
            Ok(WorldEvent::PutOn(*stream, stanza.copy_in(alloc)?))
        }
        WorldEvent::Add(to) => Ok(WorldEvent::Add(to.copy_in(alloc)?)),
        WorldEvent::StopOn(stream) => Ok(WorldEvent::StopOn(*stream)),
        WorldEvent::Restart => Ok(WorldEvent::Restart),
        WorldEvent::Pause(seconds) => Ok(WorldEvent::Pause(*seconds)),
        WorldEvent::Stop => Ok(WorldEvent::Stop),
        WorldEvent::Send => Ok(WorldEvent::Send),
        WorldEvent::Carry(rid) => Ok(WorldEvent::Carry(*rid)),
        WorldEvent::Give(stanza) => Ok(WorldEvent::Give(stanza.copy_in(alloc)?)),
        WorldEvent::GiveOn(stream, stanza) => {
            Ok(WorldEvent::GiveOn(*stream, stanza.copy_in(alloc)?))
        }
        WorldEvent::Shut(closing) => Ok(WorldEvent::Shut(*closing)),
        WorldEvent::ShutOn(stream, closing) => Ok(WorldEvent::ShutOn(*stream, *closing)),
        WorldEvent::Return(number) => Ok(WorldEvent::Return(*number)),
    }
}
