// One connection of a client over a link that is asked and never waits, as a value that makes one step after the other.
ghost use Rattle.std.specs.Prelude.{◌≡◌, ◌≤◌, ◌⊎◌, [], ℕ, List, Option, false, true};
ghost use Rattle.std.specs.Io.KnownBytes.{Keeps};
ghost use Rattle.bosh_http.specs.Reading.{GivesNothing, Reads};
ghost use Rattle.bosh_ports.specs.Faults.{HasRisen};
ghost use Rattle.parked_gate.specs.Passes.{IsPassOf, known};
ghost use Rattle.serve_loop.specs.declared.trail.Traced.{Traced};
ghost use Rattle.session_table.specs.declared.purse.Purse.{Purse};
ghost use Rattle.serve_loop.specs.Connections.{Ends, IsServedBy, Moves, Outside, is_read, outside, wanted_by};
ghost use Rattle.serve_loop.specs.Drawing.{OpensAsDrawn};
ghost use Rattle.serve_loop.specs.Stepping.{CountsRead, IsNextAt, StandsAt, StaysSo, Steps, WantsMore, asks_link, given_up};
ghost use Rattle.serve_loop.specs.Trail.{Setting, setting};

use crate::connection::{
    ConnectionEnd, Stage, Wants, ask, asked_stage, collected, refused, stage_behind,
};
use crate::owed::Owed;
use crate::trail::Trail;
use crate::worker::{Site, Tools, Worker};
use bosh_http::{Awaited, HttpIn};
use bosh_ports::{Bell, Polled};
use polled_http::{GiveRoom, Given, HttpPolled, PolledReader, TakeRoom};
use server_ports::{Clock, Names};
use std::alloc::Global;
use std::mem::replace;
use std::sync::Wait;

/// What a step did.
#[derive(Clone, Copy, Debug, PartialEq, Eq)]
pub enum Moved {
    /// It did something: a next one may do more.
    On,
    /// Nothing: the link has nothing now, or no room.
    NotYet,
}

/// Where a polled connection stands.
#[derive(Drop)]
pub(crate) struct Standing {
    pub(crate) stage: Stage,
    /// Of what is owed, the bytes before this place were given.
    pub(crate) place: u128,
}

/// A connection over a link that never waits: its bytes that make no request yet, and where its last request stands.
#[derive(Drop)]
pub struct PolledConnection {
    alloc: Global,
    reader: PolledReader,
    pub(crate) standing: Standing,
}

// Where a step led, and whether it did anything.
#[derive(Drop)]
struct Reached {
    standing: Standing,
    moved: Moved,
}

// It has come to this stage, where nothing was given of what may be owed.
fn at(stage: Stage) -> Reached
    ensures stage { result.standing.stage ≡ stage }
    ensures place { result.standing.place ≡ 0 }
    ensures moved { result.moved ≡ Moved.On }
{
    Reached {
        standing: Standing { stage, place: 0 },
        moved: Moved::On,
    }
}

impl PolledConnection {
    /// A connection on which nothing came yet. It takes no memory.
    pub fn new(alloc: Global) -> PolledConnection
        ensures reader { result.reader ≡ [] }
        ensures stage { result.standing.stage ≡ Stage.Reading }
    {
        PolledConnection {
            alloc,
            reader: PolledReader::new(alloc),
            standing: Standing {
                stage: Stage::Reading,
                place: 0,
            },
        }
    }

    /// What it wants next.
    pub fn wants(&self) -> Wants
        ensures { result ≡ wanted_by self.now.standing.stage }
    {
        self.standing.stage.wants()
    }

    /// What of its next request it waits for, where it wants bytes.
    pub fn awaits(&self) -> Awaited {
        self.reader.awaits()
    }

    /// How many bytes of what is owed were given, where it wants room.
    pub fn place(&self) -> u128
        ensures { result ≡ self.now.standing.place }
    {
        self.standing.place
    }

    /// Whether it ends by `Gone`: it waits for an answer that isn't there yet, and the link said that its peer has left. No bytes are taken, and its
    /// session holds the request on.
    pub fn is_gone<K: Polled>(&self, link: &mut K) -> bool
        ensures ends { result ≡ true → (site : Setting) → (start : Outside) → (trail : List Traced) → (purse : Purse)
            → StandsAt site start (outside self.now.reader (K.left link.old) (K.given link.old) trail purse (K.faults link.old)) self.now.standing.place self.now.standing.stage
            → Ends site start (outside self.now.reader (K.left link.new) (K.given link.new) trail purse (K.faults link.new)) ConnectionEnd.Gone }
        ensures said { result ≡ true → HasRisen (K.leaves link.old) (K.leaves link.new) }
        ensures left { K.left link.new ≡ K.left link.old }
        ensures given { K.given link.new ≡ K.given link.old }
        ensures closed { K.closed link.new ≡ K.closed link.old }
        ensures faults { K.faults link.new ≡ K.faults link.old }
        ensures waits { K.waits link.new ≡ K.waits link.old }
    {
        match &self.standing.stage {
            Stage::Waiting { looked: true, .. } => link.has_left(),
            _ => false,
        }
    }

    /// The request that is coming is given up: it is answered as one for which there is no memory, and the connection ends behind that. Where no
    /// request is read nothing changes.
    pub fn give_up(&mut self)
        ensures reader { self.new.reader ≡ self.old.reader }
        ensures stage { self.new.standing.stage ≡ given_up self.old.standing.stage }
        ensures held { (purse : Purse) → IsServedBy purse.sessions self.old.standing.stage → IsServedBy purse.sessions self.new.standing.stage }
        ensures moves { (site : Setting) → (now : Outside) → Steps site now now self.old.standing self.new.standing }
    {
        if let Stage::Reading = &self.standing.stage {
            self.standing = Standing {
                stage: Stage::Owing(Owed::NoMemory),
                place: 0,
            };
        }
    }

    /// Makes one step: takes a piece of a request, makes its call, looks for its answer, or gives a piece of that. It never waits for the
    /// link: where that has nothing, or no room, all is as before.
    pub fn step<R: Wait, K: Polled, C: Clock, B: Bell, M: Names>(
        &mut self,
        rt: &R,
        site: &Site<'_, C>,
        worker: &mut Worker,
        tools: &mut Tools<B, M>,
        link: &mut K,
    ) -> Moved
        requires pass { IsPassOf site.now.directory.now worker.old.purse.directory }
        requires held { IsServedBy worker.old.purse.sessions self.old.standing.stage }
        ensures pass { IsPassOf site.now.directory.now worker.new.purse.directory }
        ensures held { IsServedBy worker.new.purse.sessions self.new.standing.stage }
        ensures moves { Steps (setting site.now.hosts.now site.now.limits (C.moment site.now.clock.now))
            (outside self.old.reader (K.left link.old) (K.given link.old) worker.old.trail worker.old.purse (K.faults link.old))
            (outside self.new.reader (K.left link.new) (K.given link.new) worker.new.trail worker.new.purse (K.faults link.new))
            self.old.standing self.new.standing }
        ensures drawn { OpensAsDrawn (M.drawn tools.old.names) (M.drawn tools.new.names) (known worker.old.purse.directory) (known worker.new.purse.directory) }
        ensures next { result ≡ Moved.On → IsNextAt self.old.reader self.new.reader self.old.standing.place self.old.standing.stage self.new.standing }

        // Nothing but the link's count of waits changes by `NotYet`, and only by that.
        ensures same { result ≡ Moved.NotYet → self.new ≡ self.old }
        ensures stays { result ≡ Moved.NotYet → StaysSo
            (outside self.old.reader (K.left link.old) (K.given link.old) worker.old.trail worker.old.purse (K.faults link.old))
            (outside self.new.reader (K.left link.new) (K.given link.new) worker.new.trail worker.new.purse (K.faults link.new)) }
        ensures lacks { result ≡ Moved.NotYet → WantsMore self.old.reader self.old.standing.stage }
        ensures waits { result ≡ Moved.NotYet → HasRisen (K.waits link.old) (K.waits link.new) }
        ensures answered { result ≡ Moved.On → K.waits link.new ≡ K.waits link.old }

        // A connection that waits for its answer isn't read.
        ensures alone { asks_link self.old.standing.stage ≡ false → (link.new ≡ link.old) × (result ≡ Moved.On) }
        ensures faults { K.faults link.old ≤ K.faults link.new }
        ensures silences { B.silences tools.new.bell ≡ B.silences tools.old.bell }
    {
        let first = Standing {
            stage: Stage::Reading,
            place: 0,
        };
        let standing = replace(&mut self.standing, first);
        let reached = self.move_on(rt, site, worker, tools, link, standing);
        self.standing = reached.standing;
        reached.moved
    }

    // Where it stands after one step from here.
    fn move_on<R: Wait, K: Polled, C: Clock, B: Bell, M: Names>(
        &mut self,
        rt: &R,
        site: &Site<'_, C>,
        worker: &mut Worker,
        tools: &mut Tools<B, M>,
        link: &mut K,
        standing: Standing,
    ) -> Reached
        requires pass { IsPassOf site.now.directory.now worker.old.purse.directory }
        requires held { IsServedBy worker.old.purse.sessions standing.stage }
        ensures pass { IsPassOf site.now.directory.now worker.new.purse.directory }
        ensures held { IsServedBy worker.new.purse.sessions result.standing.stage }
        ensures moves { Steps (setting site.now.hosts.now site.now.limits (C.moment site.now.clock.now))
            (outside self.old.reader (K.left link.old) (K.given link.old) worker.old.trail worker.old.purse (K.faults link.old))
            (outside self.new.reader (K.left link.new) (K.given link.new) worker.new.trail worker.new.purse (K.faults link.new))
            standing result.standing }
        ensures drawn { OpensAsDrawn (M.drawn tools.old.names) (M.drawn tools.new.names) (known worker.old.purse.directory) (known worker.new.purse.directory) }
        ensures next { result.moved ≡ Moved.On → IsNextAt self.old.reader self.new.reader standing.place standing.stage result.standing }
        ensures same { result.moved ≡ Moved.NotYet → (result.standing ≡ standing) × (self.new ≡ self.old) }
        ensures stays { result.moved ≡ Moved.NotYet → StaysSo
            (outside self.old.reader (K.left link.old) (K.given link.old) worker.old.trail worker.old.purse (K.faults link.old))
            (outside self.new.reader (K.left link.new) (K.given link.new) worker.new.trail worker.new.purse (K.faults link.new)) }
        ensures lacks { result.moved ≡ Moved.NotYet → WantsMore self.old.reader standing.stage }
        ensures waits { result.moved ≡ Moved.NotYet → HasRisen (K.waits link.old) (K.waits link.new) }
        ensures answered { result.moved ≡ Moved.On → K.waits link.new ≡ K.waits link.old }
        ensures alone { asks_link standing.stage ≡ false → (link.new ≡ link.old) × (result.moved ≡ Moved.On) }
        ensures faults { K.faults link.old ≤ K.faults link.new }
        ensures silences { B.silences tools.new.bell ≡ B.silences tools.old.bell }
    {
        let Standing { stage, place } = standing;
        match stage {
            Stage::Reading => {
                self.read(&mut worker.trail, &mut tools.rooms.taking, link, place)
            },
            Stage::Asked { body, closing } => at(ask(rt, site, worker, tools, body, closing)),
            Stage::Waiting {
                waiting,
                closing,
                ..
            } => at(collected(rt, worker, &mut tools.bell, waiting, closing)),
            Stage::Owing(owed) => give(&mut tools.rooms.giving, link, owed, place),
            Stage::Over(end) => at(Stage::Over(end)),
        }
    }

    // Takes a piece of the next request, or reads it, where it has come.
    fn read<K: Polled>(
        &mut self,
        trail: &mut Trail,
        room: &mut TakeRoom,
        link: &mut K,
        place: u128,
    ) -> Reached
        ensures held { (purse : Purse) → IsServedBy purse.sessions result.standing.stage }
        ensures moves { (site : Setting) → (purse : Purse) → Steps site
            (outside self.old.reader (K.left link.old) (K.given link.old) trail.old purse (K.faults link.old))
            (outside self.new.reader (K.left link.new) (K.given link.new) trail.new purse (K.faults link.new))
            (record { stage = Stage.Reading; place = place }) result.standing }
        ensures next { result.moved ≡ Moved.On → IsNextAt self.old.reader self.new.reader place Stage.Reading result.standing }
        ensures same { result.moved ≡ Moved.NotYet → (result.standing ≡ record { stage = Stage.Reading; place = place }) × (self.new ≡ self.old) }
        ensures stays { result.moved ≡ Moved.NotYet → (purse : Purse) → StaysSo
            (outside self.old.reader (K.left link.old) (K.given link.old) trail.old purse (K.faults link.old))
            (outside self.new.reader (K.left link.new) (K.given link.new) trail.new purse (K.faults link.new)) }
        ensures lacks { result.moved ≡ Moved.NotYet → GivesNothing self.old.reader }
        ensures waits { result.moved ≡ Moved.NotYet → HasRisen (K.waits link.old) (K.waits link.new) }
        ensures answered { result.moved ≡ Moved.On → K.waits link.new ≡ K.waits link.old }
        ensures faults { K.faults link.old ≤ K.faults link.new }
    {
        match self.reader.poll(self.alloc, room, link) {
            Ok(HttpPolled::Came(answer)) => at(stage_by(self.alloc, trail, answer)),
            Ok(HttpPolled::More) => at(Stage::Reading),
            Ok(HttpPolled::NotYet) => Reached {
                standing: Standing {
                    stage: Stage::Reading,
                    place,
                },
                moved: Moved::NotYet,
            },
            Err(_) => at(Stage::Owing(Owed::NoMemory)),
        }
    }
}

// Where a connection stands that has read this.
fn stage_by(alloc: Global, trail: &mut Trail, answer: HttpIn) -> Stage
    ensures held { (purse : Purse) → IsServedBy purse.sessions result }
    ensures moves { (site : Setting) → (purse : Purse) → (stream rest given given' : Option (List ℕ)) → (faults faults' : ℕ)
        → Reads stream rest answer → Keeps given given' → CountsRead faults faults' answer → Moves site
        (record { stream = stream; given = given; trail = trail.old; purse = purse; faults = faults })
        (record { stream = rest; given = given'; trail = trail.new; purse = purse; faults = faults' })
        Stage.Reading result }
    ensures next { is_read result ≡ true }
{
    match answer {
        HttpIn::Request { body, closing } => asked_stage(alloc, body, closing),
        HttpIn::Refused(refusal) => refused(trail, refusal),
        HttpIn::End => Stage::Over(ConnectionEnd::Ended),
        HttpIn::ReadFault => Stage::Over(ConnectionEnd::ReadFault),
    }
}

// Gives a piece of what is owed.
fn give<K: Polled>(room: &mut GiveRoom, link: &mut K, owed: Owed, place: u128) -> Reached
    ensures held { (purse : Purse) → IsServedBy purse.sessions result.standing.stage }
    ensures moves { (site : Setting) → (purse : Purse) → (trail : List Traced) → (kept : List ℕ) → Steps site
        (outside kept (K.left link.old) (K.given link.old) trail purse (K.faults link.old))
        (outside kept (K.left link.new) (K.given link.new) trail purse (K.faults link.new))
        (record { stage = Stage.Owing owed; place = place }) result.standing }
    ensures next { (kept kept' : List ℕ) → result.moved ≡ Moved.On → IsNextAt kept kept' place (Stage.Owing owed) result.standing }
    ensures same { result.moved ≡ Moved.NotYet → result.standing ≡ record { stage = Stage.Owing owed; place = place } }
    ensures stays { result.moved ≡ Moved.NotYet → (purse : Purse) → (trail : List Traced) → (kept : List ℕ) → StaysSo
        (outside kept (K.left link.old) (K.given link.old) trail purse (K.faults link.old))
        (outside kept (K.left link.new) (K.given link.new) trail purse (K.faults link.new)) }
    ensures waits { result.moved ≡ Moved.NotYet → HasRisen (K.waits link.old) (K.waits link.new) }
    ensures answered { result.moved ≡ Moved.On → K.waits link.new ≡ K.waits link.old }
    ensures faults { K.faults link.old ≤ K.faults link.new }
{
    match room.give(link, owed.status(), owed.text(), owed.closes(), place) {
        Given::All => at(stage_behind(&owed)),
        Given::Failed => at(Stage::Over(ConnectionEnd::WriteFault)),
        Given::Upto(next) => Reached {
            standing: Standing {
                stage: Stage::Owing(owed),
                place: next,
            },
            moved: Moved::On,
        },
        Given::NotYet => Reached {
            standing: Standing {
                stage: Stage::Owing(owed),
                place,
            },
            moved: Moved::NotYet,
        },
    }
}
