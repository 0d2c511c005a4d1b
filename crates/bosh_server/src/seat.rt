// A connection in a loop.
ghost use Rattle.std.specs.Prelude.{◌≡◌, ◌↔◌, ◌++◌, ◌∷◌, ◌+◌, ◌-◌, ◌^◌, [], ℕ, All, IfNone, IfOk, IfSome, length, min, true};
ghost use Rattle.std.specs.Arc.{arc_value};
ghost use Rattle.parked_gate.specs.Histories.{StartsWith};
ghost use Rattle.parked_gate.specs.Passes.{IsPassOf, gate_of, known};
ghost use Rattle.serve_loop.specs.Connections.{IsServedBy, outside};
ghost use Rattle.serve_loop.specs.Drawing.{OpensAsDrawn};
ghost use Rattle.serve_loop.specs.Stepping.{Steps};
ghost use Rattle.serve_loop.specs.Trail.{setting};
ghost use Rattle.bosh_server.specs.Fates.{IsFate, IsOfHistory, IsSiteOf, StandsSince};
ghost use Rattle.bosh_server.specs.Seats.{IsServedBy-prop};

use crate::bells::LoopBell;
use crate::ends::Naming;
use crate::fates::{Away, Fate, Fates, Past};
use crate::served::Served;
use crate::telling::tell_refused;
use crate::yard::{Post, Yard};
use bosh_ports::{Bell, BellKey, Polled};
use bosh_types::Moment;
use connection_loops::{Rouse, Seat, Wanted};
use parked_gate::Pass;
use serve_loop::{Site, Tools, Trail, Wants, Worker, turn_away};
use server_ports::{Clock, Names};
use session_table::{Directory, Purse};
use std::alloc::{AllocError, Global};
use std::marker::PhantomData;
use std::snapshot::Snapshot;
use std::sync::{Arc, Wait};

/// A connection in its slot of a loop, with the directory that it is served from.
#[derive(Drop)]
pub(crate) struct ConnectionSeat<J: Naming, L: Polled + Drop> {
    served: Served<L>,
    yard: Arc<Yard>,
    // Its request waits in its session.
    is_parked: bool,
    // The link when it came, and what was kept of the directory then.
    came: Snapshot<L>,
    first: Snapshot<Purse>,
    of: PhantomData<J>,
    ghost fits: { IsPassOf (arc_value yard).directory served.worker.purse.directory },
    ghost held: { IsServedBy served.worker.purse.sessions served.connection.standing.stage } by { IsServedBy-prop served.worker.purse.sessions served.connection.standing.stage },
    ghost home: { gate_of (arc_value yard).directory ≡ J.home },
    ghost site: { ∥ IsSiteOf J.site (arc_value yard).hosts (arc_value yard).limits ∥₁ },
    ghost stands: { ∥ StandsSince L.left L.given L.closed L.faults J.site came.value first.value served.link served.worker.trail served.worker.purse served.connection ∥₁ },
}

/// A place in the yard of a server with a name, for one connection after the other.
#[derive(Drop)]
pub(crate) struct Stall<J: Naming> {
    pub(crate) post: Post,
    pub(crate) of: PhantomData<J>,
    pub(crate) ghost home: { gate_of (arc_value post.yard).directory ≡ J.home },
    pub(crate) ghost site: { ∥ IsSiteOf J.site (arc_value post.yard).hosts (arc_value post.yard).limits ∥₁ },
}

/// What a loop has for its connections. Its own pass of the directory is what those of its connections are split from, and has seen what these
/// had when they were let go.
#[derive(Drop)]
pub(crate) struct LoopTools<J, R, L, C, B, M, W>
where
    J: Naming,
    R: Wait + Copy + Drop,
    L: Polled + Drop,
    C: Clock + Drop,
    B: Bell + Drop,
    M: Names + Drop,
    W: Rouse + Drop,
{
    pub(crate) alloc: Global,
    pub(crate) yard: Arc<Yard>,
    pub(crate) pass: Pass<Directory>,
    // Of connections that have ended.
    pub(crate) stalls: Vec<Stall<J>>,
    pub(crate) clock: C,
    pub(crate) serving: Tools<LoopBell<R, B, W>, M>,
    // What became of the links that were let go, and how many these were.
    pub(crate) fates: Fates<L>,
    pub(crate) settled: u64,
    pub(crate) of: PhantomData<J>,
    pub(crate) ghost fits: { IsPassOf (arc_value yard).directory pass },
    pub(crate) ghost home: { gate_of (arc_value yard).directory ≡ J.home },
    pub(crate) ghost site: { ∥ IsSiteOf J.site (arc_value yard).hosts (arc_value yard).limits ∥₁ },
    pub(crate) ghost moment: { ∥ C.moment clock ≡ J.site.moment ∥₁ },
    pub(crate) ghost counted: { settled ≡ min (length fates) (2 ^ 64 - 1) },
    pub(crate) ghost true_of: { ∥ All (IsFate L.left L.given L.closed L.faults J.site) fates ∥₁ },
    pub(crate) ghost of_one: { ∥ All (IsOfHistory (known pass).seen) fates ∥₁ },
}

impl<J, R, L, C, B, M, W> LoopTools<J, R, L, C, B, M, W>
where
    J: Naming,
    R: Wait + Copy + Drop,
    L: Polled + Drop,
    C: Clock + Drop,
    B: Bell + Drop,
    M: Names + Drop,
    W: Rouse + Drop,
{
    // A place for a connection: that of one that has ended, or a new one. The only error is want of memory.
    fn stall<T: Wait>(&mut self, rt: &T) -> Result<Stall<J>, AllocError>
        ensures { self.new.fates ≡ self.old.fates }
    {
        if let Some(stall) = self.stalls.pop() {
            return Ok(stall);
        }
        let yard = Arc::try_clone(&self.yard)?;
        let own = self.yard.directory.split(rt, &mut self.pass);
        let purse = Purse::new(self.alloc, own);
        let post = Post { yard, purse };
        Ok(Stall {
            post,
            of: PhantomData,
        })
    }

    // Keeps the place of a connection that has ended, where there is memory for it.
    fn keep(&mut self, stall: Stall<J>)
        ensures { self.new.fates ≡ self.old.fates }
    {
        let _ = self.stalls.push(stall);
    }

    // A seat at this place for a link on which nothing came yet.
    fn seat(&self, stall: Stall<J>, link: L) -> ConnectionSeat<J, L> {
        let Stall { post, of } = stall;
        let Post { yard, purse } = post;
        let mut purse = purse;
        purse.let_all_go();
        let came = Snapshot::of(&link);
        let first = Snapshot::of(&purse);
        let trail = Trail::new();
        let worker = Worker { purse, trail };
        let served = Served::new(self.alloc, link, worker, self.clock.now());
        ConnectionSeat {
            served,
            yard,
            is_parked: false,
            came,
            first,
            of,
        }
    }

    // Its own pass has then seen what was seen for a connection of the same server.
    fn learn(&mut self, purse: &mut Purse)
        requires { IsPassOf (arc_value self.old.yard).directory purse.old.directory }
        ensures pass { IsPassOf (arc_value self.old.yard).directory purse.new.directory }
        ensures seen { StartsWith (known self.new.pass).seen (known purse.old.directory).seen }
        ensures fates { self.new.fates ≡ self.old.fates }
    {
        self.yard
            .directory
            .share(&mut self.pass, &mut purse.directory);
    }

    // Notes what became of one more link.
    fn settle(&mut self, fate: Fate<L>)
        requires is { ∥ IsFate L.left L.given L.closed L.faults J.site fate ∥₁ }
        requires of_one { ∥ IsOfHistory (known self.old.pass).seen fate ∥₁ }
        ensures { self.new.fates ≡ self.old.fates ++ fate ∷ [] }
    {
        self.fates.push(fate);
        self.settled = self.settled.saturating_add(1);
    }

    // A link for which there is no room is told so, and closed.
    fn turn_away(&mut self, link: L)
        ensures { length self.new.fates ≡ length self.old.fates + 1 }
    {
        let mut link = link;
        let came = Snapshot::of(&link);
        turn_away(&mut self.serving.rooms, &mut link);
        let end = Snapshot::of(&link);
        self.settle(Fate::TurnedAway(Away { came, end }));
    }

    // A link for which there is no memory is closed.
    fn give_up(&mut self, link: L)
        ensures { length self.new.fates ≡ length self.old.fates + 1 }
    {
        let mut link = link;
        let came = Snapshot::of(&link);
        link.close();
        let end = Snapshot::of(&link);
        self.settle(Fate::NoMemory(Away { came, end }));
    }
}

impl<J, R, L, C, B, M, W> Seat<LoopTools<J, R, L, C, B, M, W>> for ConnectionSeat<J, L>
where
    J: Naming,
    R: Wait + Copy + Drop,
    L: Polled + Drop,
    C: Clock + Drop,
    B: Bell + Drop,
    M: Names + Drop,
    W: Rouse + Drop,
{
    type Link = L;

    fn has_room<T: Wait>(rt: &T, tools: &LoopTools<J, R, L, C, B, M, W>) -> bool {
        tools.yard.open.has_left(rt, 1)
    }

    // What became of a link that has no seat is noted.
    fn seated<T: Wait>(rt: &T, tools: &mut LoopTools<J, R, L, C, B, M, W>, link: L) -> Option<Self>
        ensures seat { IfSome result (λ _. tools.new.fates ≡ tools.old.fates) }
        ensures none { IfNone result (length tools.new.fates ≡ length tools.old.fates + 1) }
    {
        if !tools.yard.open.take(rt, 1) {
            tools.turn_away(link);
            return None;
        }
        match tools.stall(rt) {
            Ok(stall) => {
                tools.yard.watch.open();
                Some(tools.seat(stall, link))
            }
            Err(AllocError) => {
                tools.yard.open.give_back(rt, 1);
                tools.give_up(link);
                None
            }
        }
    }

    fn link(&self) -> &L {
        &self.served.link
    }

    fn now(tools: &LoopTools<J, R, L, C, B, M, W>) -> Moment {
        tools.clock.now()
    }

    fn due(&self) -> Moment {
        self.served.due()
    }

    fn idle_since(&self) -> Option<Moment> {
        self.served.idle_since()
    }

    fn has_left(&mut self) -> Option<BellKey> {
        key_of(self.served.is_left())
    }

    fn go_on<T: Wait>(
        &mut self,
        rt: &T,
        tools: &mut LoopTools<J, R, L, C, B, M, W>,
        most: u32,
    ) -> Wanted
        ensures { tools.new.fates ≡ tools.old.fates }
    {
        let wants = go_on(
            rt,
            tools.alloc,
            &self.yard,
            &tools.clock,
            &mut self.served,
            &mut tools.serving,
            most,
        );
        let requests = self.served.patience.take_requests();
        self.yard.watch.came(requests);
        tell_refused(rt, &self.yard.watch, &mut tools.serving.refused);
        let is_parked = is_answer(wants);
        self.yard.watch.park(self.is_parked, is_parked);
        self.is_parked = is_parked;
        match wants {
            Wants::Room => wanted_by_link(&self.served.link, &mut tools.serving.bell),
            _ => wanted(wants),
        }
    }

    // What became of the link is noted.
    fn leave<T: Wait>(self, rt: &T, tools: &mut LoopTools<J, R, L, C, B, M, W>)
        ensures { length tools.new.fates ≡ length tools.old.fates + 1 }
    {
        let ConnectionSeat {
            served,
            yard,
            is_parked,
            came,
            first,
            of,
        } = self;
        let Served {
            connection,
            link,
            worker,
            coming,
            ..
        } = served;
        yard.open.give_back(rt, 1);
        yard.watch.close();
        yard.watch.park(is_parked, false);
        yard.incoming.give_back(rt, coming);
        let went = Snapshot::of(&link);
        let mut link = link;
        link.close();
        let end = Snapshot::of(&link);
        let Worker { purse, trail } = worker;
        let last = Snapshot::of(&purse);
        let mut purse = purse;
        tools.learn(&mut purse);
        let connection = Snapshot::of(&connection);
        tools.settle(Fate::Served(Past {
            came,
            went,
            end,
            first,
            last,
            trail,
            connection,
        }));
        purse.let_all_go();
        let post = Post { yard, purse };
        tools.keep(Stall { post, of });
    }
}

// What a connection wants whose link takes nothing: room, or what is to be stored first. It looks once more after it is known to wait for that.
fn wanted_by_link<L: Polled, B: Bell>(link: &L, bell: &mut B) -> Wanted {
    if !link.is_held() {
        return Wanted::Link;
    }
    bell.tune(BellKey::STORED);
    match link.is_held() {
        true => Wanted::Ring(BellKey::STORED),
        false => Wanted::Turn,
    }
}

// Goes on with a connection that is served from this yard.
fn go_on<R: Wait, L: Polled + Drop, C: Clock, B: Bell, M: Names>(
    rt: &R,
    alloc: Global,
    yard: &Yard,
    clock: &C,
    served: &mut Served<L>,
    tools: &mut Tools<B, M>,
    most: u32,
) -> Wants
    requires pass { IsPassOf yard.now.directory served.old.worker.purse.directory }
    requires held { IsServedBy served.old.worker.purse.sessions served.old.connection.standing.stage }
    ensures pass { IsPassOf yard.now.directory served.new.worker.purse.directory }
    ensures held { IsServedBy served.new.worker.purse.sessions served.new.connection.standing.stage }
    ensures moves { Steps (setting yard.now.hosts yard.now.limits (C.moment clock.now))
        (outside served.old.connection.reader (L.left served.old.link) (L.given served.old.link) served.old.worker.trail served.old.worker.purse (L.faults served.old.link))
        (outside served.new.connection.reader (L.left served.new.link) (L.given served.new.link) served.new.worker.trail served.new.worker.purse (L.faults served.new.link))
        served.old.connection.standing served.new.connection.standing }
    ensures drawn { OpensAsDrawn (M.drawn tools.old.names) (M.drawn tools.new.names) (known served.old.worker.purse.directory) (known served.new.worker.purse.directory) }
{
    let site = Site {
        alloc,
        directory: &yard.directory,
        hosts: &yard.hosts,
        clock,
        limits: yard.limits,
    };
    served.go_on(rt, &site, &yard.incoming, tools, most)
}

// Whether it wants an answer that isn't there yet.
fn is_answer(wants: Wants) -> bool
    ensures { result ≡ true ↔ ((number : ℕ) × (wants ≡ Wants.Answer number)) }
{
    matches!(wants, Wants::Answer(_))
}

// The key of the rings for a session.
fn key_of(number: Option<u64>) -> Option<BellKey> {
    match number {
        Some(number) => Some(BellKey(number)),
        None => None,
    }
}

fn wanted(wants: Wants) -> Wanted {
    match wants {
        Wants::Bytes | Wants::Room => Wanted::Link,
        Wants::Nothing => Wanted::Turn,
        Wants::Answer(number) => Wanted::Ring(BellKey(number)),
        Wants::End(_) => Wanted::End,
    }
}
