// A connection with its link, and what it is served with.
ghost use Rattle.std.specs.Prelude.{◌≡◌, ◌≤◌, ◌⊎◌, IfNone, IfSome, true};
ghost use Rattle.bosh_ports.specs.Faults.{HasRisen};
ghost use Rattle.parked_gate.specs.Passes.{IsPassOf, known};
ghost use Rattle.serve_loop.specs.Connections.{IsServedBy, Outside, outside, wanted_by};
ghost use Rattle.serve_loop.specs.Drawing.{OpensAsDrawn};
ghost use Rattle.serve_loop.specs.Stepping.{Steps};
ghost use Rattle.serve_loop.specs.Trail.{Setting, setting};
ghost use Rattle.bosh_server.specs.Fates.{IsFresh};
ghost use Rattle.bosh_server.specs.Quotas.{content_awaited};

use crate::patience::Patience;
use crate::quota::Quota;
use bosh_ports::{Bell, Polled};
use bosh_types::Moment;
use serve_loop::{Awaited, ConnectionEnd, Moved, PolledConnection, Site, Tools, Wants, Worker};
use server_ports::{Clock, Names};
use std::alloc::Global;
use std::sync::Wait;

/// A connection with its link and its worker, how long it waits for its peer, and how much is coming in on it.
#[derive(Drop)]
pub(crate) struct Served<L: Polled + Drop> {
    pub(crate) connection: PolledConnection,
    pub(crate) link: L,
    pub(crate) worker: Worker,
    pub(crate) patience: Patience,
    // How many bytes the content has that is coming in, where one is.
    pub(crate) coming: u64,
    // Its peer left while its request waited.
    is_left: bool,
}

impl<L: Polled + Drop> Served<L> {
    /// A connection on which nothing came yet. It takes no memory.
    pub(crate) fn new(alloc: Global, link: L, worker: Worker, now: Moment) -> Served<L>
        ensures worker { result.worker ≡ worker }
        ensures link { result.link ≡ link }
        ensures fresh { IsFresh result.connection }
        ensures held { IsServedBy result.worker.purse.sessions result.connection.standing.stage }
    {
        Served {
            connection: PolledConnection::new(alloc),
            link,
            worker,
            patience: Patience::new(now),
            coming: 0,
            is_left: false,
        }
    }

    /// From when on its link is waited for no longer.
    pub(crate) fn due(&self) -> Moment {
        self.patience.due()
    }

    /// Since when it waits for the first byte of its next request, where it does.
    pub(crate) fn idle_since(&self) -> Option<Moment> {
        match (self.connection.wants(), self.connection.awaits()) {
            (Wants::Bytes, Awaited::Message) => Some(self.patience.since()),
            _ => None,
        }
    }

    /// Whether its peer has left while its request waits, for which there is nothing yet: it has ended by that. The opening number of the
    /// session that holds the request.
    pub(crate) fn is_left(&mut self) -> Option<u64>
        ensures waits { IfSome result (λ number. wanted_by self.old.connection.standing.stage ≡ Wants.Answer number) }
        ensures said { IfSome result (λ _. HasRisen (L.leaves self.old.link) (L.leaves self.new.link)) }
        ensures ends { IfSome result (λ _. self.new.is_left ≡ true) }
        ensures stays { IfNone result (self.new.is_left ≡ self.old.is_left) }
        ensures connection { self.new.connection ≡ self.old.connection }
        ensures worker { self.new.worker ≡ self.old.worker }
        ensures left { L.left self.new.link ≡ L.left self.old.link }
        ensures given { L.given self.new.link ≡ L.given self.old.link }
        ensures faults { L.faults self.new.link ≡ L.faults self.old.link }
    {
        let Wants::Answer(number) = self.connection.wants() else {
            return None;
        };
        if !self.connection.is_gone(&mut self.link) {
            return None;
        }
        self.is_left = true;
        Some(number)
    }

    // One step, at this moment. A head may be whole by it though the link has no more for now, so what is awaited is looked at in any case.
    fn step<R: Wait, C: Clock, B: Bell, M: Names>(
        &mut self,
        rt: &R,
        site: &Site<'_, C>,
        incoming: &Quota,
        tools: &mut Tools<B, M>,
        now: Moment,
    ) -> Moved
        requires pass { IsPassOf site.now.directory.now self.old.worker.purse.directory }
        requires held { IsServedBy self.old.worker.purse.sessions self.old.connection.standing.stage }
        ensures pass { IsPassOf site.now.directory.now self.new.worker.purse.directory }
        ensures held { IsServedBy self.new.worker.purse.sessions self.new.connection.standing.stage }
        ensures moves { Steps (setting site.now.hosts.now site.now.limits (C.moment site.now.clock.now))
            (outside self.old.connection.reader (L.left self.old.link) (L.given self.old.link) self.old.worker.trail self.old.worker.purse (L.faults self.old.link))
            (outside self.new.connection.reader (L.left self.new.link) (L.given self.new.link) self.new.worker.trail self.new.worker.purse (L.faults self.new.link))
            self.old.connection.standing self.new.connection.standing }
        ensures drawn { OpensAsDrawn (M.drawn tools.old.names) (M.drawn tools.new.names) (known self.old.worker.purse.directory) (known self.new.worker.purse.directory) }
        ensures faults { L.faults self.old.link ≤ L.faults self.new.link }
    {
        let moved = self
            .connection
            .step(rt, site, &mut self.worker, tools, &mut self.link);
        let connection = &self.connection;
        self.patience.note(
            connection.wants(),
            connection.awaits(),
            connection.place(),
            now,
        );
        self.count_coming(rt, incoming, moved)
    }

    // Takes room for the content that is coming in, and gives back what isn't needed any longer. Where there isn't so much the request is
    // given up, and the connection goes on, whether its link had something or not.
    fn count_coming<R: Wait>(&mut self, rt: &R, incoming: &Quota, moved: Moved) -> Moved
        ensures worker { self.new.worker ≡ self.old.worker }
        ensures link { self.new.link ≡ self.old.link }
        ensures reader { self.new.connection.reader ≡ self.old.connection.reader }
        ensures held { IsServedBy self.old.worker.purse.sessions self.old.connection.standing.stage → IsServedBy self.new.worker.purse.sessions self.new.connection.standing.stage }
        ensures moves { (site : Setting) → (now : Outside) → Steps site now now self.old.connection.standing self.new.connection.standing }
        ensures left { self.new.is_left ≡ self.old.is_left }
    {
        let wanted = content_awaited(self.connection.wants(), self.connection.awaits());
        if wanted == self.coming {
            return moved;
        }
        incoming.give_back(rt, self.coming);
        self.coming = 0;
        if incoming.take(rt, wanted) {
            self.coming = wanted;
            return moved;
        }
        self.connection.give_up();
        Moved::On
    }

    /// Makes steps, at most so many, until its link has nothing, nothing is there yet for a request that waits, or it is over. It says what the
    /// connection wants then, or `Nothing` where it made all these steps; that it has ended, where its peer left.
    pub(crate) fn go_on<R: Wait, C: Clock, B: Bell, M: Names>(
        &mut self,
        rt: &R,
        site: &Site<'_, C>,
        incoming: &Quota,
        tools: &mut Tools<B, M>,
        most: u32,
    ) -> Wants
        requires pass { IsPassOf site.now.directory.now self.old.worker.purse.directory }
        requires held { IsServedBy self.old.worker.purse.sessions self.old.connection.standing.stage }
        ensures pass { IsPassOf site.now.directory.now self.new.worker.purse.directory }
        ensures held { IsServedBy self.new.worker.purse.sessions self.new.connection.standing.stage }

        // What was read, asked, answered and given is what steps of this connection do, one after the other.
        ensures moves { Steps (setting site.now.hosts.now site.now.limits (C.moment site.now.clock.now))
            (outside self.old.connection.reader (L.left self.old.link) (L.given self.old.link) self.old.worker.trail self.old.worker.purse (L.faults self.old.link))
            (outside self.new.connection.reader (L.left self.new.link) (L.given self.new.link) self.new.worker.trail self.new.worker.purse (L.faults self.new.link))
            self.old.connection.standing self.new.connection.standing }

        // Each session that was opened has a name that was drawn for it.
        ensures drawn { OpensAsDrawn (M.drawn tools.old.names) (M.drawn tools.new.names) (known self.old.worker.purse.directory) (known self.new.worker.purse.directory) }
        ensures wants { (result ≡ Wants.Nothing) ⊎ (result ≡ wanted_by self.new.connection.standing.stage) ⊎ ((result ≡ Wants.End ConnectionEnd.Gone) × (self.old.is_left ≡ true)) }
        ensures faults { L.faults self.old.link ≤ L.faults self.new.link }
    {
        if self.is_left {
            return Wants::End(ConnectionEnd::Gone);
        }
        let now = site.clock.now();
        for _ in 0..most {
            if self.step(rt, site, incoming, tools, now) == Moved::NotYet {
                return self.connection.wants();
            }
            if rests(self.connection.wants()) {
                return self.connection.wants();
            }
        }
        Wants::Nothing
    }
}

// How many bytes the content has that a connection waits for.
fn content_awaited(wants: Wants, awaits: Awaited) -> u64
    ensures { result ≡ content_awaited wants awaits }
{
    match (wants, awaits) {
        (Wants::Bytes, Awaited::Content(length)) => length as u64,
        _ => 0,
    }
}

// Whether a connection that wants this has nothing to do meanwhile.
fn rests(wants: Wants) -> bool {
    match wants {
        Wants::Answer(_) | Wants::End(_) => true,
        Wants::Bytes | Wants::Nothing | Wants::Room => false,
    }
}
