// The real network, which stops where its stopper wants it.
ghost use Rattle.std.specs.Prelude.{◌≡◌, ◌≤◌, None};
ghost use Rattle.bosh_ports.specs.Faults.{HasRisen};

use crate::stoppable_link::StoppableLink;
use crate::stopper::Stopper;
use bosh_ports::Link;
use front_net::{Attempt, FrontLink, FrontListener};
use server_ports::{Accepted, Dialled, Network, Opened, Shared};
use std::alloc::Global;
use std::io::Eprint;
use std::net::{Net, TcpListener, TcpStream};
use std::rt::Clock;
use std::sync::{Arc, Wait};

/// TCP over 127.0.0.1. Its accepting ends where the input has come to its end, or failed.
#[derive(Drop)]
pub struct StoppableNetwork<R>
where
    R: Wait + Clock + Eprint + Net<Listener = TcpListener, Stream = TcpStream> + Copy + Drop,
{
    rt: R,
    listener: FrontListener<R>,
    stopper: Arc<Stopper>,
    faults: u64,
    accepted: u64,
    stops: u64,
}

impl<R> StoppableNetwork<R>
where
    R: Wait + Clock + Eprint + Net<Listener = TcpListener, Stream = TcpStream> + Copy + Drop,
{
    pub fn new(rt: R, alloc: Global, stopper: Arc<Stopper>) -> StoppableNetwork<R> {
        StoppableNetwork {
            rt,
            listener: FrontListener::new(rt, alloc),
            stopper,
            faults: 0,
            accepted: 0,
            stops: 0,
        }
    }

    fn failed(&mut self) -> Accepted<StoppableLink<R>>
        ensures result { result ≡ Accepted.Failed }
        ensures risen { HasRisen self.old.faults self.new.faults }
        ensures never_falls { self.old.faults ≤ self.new.faults }
        ensures others { (self.new.accepted ≡ self.old.accepted) × (self.new.stops ≡ self.old.stops) }
    {
        self.faults = self.faults.saturating_add(1);
        Accepted::Failed
    }
}

/// What comes next.
#[derive(Drop)]
enum Next {
    Link(FrontLink),
    Stop,
    Failed,
}

// The next link that is wanted, if the listener gives one.
fn next_wanted<R>(rt: R, stopper: &Arc<Stopper>, listener: &mut FrontListener<R>) -> Next
where
    R: Wait + Clock + Eprint + Net<Listener = TcpListener, Stream = TcpStream> + Copy + Drop,
{
    for _ in rt.forever() {
        if stopper.is_wanted() {
            return Next::Stop;
        }
        let attempt = listener.attempt();
        if stopper.is_wanted() {
            return Next::Stop;
        }
        match attempt {
            Attempt::Link(link) => return Next::Link(link),
            Attempt::Gone => {}
            Attempt::Short => listener.rest(),
            Attempt::Failed => return Next::Failed,
        }
    }
    unreachable!()
}

impl<R> Network for StoppableNetwork<R>
where
    R: Wait + Clock + Eprint + Net<Listener = TcpListener, Stream = TcpStream> + Copy + Drop,
{
    ghost use Rattle.server_ports.specs.Counts.{Counts, HasFailed, RisesWith, added, no_counts};
    ghost use Rattle.server_ports.specs.Events.{Event, Begins, Retires, Joins, IsWithout, IsUngiven};
    ghost use Rattle.server_ports.specs.Network.{ListenCounts, MatchShared, MatchAccepted, AcceptCounts, MatchDialled, DialCounts};

    type Link = StoppableLink<R>;

    ghost counts = { λ n. record { faults = n.faults; accepted = n.accepted; dialled = 0; stops = n.stops } };

    ghost events = { λ _. None };

    fn listen(&mut self, port: u16) -> Opened {
        if self.listener.listen(port) {
            self.stopper.listens(&self.rt, port);
            return Opened::Ready;
        }
        self.faults = self.faults.saturating_add(1);
        Opened::Failed
    }

    // A server shares no end of it.
    fn share(&mut self) -> Shared<StoppableNetwork<R>> {
        self.faults = self.faults.saturating_add(1);
        Shared::Failed
    }

    fn accept(&mut self) -> Accepted<StoppableLink<R>> {
        let Ok(stopper) = Arc::try_clone(&self.stopper) else {
            return self.failed();
        };
        match next_wanted(self.rt, &self.stopper, &mut self.listener) {
            Next::Link(link) => {
                self.accepted = self.accepted.saturating_add(1);
                Accepted::Link(StoppableLink::new(self.rt, link, stopper))
            }
            Next::Stop => {
                self.stops = self.stops.saturating_add(1);
                self.stopper.stop(&self.rt);
                Accepted::Stopped
            }
            Next::Failed => self.failed(),
        }
    }

    // A server dials nobody.
    fn dial(&mut self, _port: u16) -> Dialled<StoppableLink<R>> {
        self.faults = self.faults.saturating_add(1);
        Dialled::Failed
    }

    fn retire(&mut self, link: StoppableLink<R>) {
        let mut link = link;
        if link.faults > 0 {
            self.faults = self.faults.saturating_add(1);
        }
        link.close();
    }

    fn back(&mut self, share: StoppableNetwork<R>) {
        if share.faults > 0 {
            self.faults = self.faults.saturating_add(1);
        }
    }
}
