// The network of connections that never wait, over 127.0.0.1 alone.
ghost use Rattle.std.specs.Prelude.{◌≡◌, None, IfOk};

use crate::front_link::FrontLink;
use crate::front_listener::FrontListener;
use bosh_ports::Link;
use server_ports::{Accepted, Dialled, Network, Opened, Shared};
use std::alloc::Global;
use std::io;
use std::io::Eprint;
use std::net::{Ipv4Addr, Net, SocketAddr, TcpListener, TcpStream};
use std::rt::Clock;
use std::sync::Wait;

/// TCP over 127.0.0.1, whose connections never wait and have one descriptor each. It tells nothing of what its links carried, and is never
/// stopped.
#[derive(Drop)]
pub struct FrontNetwork<R>
where
    R: Wait + Clock + Eprint + Net<Listener = TcpListener, Stream = TcpStream> + Copy + Drop,
{
    rt: R,
    alloc: Global,
    listener: FrontListener<R>,
    faults: u64,
    accepted: u64,
    dialled: u64,
}

impl<R> FrontNetwork<R>
where
    R: Wait + Clock + Eprint + Net<Listener = TcpListener, Stream = TcpStream> + Copy + Drop,
{
    pub fn new(rt: R, alloc: Global) -> FrontNetwork<R>
        ensures faults { result.faults ≡ 0 }
        ensures accepted { result.accepted ≡ 0 }
        ensures dialled { result.dialled ≡ 0 }
    {
        FrontNetwork {
            rt,
            alloc,
            listener: FrontListener::new(rt, alloc),
            faults: 0,
            accepted: 0,
            dialled: 0,
        }
    }

    // A new connection to a port.
    fn connect(&self, port: u16) -> io::Result<FrontLink>
        ensures { IfOk result (λ link. link.faults ≡ 0) }
    {
        let address = SocketAddr::from((Ipv4Addr::LOCALHOST, port));
        let stream = TcpStream::connect(&self.rt, address)?;
        FrontLink::open(self.alloc, stream)
    }
}

impl<R> Network for FrontNetwork<R>
where
    R: Wait + Clock + Eprint + Net<Listener = TcpListener, Stream = TcpStream> + Copy + Drop,
{
    ghost use Rattle.server_ports.specs.Counts.{Counts, HasFailed, RisesWith, added, no_counts};
    ghost use Rattle.server_ports.specs.Events.{Event, Begins, Retires, Joins, IsWithout, IsUngiven};
    ghost use Rattle.server_ports.specs.Network.{ListenCounts, MatchShared, MatchAccepted, AcceptCounts, MatchDialled, DialCounts};

    type Link = FrontLink;

    ghost counts = { λ n. record { faults = n.faults; accepted = n.accepted; dialled = n.dialled; stops = 0 } };

    ghost events = { λ _. None };

    fn listen(&mut self, port: u16) -> Opened {
        if self.listener.listen(port) {
            return Opened::Ready;
        }
        self.faults = self.faults.saturating_add(1);
        Opened::Failed
    }

    fn share(&mut self) -> Shared<FrontNetwork<R>> {
        Shared::Net(FrontNetwork::new(self.rt, self.alloc))
    }

    fn accept(&mut self) -> Accepted<FrontLink> {
        match self.listener.next() {
            Some(link) => {
                self.accepted = self.accepted.saturating_add(1);
                Accepted::Link(link)
            }
            None => {
                self.faults = self.faults.saturating_add(1);
                Accepted::Failed
            }
        }
    }

    fn dial(&mut self, port: u16) -> Dialled<FrontLink> {
        match self.connect(port) {
            Ok(link) => {
                self.dialled = self.dialled.saturating_add(1);
                Dialled::Link(link)
            }
            Err(_) => {
                self.faults = self.faults.saturating_add(1);
                Dialled::Failed
            }
        }
    }

    fn retire(&mut self, link: FrontLink) {
        let mut link = link;
        if link.faults > 0 {
            self.faults = self.faults.saturating_add(1);
        }
        link.close();
    }

    fn back(&mut self, share: FrontNetwork<R>) {
        if share.faults > 0 {
            self.faults = self.faults.saturating_add(1);
        }
        self.dialled = self.dialled.saturating_add(share.dialled);
    }
}
