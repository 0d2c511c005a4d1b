// The network of real connections, over 127.0.0.1 alone.
ghost use Rattle.std.specs.Prelude.{◌≡◌, None, IfOk};

use crate::counting::{add, one_more_fault};
use crate::network::{Accepted, Dialled, Network, Opened, Shared};
use crate::timed_link::{Limits, TimedLink};
use bosh_ports::Link;
use std::io;
use std::net::{Ipv4Addr, Net, SocketAddr, TcpListener, TcpStream};
use std::time::Duration;

/// A connection with limits.
pub type NetLink = TimedLink<TcpStream, TcpStream>;

// How many connections that their makers ended at once are passed over before that counts as a fault.
const TRIES: u32 = 1000;

/// TCP over 127.0.0.1, which tells nothing of what its links carried. It is never stopped.
#[derive(Drop)]
pub struct TcpNetwork<R: Net<Listener = TcpListener, Stream = TcpStream> + Copy + Drop> {
    rt: R,
    listener: Option<TcpListener>,
    faults: u64,
    accepted: u64,
    dialled: u64,
    stops: u64,
}

/// A link over a connection, with Nagle's algorithm off, so that small pieces are sent at once.
pub fn timed(stream: TcpStream, limits: Limits) -> io::Result<NetLink>
    ensures { IfOk result (λ link. link.faults ≡ 0) }
{
    stream.set_nodelay(true)?;
    stream.set_write_timeout(Some(Duration::from_millis(limits.within)))?;
    let reader = stream.try_clone()?;
    Ok(TimedLink::new(reader, stream, limits))
}

// The next connection that lasts long enough to be set up.
fn next_link(listener: &TcpListener) -> io::Result<NetLink>
    ensures { IfOk result (λ link. link.faults ≡ 0) }
{
    for _ in 0..TRIES {
        match listener.accept() {
            Ok((stream, _)) => {
                if let Ok(link) = timed(stream, Limits::ACCEPTED) {
                    return Ok(link);
                }
            }
            Err(error) if error.kind() == io::ErrorKind::ConnectionAborted => {}
            Err(error) => return Err(error),
        }
    }
    Err(io::Error::from(io::ErrorKind::ConnectionAborted))
}

impl<R: Net<Listener = TcpListener, Stream = TcpStream> + Copy + Drop> TcpNetwork<R> {
    pub fn new(rt: R) -> TcpNetwork<R>
        ensures faults { result.faults ≡ 0 }
        ensures accepted { result.accepted ≡ 0 }
        ensures dialled { result.dialled ≡ 0 }
        ensures stops { result.stops ≡ 0 }
    {
        TcpNetwork {
            rt,
            listener: None,
            faults: 0,
            accepted: 0,
            dialled: 0,
            stops: 0,
        }
    }

    // A new connection to a port.
    fn connect(&self, port: u16) -> io::Result<NetLink>
        ensures { IfOk result (λ link. link.faults ≡ 0) }
    {
        let address = SocketAddr::from((Ipv4Addr::LOCALHOST, port));
        timed(TcpStream::connect(&self.rt, address)?, Limits::DIALLED)
    }
}

impl<R: Net<Listener = TcpListener, Stream = TcpStream> + Copy + Drop> Network for TcpNetwork<R> {
    ghost use Rattle.server_ports.specs.Counts.{Counts, HasFailed, RisesWith, added, no_counts};
    ghost use Rattle.server_ports.specs.Events.{Event, Begins, Retires, Joins, IsWithout, IsUngiven};
    ghost use Rattle.server_ports.specs.Network.{ListenCounts, MatchShared, MatchAccepted, AcceptCounts, MatchDialled, DialCounts};

    type Link = NetLink;

    ghost counts = { λ n. record { faults = n.faults; accepted = n.accepted; dialled = n.dialled; stops = n.stops } };

    ghost events = { λ _. None };

    fn listen(&mut self, port: u16) -> Opened {
        let address = SocketAddr::from((Ipv4Addr::LOCALHOST, port));
        match TcpListener::bind(&self.rt, address) {
            Ok(listener) => {
                self.listener = Some(listener);
                Opened::Ready
            }
            Err(_) => {
                self.faults = one_more_fault(self.faults);
                Opened::Failed
            }
        }
    }

    fn share(&mut self) -> Shared<TcpNetwork<R>> {
        Shared::Net(TcpNetwork::new(self.rt))
    }

    fn accept(&mut self) -> Accepted<NetLink> {
        let link = match &self.listener {
            Some(listener) => next_link(listener).ok(),
            None => None,
        };
        match link {
            Some(link) => {
                self.accepted = add(self.accepted, 1);
                Accepted::Link(link)
            }
            None => {
                self.faults = one_more_fault(self.faults);
                Accepted::Failed
            }
        }
    }

    fn dial(&mut self, port: u16) -> Dialled<NetLink> {
        match self.connect(port) {
            Ok(link) => {
                self.dialled = add(self.dialled, 1);
                Dialled::Link(link)
            }
            Err(_) => {
                self.faults = one_more_fault(self.faults);
                Dialled::Failed
            }
        }
    }

    fn retire(&mut self, link: NetLink) {
        let mut link = link;
        if link.faults > 0 {
            self.faults = one_more_fault(self.faults);
        }
        link.close();
    }

    fn back(&mut self, share: TcpNetwork<R>) {
        if share.faults > 0 {
            self.faults = one_more_fault(self.faults);
        }
        self.dialled = add(self.dialled, share.dialled);
    }
}
