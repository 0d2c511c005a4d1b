// The network of connections that never wait, over 127.0.0.1 alone.
ghost use Rattle.std.specs.Prelude.{◌≡◌, None, IfOk};

use bosh_ports::Link;
use server_ports::{Accepted, Dialled, Network, Opened, Shared};
use std::io;
use std::net::{Ipv4Addr, Net, SocketAddr, TcpListener, TcpStream};
use std::time::Duration;
use xmpp_stream::{OpenLink, TcpOpenLink};

/// How long a dial may take, in milliseconds.
const PATIENCE: u64 = 200;

/// TCP over 127.0.0.1, whose connections never wait. It only dials, and tells nothing of what its links carried. A dial that takes
/// longer than 200 milliseconds fails.
#[derive(Drop)]
pub struct OpenNetwork<R: Net<Listener = TcpListener, Stream = TcpStream> + Copy + Drop> {
    rt: R,
    faults: u64,
    dialled: u64,
}

impl<R: Net<Listener = TcpListener, Stream = TcpStream> + Copy + Drop> OpenNetwork<R> {
    pub fn new(rt: R) -> OpenNetwork<R>
        ensures faults { result.faults ≡ 0 }
        ensures dialled { result.dialled ≡ 0 }
    {
        OpenNetwork {
            rt,
            faults: 0,
            dialled: 0,
        }
    }

    // A new connection to a port. Small pieces are sent at once.
    fn connect(&self, port: u16) -> io::Result<TcpOpenLink>
        ensures { IfOk result (λ link. link.faults ≡ 0) }
    {
        let address = SocketAddr::from((Ipv4Addr::LOCALHOST, port));
        let within = Duration::from_millis(PATIENCE);
        let stream = TcpStream::connect_timeout(&self.rt, &address, within)?;
        stream.set_nodelay(true)?;
        stream.set_nonblocking(true)?;
        let reader = stream.try_clone()?;
        Ok(OpenLink::new(reader, stream))
    }
}

impl<R: Net<Listener = TcpListener, Stream = TcpStream> + Copy + Drop> Network for OpenNetwork<R> {
    ghost use Rattle.server_ports.specs.Counts.{Counts, HasFailed, RisesWith, added, no_counts};
    ghost use Rattle.server_ports.specs.Events.{Event, Begins, Retires, Joins, IsWithout, IsUngiven};
    ghost use Rattle.server_ports.specs.Network.{ListenCounts, MatchShared, MatchAccepted, AcceptCounts, MatchDialled, DialCounts};

    type Link = TcpOpenLink;

    ghost counts = { λ n. record { faults = n.faults; accepted = 0; dialled = n.dialled; stops = 0 } };

    ghost events = { λ _. None };

    // It only dials.
    fn listen(&mut self, _port: u16) -> Opened {
        self.faults = self.faults.saturating_add(1);
        Opened::Failed
    }

    fn share(&mut self) -> Shared<OpenNetwork<R>> {
        Shared::Net(OpenNetwork::new(self.rt))
    }

    // It only dials.
    fn accept(&mut self) -> Accepted<TcpOpenLink> {
        self.faults = self.faults.saturating_add(1);
        Accepted::Failed
    }

    fn dial(&mut self, port: u16) -> Dialled<TcpOpenLink> {
        match self.connect(port) {
            Ok(link) => {
                self.dialled = self.dialled.saturating_add(1);
                Dialled::Link(link)
            }
            Err(_) => {
                self.faults = self.faults.saturating_add(1);
                Dialled::Failed
            }
        }
    }

    fn retire(&mut self, link: TcpOpenLink) {
        let mut link = link;
        if link.faults > 0 {
            self.faults = self.faults.saturating_add(1);
        }
        link.close();
    }

    fn back(&mut self, share: OpenNetwork<R>) {
        if share.faults > 0 {
            self.faults = self.faults.saturating_add(1);
        }
        self.dialled = self.dialled.saturating_add(share.dialled);
    }
}
