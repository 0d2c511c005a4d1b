// A TCP connection that never waits.
ghost use Rattle.std.specs.Prelude.{◌≡◌, ◌↔◌, ◌⊎◌, ◌≤◌, None, Some, true, IfOk};
ghost use Rattle.std.specs.Io.{ReadsAtMost, WritesAtMost};
ghost use Rattle.bosh_ports.specs.Faults.{HasRisen};

use bosh_ports::{Gave, Got, Link, Polled};
use std::alloc::{AllocError, Global};
use std::io;
use std::io::{ErrorKind, Read, Write};
use std::net::{Shutdown, TcpStream};
use std::os::fd::{AsRawFd, RawFd};
use std::sync::Arc;

/// A TCP connection that never waits, with one descriptor. It tells nothing of the bytes that it carries. Who takes or gives by `Link` and
/// wants an answer at once gets a fault where there is nothing now.
#[derive(Drop)]
pub struct FrontLink {
    stream: Arc<TcpStream>,
    is_closed: bool,
    pub(crate) faults: u64,
    waits: u64,
    leaves: u64,
}

// Whether an error means that there is nothing now.
fn is_nothing_now(kind: ErrorKind) -> bool
    ensures { (result ≡ true) ↔ ((kind ≡ ErrorKind.WouldBlock) ⊎ (kind ≡ ErrorKind.Interrupted)) }
{
    kind == ErrorKind::WouldBlock || kind == ErrorKind::Interrupted
}

impl FrontLink {
    /// A connection that was made is set so that it never waits and sends small pieces at once. Where the system can't, or memory is
    /// wanted, the connection is closed.
    pub fn open(alloc: Global, stream: TcpStream) -> io::Result<FrontLink>
        ensures faults { IfOk result (λ link. link.faults ≡ 0) }
        ensures waits { IfOk result (λ link. link.waits ≡ 0) }
        ensures leaves { IfOk result (λ link. link.leaves ≡ 0) }
    {
        stream.set_nodelay(true)?;
        stream.set_nonblocking(true)?;
        Ok(FrontLink {
            stream: Arc::new(alloc, stream)?,
            is_closed: false,
            faults: 0,
            waits: 0,
            leaves: 0,
        })
    }

    /// The connection itself, for another thread that shuts it down. The descriptor stays open until both have let it go.
    pub fn share(&self) -> Result<Arc<TcpStream>, AllocError> {
        Arc::try_clone(&self.stream)
    }

    /// Both directions end, for the peer too. What was given stays given.
    pub fn hang_up(&mut self)
        ensures closed { self.new.is_closed ≡ true }
        ensures faults { self.new.faults ≡ self.old.faults }
        ensures waits { self.new.waits ≡ self.old.waits }
        ensures leaves { self.new.leaves ≡ self.old.leaves }
    {
        self.is_closed = true;
        let _ = self.stream.shutdown(Shutdown::Both);
    }

    // One more fault.
    fn fault(&mut self)
        ensures risen { HasRisen self.old.faults self.new.faults }
        ensures never_falls { self.old.faults ≤ self.new.faults }
        ensures closed { self.new.is_closed ≡ self.old.is_closed }
        ensures waits { self.new.waits ≡ self.old.waits }
        ensures leaves { self.new.leaves ≡ self.old.leaves }
    {
        self.faults = self.faults.saturating_add(1);
    }

    // One more time at which there was nothing.
    fn wait(&mut self)
        ensures risen { HasRisen self.old.waits self.new.waits }
        ensures closed { self.new.is_closed ≡ self.old.is_closed }
        ensures faults { self.new.faults ≡ self.old.faults }
        ensures leaves { self.new.leaves ≡ self.old.leaves }
    {
        self.waits = self.waits.saturating_add(1);
    }
}

impl AsRawFd for FrontLink {
    ghost use Rattle.front_net.specs.Descriptors.{descriptor};

    ghost raw_fd = { λ l. Some (descriptor l) };

    fn as_raw_fd(&self) -> RawFd {
        self.stream.as_raw_fd()
    }
}

impl Link for FrontLink {
    ghost left = { λ _. None };

    ghost given = { λ _. None };

    ghost closed = { λ l. Some l.is_closed };

    ghost faults = { λ l. l.faults };

    fn take(&mut self, into: &mut [u8]) -> Got {
        match read_some(&self.stream, into) {
            Ok(0) => Got::End,
            Ok(count) => Got::Bytes(count),
            Err(_) => {
                self.fault();
                Got::Failed
            }
        }
    }

    fn give(&mut self, bytes: &[u8]) -> Gave {
        match write_some(&self.stream, bytes) {
            Ok(count) if count > 0 => Gave::Wrote(count),
            _ => {
                self.fault();
                Gave::Failed
            }
        }
    }

    fn close(&mut self) {
        self.hang_up();
    }
}

impl Polled for FrontLink {
    ghost left = { λ _. None };

    ghost given = { λ _. None };

    ghost closed = { λ l. Some l.is_closed };

    ghost faults = { λ l. l.faults };

    ghost waits = { λ l. l.waits };

    ghost leaves = { λ l. l.leaves };

    fn poll_take(&mut self, into: &mut [u8]) -> Option<Got> {
        match read_some(&self.stream, into) {
            Ok(0) => Some(Got::End),
            Ok(count) => Some(Got::Bytes(count)),
            Err(error) if is_nothing_now(error.kind()) => {
                self.wait();
                None
            }
            Err(_) => {
                self.fault();
                Some(Got::Failed)
            }
        }
    }

    fn poll_give(&mut self, bytes: &[u8]) -> Option<Gave> {
        match write_some(&self.stream, bytes) {
            Ok(count) if count > 0 => Some(Gave::Wrote(count)),
            Err(error) if is_nothing_now(error.kind()) => {
                self.wait();
                None
            }
            _ => {
                self.fault();
                Some(Gave::Failed)
            }
        }
    }

    fn has_left(&mut self) -> bool {
        if !is_left(&self.stream) {
            return false;
        }
        self.leaves = self.leaves.saturating_add(1);
        true
    }

    fn close(&mut self) {
        self.hang_up();
    }
}

// What came on a connection, at most as much as there is room for.
fn read_some(stream: &TcpStream, into: &mut [u8]) -> io::Result<usize>
    ensures { ReadsAtMost result into.new }
{
    let mut stream = stream;
    stream.read(into)
}

// Some of the bytes, from the front.
fn write_some(stream: &TcpStream, bytes: &[u8]) -> io::Result<usize>
    ensures { WritesAtMost result bytes.now }
{
    let mut stream = stream;
    stream.write(bytes)
}

// Whether nothing more comes: the peer has closed or reset the connection, and all that it sent before was taken. It takes no bytes.
fn is_left(stream: &TcpStream) -> bool {
    let mut next = [0];
    match stream.peek(&mut next) {
        Ok(count) => count == 0,
        Err(error) => !is_nothing_now(error.kind()),
    }
}
