// A link over a TCP connection.
ghost use Rattle.std.specs.Prelude.{None};

use crate::stream_link::{HangUp, StreamLink};
use std::io;
use std::net::{Shutdown, TcpStream};

impl HangUp for TcpStream {
    ghost hung = { λ _. None };

    /// A connection that the peer ended first has nothing to be told, so an error here is no fault.
    fn hang_up(&mut self) {
        let _ = self.shutdown(Shutdown::Both);
    }
}

/// A link over a TCP connection.
pub type TcpLink = StreamLink<TcpStream, TcpStream>;

/// Small pieces are sent at once where the system allows it; what is given comes in several. It fails where the system
/// has no second handle for the connection.
pub fn tcp_link(stream: TcpStream) -> io::Result<TcpLink> {
    let _ = stream.set_nodelay(true);
    let reader = stream.try_clone()?;
    Ok(StreamLink::new(reader, stream))
}
