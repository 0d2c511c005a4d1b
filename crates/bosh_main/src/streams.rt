// Back ends over TCP, and the thread that wakes the pump for them.
use bosh_ports::RealBell;
use mio::Waker;
use server_ports::RealClock;
use std::alloc::{AllocError, Global};
use std::net::{Net, TcpListener, TcpStream};
use std::rt::Clock;
use std::sync::Wait;
use std::thread;
use std::thread::{JoinHandle, Threads};
use stream_backend::StreamBackend;
use stream_net::{Desks, OpenNetwork, ReadyWatch};

/// A back end over TCP, with the real network and clock.
pub type StreamEnd<R> = StreamBackend<OpenNetwork<R>, ReadyWatch<R>, RealClock<R>>;

/// One that has its streams with who listens at this port. Where the system has no descriptor for its watch there is as good as no memory.
pub fn stream_end<R>(
    rt: &R,
    alloc: Global,
    port: u16,
    desks: &mut Desks,
) -> Result<StreamEnd<R>, AllocError>
where
    R: Wait
        + Clock
        + Net<Listener = TcpListener, Stream = TcpStream>
        + Copy
        + Send
        + Drop
        + 'static,
{
    let Ok(watch) = desks.watch(*rt) else {
        return Err(AllocError);
    };
    let network = OpenNetwork::new(*rt);
    Ok(StreamBackend::new(alloc, network, port, watch, RealClock::new(*rt)))
}

/// The thread that waits for news of the links of back ends.
#[derive(Drop)]
pub struct Teller {
    thread: JoinHandle<Result<(), AllocError>>,
    stop: Waker,
}

/// Starts that thread. Where there is none to be had there is as good as no memory.
pub fn start_teller<R>(rt: &R, desks: Desks, bell: RealBell<R>) -> Result<Teller, AllocError>
where
    R: Wait + Threads + Clock + Copy + Send + Drop + 'static,
{
    let own = *rt;
    let mut bell = bell;
    let Ok(stop) = desks.stopper() else {
        return Err(AllocError);
    };
    match thread::spawn(rt, move || desks.tell_news(&own, &mut bell)) {
        Ok(thread) => Ok(Teller { thread, stop }),
        Err(_) => Err(AllocError),
    }
}

impl Teller {
    /// Ends it. Where it can't be woken it is left behind.
    pub fn end(self, rt: &impl Threads) {
        let Teller { thread, stop } = self;
        if stop.wake().is_ok() {
            let _ = thread.join(rt);
        }
    }
}
