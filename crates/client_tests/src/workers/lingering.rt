// What comes after the end of the input is written before the session has ended.
ghost use Rattle.std.specs.Prelude.{◌≡◌, None};
ghost use Rattle.parked_gate.specs.Passes.{IsPassOf};

use crate::workers::{ENDED, GREETED, object};
use bosh_ports::{Gave, Got, Link, MemorySource, QuietSource, RealBell, Sink, Source};
use bosh_types::Moment;
use client_run::{ClientObject, ClientRan, Outside, Place, run_client};
use parked_gate::{Gate, Pass};
use server_ports::{Accepted, Dialled, Network, Opened, Shared, StillClock, ThreadSpawner};
use std::alloc::Global;
use std::rt::Clock;
use std::sync::{Arc, Mutex, Wait};
use std::test::Fail;
use std::thread::{Threads, sleep};
use std::time::Duration;

/// What was asked, written and waited for, for all to see.
#[derive(Drop)]
struct Seen {
    requests: u32,
    written: usize,
    is_late: bool,
}

/// A sink that counts what it is given.
#[derive(Drop)]
struct CountingSink<R: Wait + Copy + Drop> {
    rt: R,
    seen: Arc<Mutex<Seen>>,
}

impl<R: Wait + Copy + Drop> Sink for CountingSink<R> {
    ghost given = { λ _. None };

    ghost faults = { λ _. 0 };

    fn give(&mut self, bytes: &[u8]) -> Gave {
        let mut seen = self.seen.lock(&self.rt);
        seen.written = seen.written.saturating_add(bytes.len());
        Gave::Wrote(bytes.len())
    }
}

/// A link over which the first request is answered with a stanza. The answer to the second ends the session, and comes only once
/// that stanza was written, or is late.
#[derive(Drop)]
struct HeldLink<R: Wait + Clock + Copy + Drop> {
    rt: R,
    alloc: Global,
    seen: Arc<Mutex<Seen>>,
    is_asked: bool,
    answer: QuietSource,
}

/// How many milliseconds an answer is held, at most.
const PATIENCE: u32 = 10_000;

impl<R: Wait + Clock + Copy + Drop> HeldLink<R> {
    // The answer to what was asked, once it may come.
    fn answered(&self) -> &'static [u8] {
        let requests = {
            let mut seen = self.seen.lock(&self.rt);
            seen.requests = seen.requests.saturating_add(1);
            seen.requests
        };
        if requests == 1 {
            return GREETED;
        }
        for _ in 0..PATIENCE {
            if self.seen.lock(&self.rt).written > 0 {
                return ENDED;
            }
            sleep(&self.rt, Duration::from_millis(1));
        }
        self.seen.lock(&self.rt).is_late = true;
        ENDED
    }
}

impl<R: Wait + Clock + Copy + Drop> Link for HeldLink<R> {
    ghost left = { λ _. None };

    ghost given = { λ _. None };

    ghost closed = { λ _. None };

    ghost faults = { λ _. 0 };

    fn take(&mut self, into: &mut [u8]) -> Got {
        if self.is_asked {
            self.is_asked = false;
            let Ok(answer) = Vec::from_slice(self.alloc, self.answered()) else {
                return Got::End;
            };
            self.answer = QuietSource::new(answer);
        }
        match self.answer.take(into) {
            Got::Bytes(n) => Got::Bytes(n),
            Got::End => Got::End,
            Got::Failed => Got::End,
        }
    }

    fn give(&mut self, bytes: &[u8]) -> Gave {
        self.is_asked = true;
        Gave::Wrote(bytes.len())
    }

    fn close(&mut self) {}
}

/// A network of such links.
#[derive(Drop)]
struct HeldNetwork<R: Wait + Clock + Copy + Drop> {
    rt: R,
    alloc: Global,
    seen: Arc<Mutex<Seen>>,
    faults: u64,
    dialled: u64,
}

impl<R: Wait + Clock + Copy + Drop> HeldNetwork<R> {
    fn new(rt: R, alloc: Global, seen: Arc<Mutex<Seen>>) -> HeldNetwork<R>
        ensures faults { result.faults ≡ 0 }
        ensures dialled { result.dialled ≡ 0 }
    {
        HeldNetwork {
            rt,
            alloc,
            seen,
            faults: 0,
            dialled: 0,
        }
    }
}

impl<R: Wait + Clock + Copy + Drop> Network for HeldNetwork<R> {
    ghost use Rattle.std.specs.Prelude.{Option, List, ⊤};
    ghost use Rattle.server_ports.specs.Counts.{Counts, HasFailed, RisesWith, added, no_counts};
    ghost use Rattle.server_ports.specs.Events.{Event, Begins, Retires, Joins, IsWithout, IsUngiven};
    ghost use Rattle.server_ports.specs.Network.{ListenCounts, MatchShared, MatchAccepted, AcceptCounts, MatchDialled, DialCounts};

    type Link = HeldLink<R>;

    ghost counts = { λ n. record { faults = n.faults; accepted = 0; dialled = n.dialled; stops = 0 } };

    ghost events = { λ _. None };

    fn listen(&mut self, _port: u16) -> Opened {
        self.faults = self.faults.saturating_add(1);
        Opened::Failed
    }

    fn share(&mut self) -> Shared<HeldNetwork<R>> {
        match Arc::try_clone(&self.seen) {
            Ok(seen) => Shared::Net(HeldNetwork::new(self.rt, self.alloc, seen)),
            Err(_) => {
                self.faults = self.faults.saturating_add(1);
                Shared::Failed
            }
        }
    }

    fn accept(&mut self) -> Accepted<HeldLink<R>> {
        self.faults = self.faults.saturating_add(1);
        Accepted::Failed
    }

    fn dial(&mut self, _port: u16) -> Dialled<HeldLink<R>> {
        let Ok(seen) = Arc::try_clone(&self.seen) else {
            self.faults = self.faults.saturating_add(1);
            return Dialled::Failed;
        };
        self.dialled = self.dialled.saturating_add(1);
        Dialled::Link(HeldLink {
            rt: self.rt,
            alloc: self.alloc,
            seen,
            is_asked: false,
            answer: QuietSource::new(Vec::new(self.alloc)),
        })
    }

    fn retire(&mut self, link: HeldLink<R>) {
        drop(link);
    }

    fn back(&mut self, share: HeldNetwork<R>) {
        if share.faults > 0 {
            self.faults = self.faults.saturating_add(1);
        }
        self.dialled = self.dialled.saturating_add(share.dialled);
    }
}

/// How a client runs without any input over such a network, and whether the stanza was late.
fn lingers<R: Wait + Threads + Clock + Copy + Send + Drop + 'static>(
    rt: &R,
    alloc: Global,
    gate: Gate<ClientObject>,
    pass: Pass<ClientObject>,
) -> Result<(ClientRan, bool), Fail>
    requires { IsPassOf gate pass }
{
    let mut pass = pass;
    let Ok(gate) = Arc::new(alloc, gate) else {
        return Err("no memory".into());
    };
    let seen = Mutex::new(Seen {
        requests: 0,
        written: 0,
        is_late: false,
    });
    let Ok(seen) = Arc::new(alloc, seen) else {
        return Err("no memory".into());
    };
    let mut source = MemorySource::new(Vec::new(alloc), Vec::new(alloc));
    let mut sink = CountingSink {
        rt: *rt,
        seen: Arc::try_clone(&seen)?,
    };
    let mut outside = Outside {
        net: HeldNetwork::new(*rt, alloc, Arc::try_clone(&seen)?),
        clock: StillClock {
            moment: Moment::from_millis(0),
        },
        bell: RealBell::new(alloc, *rt)?,
        spawner: ThreadSpawner::new(alloc),
    };
    let place = Place {
        alloc,
        gate: &gate,
        port: 5280,
    };
    let ran = run_client(rt, &place, &mut pass, &mut source, &mut sink, &mut outside);
    let Outside {
        net: _net,
        clock: _clock,
        bell: _bell,
        spawner,
    } = outside;
    spawner.join_all(rt);
    let is_late = seen.lock(rt).is_late;
    Ok((ran?, is_late))
}

#[test]
fn what_comes_after_the_input_is_written_at_once(rt: HostRuntime) -> Result<(), Fail> {
    let alloc = rt.alloc();
    let Ok((gate, pass)) = Gate::new(alloc, object(alloc, 60)?) else {
        return Err("no memory".into());
    };
    assert!(rt; lingers(&rt, alloc, gate, pass)? == (ClientRan::Done, false));
    Ok(())
}
