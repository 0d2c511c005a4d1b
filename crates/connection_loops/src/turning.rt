// A loop: its turns, each of which steps those that may go on.
ghost use Rattle.std.specs.Prelude.{◌≡◌};
ghost use Rattle.connection_loops.specs.Idle.{longer_idle};

use crate::bits::bit_of;
use crate::chains::Chain;
use crate::door::Rouse;
use crate::inbox::Inbox;
use crate::poller::Poller;
use crate::seat::{Seat, Wanted};
use crate::slots::Slots;
use bosh_ports::BellKey;
use bosh_types::Moment;
use std::alloc::{AllocError, Global};
use std::sync::Wait;

/// How many steps a seat makes in one go, at most.
const STEPS: u32 = 64;

/// How long a loop waits where a number wasn't told for want of memory, in milliseconds.
const PAUSE: u64 = 100;

/// How often a loop looks for links that were waited for too long, where one is waited for, in milliseconds.
const SWEEP: u64 = 1000;

/// What a turn did.
#[derive(Clone, Copy, Debug, PartialEq, Eq)]
pub enum Turned {
    /// A next turn may do more.
    On,
    /// No more seats come, and none is here.
    Done,
}

/// The seats of one thread, and who tells it of their links.
#[derive(Drop)]
pub struct Loop<T: Drop, S: Seat<T> + Drop, P: Poller<S::Link> + Drop>
where
    S::Link: Drop,
{
    slots: Slots<S>,
    poller: P,
    tools: T,
    // Numbers of links on which something may have happened.
    news: Vec<usize>,
    // There was no memory for one.
    is_short: bool,
    // When it looks next for links that were waited for too long.
    sweep_at: Moment,
}

impl<T: Drop, S: Seat<T> + Drop, P: Poller<S::Link> + Drop> Loop<T, S, P>
where
    S::Link: Drop,
{
    /// No seat is here. The only error is want of memory.
    pub fn new(alloc: Global, poller: P, tools: T) -> Result<Loop<T, S, P>, AllocError> {
        Ok(Loop {
            slots: Slots::new(alloc)?,
            poller,
            tools,
            news: Vec::new(alloc),
            is_short: false,
            sweep_at: Moment::from_millis(0),
        })
    }

    /// What the thread had for its seats, when these have left.
    pub fn into_tools(self) -> T
        ensures { result ≡ self.tools }
    {
        let Loop {
            slots: _,
            poller: _,
            tools,
            news: _,
            is_short: _,
            sweep_at: _,
        } = self;
        tools
    }

    /// How many seats are here.
    pub fn len(&self) -> usize {
        self.slots.len()
    }

    /// Waits until somebody may go on, and steps those who may.
    pub fn turn<R: Wait, W: Rouse + Drop>(&mut self, rt: &R, inbox: &Inbox<S::Link, W>) -> Turned {
        self.wait(inbox);
        self.take_links(rt, inbox);
        self.step_rung(rt, inbox);
        let ready = self.slots.take_ready();
        self.step_chain(rt, ready);
        self.step_news(rt);
        self.sweep(rt);
        if self.slots.is_empty() && inbox.door.is_done() {
            return Turned::Done;
        }
        Turned::On
    }

    fn wait<W: Rouse + Drop>(&mut self, inbox: &Inbox<S::Link, W>) {
        let most = if self.slots.has_ready() || !inbox.door.lie_down() {
            Some(0)
        } else {
            self.until_sweep()
        };
        self.is_short = self.poller.wait(most, &mut self.news).is_err();
        inbox.door.get_up();
    }

    // How long it may wait at most, in milliseconds.
    fn until_sweep(&self) -> Option<u64> {
        if self.is_short {
            return Some(PAUSE);
        }
        if !self.slots.has_waiting() {
            return None;
        }
        let now = S::now(&self.tools);
        Some(self.sweep_at.millis().saturating_sub(now.millis()).max(1))
    }

    // Ends those who waited too long for their links, where it is time to look for them.
    fn sweep<R: Wait>(&mut self, rt: &R) {
        let now = S::now(&self.tools);
        if now < self.sweep_at {
            return;
        }
        self.sweep_at = Moment::from_millis(now.millis().saturating_add(SWEEP));
        for at in 0..self.slots.bound() {
            if self.is_late(at, now) {
                self.let_go(rt, at);
            }
        }
    }

    // Whether the seat with this number waits for its link, and waited too long.
    fn is_late(&self, at: usize, now: Moment) -> bool {
        match self.slots.seat(at) {
            Some(seat) => self.slots.is_at_link(at) && seat.due() <= now,
            None => false,
        }
    }

    // Takes the links that were left.
    fn take_links<R: Wait, W: Rouse + Drop>(&mut self, rt: &R, inbox: &Inbox<S::Link, W>) {
        for _ in 0..u16::MAX {
            match inbox.take(rt) {
                Some(link) => self.seat(rt, link),
                None => return,
            }
        }
    }

    fn seat<R: Wait>(&mut self, rt: &R, link: S::Link) {
        if !S::has_room(rt, &self.tools) {
            self.make_room(rt);
        }
        match S::seated(rt, &mut self.tools, link) {
            Some(seat) => self.enter(rt, seat),
            None => {}
        }
    }

    // Ends the seat that waits longest for its next request, where one does.
    fn make_room<R: Wait>(&mut self, rt: &R) {
        let mut longest = None;
        for at in 0..self.slots.bound() {
            longest = longer_idle(longest, at, self.idle_since(at));
        }
        if let Some(idle) = longest {
            self.let_go(rt, idle.at);
        }
    }

    fn idle_since(&self, at: usize) -> Option<Moment> {
        match self.slots.seat(at) {
            Some(seat) => seat.idle_since(),
            None => None,
        }
    }

    fn enter<R: Wait>(&mut self, rt: &R, seat: S) {
        match self.slots.enter(seat) {
            Ok(at) => {
                if self.watch(at) {
                    self.step(rt, at);
                } else {
                    self.let_go(rt, at);
                }
            }
            Err(seat) => seat.leave(rt, &mut self.tools),
        }
    }

    fn watch(&mut self, at: usize) -> bool {
        match self.slots.seat(at) {
            Some(seat) => self.poller.enter(seat.link(), at),
            None => false,
        }
    }

    fn let_go<R: Wait>(&mut self, rt: &R, at: usize) {
        if let Some(seat) = self.slots.remove(at) {
            seat.leave(rt, &mut self.tools);
        }
    }

    // Steps those who wait for a ring that came.
    fn step_rung<R: Wait, W: Rouse + Drop>(&mut self, rt: &R, inbox: &Inbox<S::Link, W>) {
        let mut from = 0;
        for _ in 0..=u16::MAX {
            let Some(bit) = inbox.door.take_rung(from) else {
                return;
            };
            let chain = self.slots.take_parked(bit);
            self.step_chain(rt, chain);
            if bit == u16::MAX {
                return;
            }
            from = bit.saturating_add(1);
        }
    }

    fn step_chain<R: Wait>(&mut self, rt: &R, chain: Chain) {
        let mut chain = chain;
        for _ in 0..self.slots.len() {
            match self.slots.take_first(chain) {
                Some((at, rest)) => {
                    self.step(rt, at);
                    chain = rest;
                }
                None => return,
            }
        }
    }

    // Steps those on whose links something may have happened. One that waits for a ring isn't stepped for that, but its peer may have left.
    fn step_news<R: Wait>(&mut self, rt: &R) {
        for i in 0..self.news.len() {
            if let Some(at) = self.news.get(i) {
                let at = *at;
                if self.slots.is_at_link(at) {
                    self.step(rt, at);
                } else {
                    self.look_for_peer(rt, at);
                }
            }
        }
        self.news.clear();
    }

    // Where the peer has left, all who wait for the same ring are stepped: it ends, and the others find nothing.
    fn look_for_peer<R: Wait>(&mut self, rt: &R, at: usize) {
        let Some(seat) = self.slots.seat_mut(at) else {
            return;
        };
        if let Some(key) = seat.has_left() {
            let chain = self.slots.take_parked(bit_of(key));
            self.step_chain(rt, chain);
        }
    }

    fn step<R: Wait>(&mut self, rt: &R, at: usize) {
        let Some(seat) = self.slots.seat_mut(at) else {
            return;
        };
        match seat.go_on(rt, &mut self.tools, STEPS) {
            Wanted::Link => {}
            Wanted::Turn => self.slots.make_ready(at),
            Wanted::Ring(key) => self.park(rt, at, key),
            Wanted::End => self.let_go(rt, at),
        }
    }

    // It waits for a ring, unless its peer has left: that may have been told before it began to wait.
    fn park<R: Wait>(&mut self, rt: &R, at: usize, key: BellKey) {
        let Some(seat) = self.slots.seat_mut(at) else {
            return;
        };
        match seat.has_left() {
            Some(_) => self.let_go(rt, at),
            None => self.slots.park(at, bit_of(key)),
        }
    }
}

// A seat that waits for its next request, and since when.
#[derive(Clone, Copy, Debug, PartialEq, Eq)]
struct Idle {
    at: usize,
    since: Moment,
}

// Which of both waits longer; the first where they wait as long.
fn longer_idle(longest: Option<Idle>, at: usize, since: Option<Moment>) -> Option<Idle>
    ensures { result ≡ longer_idle longest at since }
{
    let Some(since) = since else {
        return longest;
    };
    match longest {
        Some(idle) if idle.since <= since => Some(idle),
        _ => Some(Idle { at, since }),
    }
}
