// Seats that wait for a number to rise, and count their steps.
use bosh_ports::BellKey;
use bosh_types::Moment;
use connection_loops::{CountedRouse, Door, Seat, Wanted};
use std::sync::atomic::{AtomicU64, Ordering};
use std::sync::{Arc, Wait};

/// How many milliseconds pass at a step.
const PASSES: u64 = 600;

/// What a seat is made of: whom it waits for, for how many rises, and how long for its link.
#[derive(Drop)]
pub struct Ticket {
    pub key: u64,
    pub rises: u64,
    pub due: u64,
    pub number: Arc<AtomicU64>,
    pub steps: Arc<AtomicU64>,
    pub ended: Arc<AtomicU64>,
    pub door: Arc<Door<CountedRouse>>,
}

/// A seat that waits for the number to rise so often, and then ends.
#[derive(Drop)]
pub struct Waiter {
    ticket: Ticket,
    seen: u64,
}

impl Seat<u64> for Waiter {
    type Link = Ticket;

    fn has_room<R: Wait>(_rt: &R, _tools: &u64) -> bool {
        true
    }

    fn seated<R: Wait>(_rt: &R, _tools: &mut u64, link: Ticket) -> Option<Waiter> {
        let seen = link.number.load(Ordering::SeqCst);
        Some(Waiter { ticket: link, seen })
    }

    fn link(&self) -> &Ticket {
        &self.ticket
    }

    // The tools are the moment.
    fn now(tools: &u64) -> Moment {
        Moment::from_millis(*tools)
    }

    fn due(&self) -> Moment {
        Moment::from_millis(self.ticket.due)
    }

    fn idle_since(&self) -> Option<Moment> {
        None
    }

    fn has_left(&mut self) -> Option<BellKey> {
        None
    }

    fn go_on<R: Wait>(&mut self, _rt: &R, tools: &mut u64, _most: u32) -> Wanted {
        *tools = tools.saturating_add(PASSES);
        self.ticket.steps.fetch_add(1, Ordering::SeqCst);
        let key = BellKey(self.ticket.key);
        self.ticket.door.tune(key);
        let number = self.ticket.number.load(Ordering::SeqCst);
        if number <= self.seen {
            return Wanted::Ring(key);
        }
        self.seen = number;
        self.ticket.rises = self.ticket.rises.saturating_sub(1);
        match self.ticket.rises {
            0 => Wanted::End,
            1 => Wanted::Link,
            _ => Wanted::Turn,
        }
    }

    fn leave<R: Wait>(self, _rt: &R, _tools: &mut u64) {
        self.ticket.ended.fetch_add(1, Ordering::SeqCst);
    }
}
