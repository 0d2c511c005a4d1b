// What a loop steps.
use bosh_ports::BellKey;
use bosh_types::Moment;
use std::sync::Wait;

/// What a seat wants when it has made its steps.
#[derive(Clone, Copy, Debug, PartialEq, Eq)]
pub enum Wanted {
    /// Bytes of its link, or room there: its link has neither now.
    Link,
    /// To go on: it has made as many steps as it may make in one go.
    Turn,
    /// What a ring with this key tells of. It has looked for it, and there is nothing yet.
    Ring(BellKey),
    /// Nothing more: it has ended.
    End,
}

/// A connection with its link and all else that is its own, stepped with what its thread has for all its seats, the tools. It never waits.
pub trait Seat<T>: Sized {
    /// What comes to a loop.
    type Link;

    /// Whether there is room for one seat more.
    fn has_room<R: Wait>(rt: &R, tools: &T) -> bool;

    /// A seat for a link on which nothing came yet. None where there is no room or no memory for it: the link is closed then.
    fn seated<R: Wait>(rt: &R, tools: &mut T, link: Self::Link) -> Option<Self>;

    fn link(&self) -> &Self::Link;

    /// The moment by the clock of the tools.
    fn now(tools: &T) -> Moment;

    /// The moment from which on its link is waited for no longer. It is asked for where it waits for that.
    fn due(&self) -> Moment;

    /// Since when it waits for the first byte of its next request, where it does: it may be ended for another then.
    fn idle_since(&self) -> Option<Moment>;

    /// Whether its peer has left while it waits for a ring: then it has ended, and this is the ring's key.
    fn has_left(&mut self) -> Option<BellKey>;

    /// Makes steps, at most so many, until it wants something.
    fn go_on<R: Wait>(&mut self, rt: &R, tools: &mut T, most: u32) -> Wanted;

    /// It has ended, or is to end: its link is closed.
    fn leave<R: Wait>(self, rt: &R, tools: &mut T);
}
