// How long a connection waits for its peer.
ghost use Rattle.std.specs.Prelude.{◌≡◌, ◌+◌, ◌-◌, ◌^◌, min};
ghost use Rattle.bosh_server.specs.Patience.{limit_of};

use bosh_types::Moment;
use serve_loop::{Awaited, Wants};

/// What a connection waits for of its peer.
#[derive(Clone, Copy, Debug, PartialEq, Eq)]
pub(crate) enum Awaiting {
    /// The first byte of one more request.
    Request,
    /// The rest of a head, or the head of the first request.
    Head,
    /// The rest of a content of so many bytes.
    Content(usize),
    /// Room for the answer, of which so many bytes were given.
    Room(u128),
    /// Nothing: it goes on by itself, or waits for its session.
    Nothing,
}

/// How long this is waited for, in milliseconds: 15 seconds for a request, 30 for a head, 30 and one more for each 16,384 bytes for a content, and
/// 30 for a peer to take some of its answer.
fn limit_of(awaiting: Awaiting) -> u64
    ensures { result ≡ limit_of awaiting }
{
    match awaiting {
        Awaiting::Request => 15_000,
        Awaiting::Content(length) => 30_000 + (length / 16_384) as u64 * 1000,
        Awaiting::Head | Awaiting::Room(_) | Awaiting::Nothing => 30_000,
    }
}

/// What a connection waits for of its peer, and since when.
#[derive(Clone, Copy, Debug)]
pub(crate) struct Patience {
    awaiting: Awaiting,
    since: Moment,
    // No request was read yet.
    is_first: bool,
    // How many requests were read that weren't taken up yet.
    requests: u64,
}

impl Patience {
    /// A connection was opened: the head of its first request is waited for.
    pub(crate) fn new(now: Moment) -> Patience {
        Patience {
            awaiting: Awaiting::Head,
            since: now,
            is_first: true,
            requests: 0,
        }
    }

    /// Since when it is waited for.
    pub(crate) fn since(&self) -> Moment
        ensures { result ≡ self.now.since }
    {
        self.since
    }

    /// From when on it is waited for no longer.
    pub(crate) fn due(&self) -> Moment
        ensures { result ≡ min (self.now.since + limit_of self.now.awaiting) (2 ^ 64 - 1) }
    {
        let limit = limit_of(self.awaiting);
        Moment::from_millis(self.since.millis().saturating_add(limit))
    }

    /// After a step the connection wants this; where it wants bytes it awaits that, and where it wants room it has given so many bytes.
    pub(crate) fn note(&mut self, wants: Wants, awaited: Awaited, place: u128, now: Moment) {
        let awaiting = self.awaiting_by(wants, awaited, place);
        if self.is_reading() && has_come(wants) {
            self.requests = self.requests.saturating_add(1);
        }
        if awaiting == Awaiting::Nothing {
            self.is_first = false;
        }
        if awaiting != self.awaiting {
            self.awaiting = awaiting;
            self.since = now;
        }
    }

    /// How many requests came since that was asked for last.
    pub(crate) fn take_requests(&mut self) -> u64
        ensures taken { result ≡ self.old.requests }
        ensures none { self.new ≡ record self.old { requests = 0 } }
    {
        let requests = self.requests;
        self.requests = 0;
        requests
    }

    // Whether some of a request is waited for.
    fn is_reading(&self) -> bool {
        match self.awaiting {
            Awaiting::Request | Awaiting::Head | Awaiting::Content(_) => true,
            Awaiting::Room(_) | Awaiting::Nothing => false,
        }
    }

    fn awaiting_by(&self, wants: Wants, awaited: Awaited, place: u128) -> Awaiting {
        match wants {
            Wants::Bytes => match awaited {
                Awaited::Message if self.is_first => Awaiting::Head,
                Awaited::Message => Awaiting::Request,
                Awaited::Head => Awaiting::Head,
                Awaited::Content(length) => Awaiting::Content(length),
            },
            Wants::Room => Awaiting::Room(place),
            Wants::Answer(_) | Wants::End(_) | Wants::Nothing => Awaiting::Nothing,
        }
    }
}

// Whether a connection that wants this has read a request, where it was reading one.
fn has_come(wants: Wants) -> bool {
    match wants {
        Wants::Nothing | Wants::Room | Wants::Answer(_) => true,
        Wants::Bytes | Wants::End(_) => false,
    }
}
