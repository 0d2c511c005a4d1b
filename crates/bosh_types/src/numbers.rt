ghost use Rattle.std.specs.Prelude.{◌≡◌, ℕ, ◌+◌, ◌*◌, ◌<◌};
ghost use Rattle.std.specs.Option.{SomeIff};
ghost use Rattle.bosh_types.specs.Limits.{most_streams};

use crate::limits::MOST_STREAMS;
use std::marker::Model;

/// A point in time, in milliseconds.
#[derive(Clone, Copy, Debug, PartialEq, Eq, PartialOrd, Ord)]
pub struct Moment {
    millis: u64,
}

impl Model for Moment {
    ghost Value = { ℕ };

    ghost view = { λ m. m.millis };

    ghost inverse = { λ n. record { millis = n } };
}

impl Moment {
    pub fn from_millis(millis: u64) -> Self
        ensures { result ≡ millis }
    {
        Moment { millis }
    }

    pub fn millis(self) -> u64
        ensures { result ≡ self }
    {
        self.millis
    }
}

/// The number of a stream within its session, below 8; the unnamed one is 0.
#[derive(Clone, Copy, Debug, PartialEq, Eq, PartialOrd, Ord)]
pub struct StreamNo {
    number: u16,
}

impl Model for StreamNo {
    ghost Value = { ℕ };

    ghost view = { λ s. s.number };

    ghost invariant = { λ s. s.number < most_streams };

    ghost inverse = { λ n. record { number = n } };
}

impl StreamNo {
    /// `None` exactly at 8 and above.
    pub fn new(number: u16) -> Option<StreamNo>
        ensures { SomeIff result (number < most_streams) number }
    {
        if number >= MOST_STREAMS {
            return None;
        }
        Some(StreamNo { number })
    }

    /// The number of the stream that has no name.
    pub fn unnamed() -> Self
        ensures { result ≡ 0 }
    {
        StreamNo { number: 0 }
    }

    pub fn number(self) -> u16
        ensures value { result ≡ self }
        ensures in_range { self < most_streams }
    {
        self.number
    }
}

/// What a parked request is collected by; a session counts its tickets from 1.
#[derive(Clone, Copy, Debug, PartialEq, Eq, PartialOrd, Ord)]
pub struct Ticket {
    number: u32,
}

impl Model for Ticket {
    ghost Value = { ℕ };

    ghost view = { λ t. t.number };

    ghost inverse = { λ n. record { number = n } };
}

impl Ticket {
    pub fn new(number: u32) -> Self
        ensures { result ≡ number }
    {
        Ticket { number }
    }

    pub fn number(self) -> u32
        ensures { result ≡ self }
    {
        self.number
    }
}

/// One stream of one session, as a back end knows it. A session has at most eight streams.
#[derive(Clone, Copy, Debug, PartialEq, Eq, PartialOrd, Ord)]
pub struct Wire {
    number: u64,
}

impl Model for Wire {
    ghost Value = { ℕ };

    ghost view = { λ w. w.number };

    ghost inverse = { λ n. record { number = n } };
}

impl Wire {
    /// The wire of a stream in the session with this opening number.
    pub fn new(opening: u32, stream: StreamNo) -> Self
        ensures { result ≡ opening * most_streams + stream }
    {
        let number = u64::from(opening) * u64::from(MOST_STREAMS) + u64::from(stream.number());
        Wire { number }
    }

    pub fn number(self) -> u64
        ensures { result ≡ self }
    {
        self.number
    }
}
