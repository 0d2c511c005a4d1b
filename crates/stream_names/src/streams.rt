ghost use Rattle.std.specs.Prelude.{◌≡◌, ◌<◌, ◌≤◌};
ghost use Rattle.std.specs.Option.{SomeIff};
ghost use Rattle.bosh_types.specs.Limits.{most_streams};
ghost use Rattle.stream_names.specs.PlainStreams.{after_open, begun, shut_of, with_all_closed, with_closed};

use crate::set::StreamSet;
use bosh_types::StreamNo;
use bosh_types::limits::MOST_STREAMS;
use std::marker::Model;

/// The streams of one session: how many were opened, and which of them are open.
#[derive(Debug, Drop)]
pub struct Streams {
    opened: u16,
    running: StreamSet,
}

// Clauses see both.
impl Model for Streams {
    ghost use Rattle.stream_names.specs.PlainStreams.{PlainStreams, AreSound};

    ghost Value = { PlainStreams };

    ghost view = { λ s. record { opened = s.opened; running = s.running } };

    ghost invariant = { λ s. AreSound (record { opened = s.opened; running = s.running }) };
}

/// What closing a stream made of its session.
#[derive(Clone, Copy, Debug, PartialEq, Eq)]
pub enum Shut {
    /// The stream wasn't open, and nothing changed.
    Unknown,
    /// It is closed, and no other one is open.
    Last,
    /// It is closed, and others are open.
    Closed,
}

impl Streams {
    /// A session begins with stream 0, which is open.
    pub fn new() -> Self
        ensures { result ≡ begun }
    {
        Streams {
            opened: 1,
            running: StreamSet::only(StreamNo::unnamed()),
        }
    }

    /// How many were opened.
    pub fn opened(&self) -> u16
        ensures value { result ≡ self.now.opened }
        ensures few { result ≤ most_streams }
    {
        self.opened
    }

    /// Those that are open.
    pub fn running(&self) -> &StreamSet
        ensures { result.now ≡ self.now.running }
    {
        &self.running
    }

    /// The same streams.
    pub fn copied(&self) -> Self
        ensures { result ≡ self.now }
    {
        Streams {
            opened: self.opened,
            running: self.running.copied(),
        }
    }

    /// Opens the next one: `None` exactly where eight were opened, and then nothing changes.
    pub fn open(&mut self) -> Option<StreamNo>
        ensures next { SomeIff result (self.old.opened < most_streams) self.old.opened }
        ensures after { self.new ≡ after_open self.old }
    {
        let stream = StreamNo::new(self.opened)?;
        self.running.insert(stream);
        self.opened += 1;
        Some(stream)
    }

    /// Closes a stream.
    pub fn close(&mut self, stream: StreamNo) -> Shut
        ensures answer { result ≡ shut_of self.old stream }
        ensures after { self.new ≡ with_closed self.old stream }
        ensures unknown { result ≡ Shut.Unknown → self.new ≡ self.old }
    {
        if !self.running.contains(stream) {
            return Shut::Unknown;
        }
        self.running.remove(stream);
        if self.running.is_empty() {
            return Shut::Last;
        }
        Shut::Closed
    }

    /// Closes all of these that are open.
    pub fn close_all(&mut self, others: &StreamSet)
        ensures { self.new ≡ with_all_closed self.old others.now }
    {
        self.running.remove_all(others);
    }
}
