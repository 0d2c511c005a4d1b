// Ports in memory, which tell their bytes and fail at listed calls.
ghost use Rattle.std.specs.Prelude.{◌≡◌, ℕ, ◌<◌, ◌≤◌, ◌↔◌, List, [], ◌++◌, Some, length, drop};
ghost use Rattle.bosh_ports.specs.Faults.{HasRisen};
ghost use Rattle.bosh_ports.specs.Memory.{Memory, IsNextToFail, counted_up};

use crate::sink::{Gave, Sink};
use crate::source::{Got, Source, copy_front};
use std::alloc::Global;
use std::marker::Model;

/// A source over bytes in memory. Its calls are counted from 1, and those whose numbers are listed fail.
#[derive(Debug, Drop)]
pub struct MemorySource {
    bytes: Vec<u8>,
    taken: usize,
    failing: Vec<u64>,
    calls: u64,
    faults: u64,
}

impl Model for MemorySource {
    ghost use Rattle.std.specs.Prelude.{◌≤◌, drop, vec_len};
    ghost use Rattle.bosh_ports.specs.Memory.{Memory};

    ghost Value = { Memory };

    ghost view = { λ s. record { bytes = drop s.taken s.bytes.items; failing = s.failing.items; calls = s.calls; faults = s.faults } };

    ghost invariant = { λ s. s.taken ≤ vec_len s.bytes };
}

impl MemorySource {
    pub fn new(bytes: Vec<u8>, failing: Vec<u64>) -> Self
        ensures bytes { result.bytes ≡ bytes.items }
        ensures failing { result.failing ≡ failing.items }
        ensures calls { result.calls ≡ 0 }
        ensures faults { result.faults ≡ 0 }
    {
        MemorySource {
            bytes,
            taken: 0,
            failing,
            calls: 0,
            faults: 0,
        }
    }
}

impl Source for MemorySource {
    ghost use Rattle.bosh_ports.specs.Source.{Takes, CountsTake};

    ghost left = { λ s. Some s.bytes };

    ghost faults = { λ s. s.faults };

    fn take(&mut self, into: &mut [u8]) -> Got
        requires { 0 < length into.old }
        ensures takes { Takes (Some self.old.bytes) (Some self.new.bytes) into.new result }
        ensures failed { result ≡ Got.Failed → HasRisen self.old.faults self.new.faults }
        ensures counts { CountsTake self.old.faults self.new.faults result }
        ensures faults { self.old.faults ≤ self.new.faults }

        // It fails at the listed calls and at no others.
        ensures listed { (result ≡ Got.Failed) ↔ (IsNextToFail self.old) }
        ensures calls { self.new.calls ≡ counted_up self.old.calls }
        ensures failing { self.new.failing ≡ self.old.failing }
    {
        self.calls = self.calls.saturating_add(1);
        if self.failing.contains(&self.calls) {
            self.faults = self.faults.saturating_add(1);
            return Got::Failed;
        }
        let n = copy_front(&self.bytes[self.taken..], into);
        if n == 0 {
            return Got::End;
        }
        self.taken += n;
        Got::Bytes(n)
    }
}

/// A sink that keeps what it is given. Its calls are counted from 1, and those whose numbers are listed fail; want of
/// memory is a fault too.
#[derive(Debug, Drop)]
pub struct MemorySink {
    bytes: Vec<u8>,
    failing: Vec<u64>,
    calls: u64,
    faults: u64,
}

impl Model for MemorySink {
    ghost use Rattle.bosh_ports.specs.Memory.{Memory};

    ghost Value = { Memory };

    ghost view = { λ s. record { bytes = s.bytes.items; failing = s.failing.items; calls = s.calls; faults = s.faults } };
}

impl MemorySink {
    pub fn new(alloc: Global, failing: Vec<u64>) -> Self
        ensures bytes { result.bytes ≡ [] }
        ensures failing { result.failing ≡ failing.items }
        ensures calls { result.calls ≡ 0 }
        ensures faults { result.faults ≡ 0 }
    {
        MemorySink {
            bytes: Vec::new(alloc),
            failing,
            calls: 0,
            faults: 0,
        }
    }

    /// What it was given so far.
    pub fn as_slice(&self) -> &[u8]
        ensures { result.now ≡ self.now.bytes }
    {
        self.bytes.as_slice()
    }
}

impl Sink for MemorySink {
    ghost use Rattle.bosh_ports.specs.Sink.{Gives, CountsGive};

    ghost given = { λ s. Some s.bytes };

    ghost faults = { λ s. s.faults };

    fn give(&mut self, bytes: &[u8]) -> Gave
        requires { 0 < length bytes.now }
        ensures gives { Gives (Some self.old.bytes) (Some self.new.bytes) bytes.now result }
        ensures failed { result ≡ Gave.Failed → HasRisen self.old.faults self.new.faults }
        ensures counts { CountsGive self.old.faults self.new.faults result }
        ensures faults { self.old.faults ≤ self.new.faults }

        // It fails at the listed calls, and at others for want of memory alone.
        ensures listed { IsNextToFail self.old → result ≡ Gave.Failed }
        ensures calls { self.new.calls ≡ counted_up self.old.calls }
        ensures failing { self.new.failing ≡ self.old.failing }
    {
        self.calls = self.calls.saturating_add(1);
        let is_listed = self.failing.contains(&self.calls);
        if is_listed || self.bytes.extend_from_slice(bytes).is_err() {
            self.faults = self.faults.saturating_add(1);
            return Gave::Failed;
        }
        Gave::Wrote(bytes.len())
    }
}
