// The sides of a line: where the streams of a session stand.
ghost use Rattle.std.specs.Prelude.{◌≡◌, ◌≢◌, ◌*◌, ◌+◌, ◌∷◌, ◌++◌, ◌<◌, ℕ, [], IfNone, IfOk, IfSome, None, OnErr, OnOk, Some, false, length, slice_get, true};
ghost use Rattle.std.specs.List.{list_any};
ghost use Rattle.bosh_types.specs.Limits.{most_streams};
ghost use Rattle.session_pump.specs.Giving.{is_open_here, is_opened_on, owes_on};
ghost use Rattle.session_pump.specs.Sides.{is_met, line_facts};
ghost use Rattle.session_pump.specs.Turns.{first_stage};

use crate::line::{Line, Side, Stage};
use bosh_types::{StreamNo, Wire};
use std::alloc::{AllocError, Global};

impl Line {
    /// A line with the stream that each session begins with. The only error is want of memory.
    pub(crate) fn new(alloc: Global, host: Option<usize>, opening: u32) -> Result<Line, AllocError>
        ensures opening { IfOk result (λ line. line.opening ≡ opening) }
        ensures kept { IfOk result (λ line. line.kept ≡ None) }
        ensures side { IfOk result (λ line. line.sides.items ≡ (record { stream = 0; host = host; wire = opening * most_streams + 0; stage = first_stage host; owed = None }) ∷ []) }
    {
        let mut side = Side::new(StreamNo::unnamed(), host, opening);
        side.stage = first_stage(host);
        let mut sides = Vec::with_capacity(alloc, 1)?;
        sides.push(side)?;
        Ok(Line {
            opening,
            kept: None,
            sides,
        })
    }

    /// The place of the side of this stream.
    pub(crate) fn place_of(&self, stream: StreamNo) -> Option<usize>
        ensures within { IfSome result (λ place. place < length self.now.sides.items) }
        ensures of { IfSome result (λ place. (side : Side) × (slice_get self.now.sides.items place ≡ Some side) × (side.stream ≡ stream)) }
        ensures none { IfNone result (is_met stream self.now.sides.items ≡ false) }
    {
        let mut place = 0;
        for side in &self.sides {
            if side.stream == stream {
                return Some(place);
            }
            place += 1;
        }
        None
    }

    /// Adds a side for a stream that isn't opened yet. The only error is want of memory, and then the line is as before.
    pub(crate) fn add(&mut self, stream: StreamNo, host: Option<usize>) -> Result<(), AllocError>
        ensures added { OnOk result (line_facts self.new ≡ record (line_facts self.old) {
          sides = self.old.sides.items
              ++ (record { stream = stream; host = host; wire = self.old.opening * most_streams + stream; stage = Stage.Unopened; owed = None }) ∷ [];
        }) }
        ensures small { stream < most_streams }
        ensures err { OnErr result (line_facts self.new ≡ line_facts self.old) }
    {
        let _number = stream.number();
        let side = Side::new(stream, host, self.opening);
        self.sides.push(side)?;
        Ok(())
    }

    /// The place of the side of this stream, where that is at this host and its wire is open on the back end before which so many of the
    /// host failed.
    pub(crate) fn place_here(&self, stream: StreamNo, place: usize, failures: u64) -> Option<usize>
        ensures within { IfSome result (λ at. at < length self.now.sides.items) }
        ensures here { IfSome result (λ at. (side : Side) × (slice_get self.now.sides.items at ≡ Some side) × (is_open_here stream place failures side ≡ true)) }
        ensures none { IfNone result (list_any (is_open_here stream place failures) self.now.sides.items ≡ false) }
    {
        let mut at = 0;
        for side in &self.sides {
            if side.is_open_here(stream, place, failures) {
                return Some(at);
            }
            at += 1;
        }
        None
    }

    /// Whether something that was given on this stream waits with its side.
    pub(crate) fn owes_on(&self, stream: StreamNo) -> bool
        ensures { result ≡ list_any (owes_on stream) self.now.sides.items }
    {
        for side in &self.sides {
            if side.owes_on(stream) {
                return true;
            }
        }
        false
    }
}

// Where the stream stands that a session begins with.
fn first_stage(host: Option<usize>) -> Stage
    ensures { result ≡ first_stage host }
{
    match host {
        Some(_) => Stage::Unopened,
        None => Stage::Lost,
    }
}

fn is_opened_on(stage: Stage, failures: u64) -> bool
    ensures { result ≡ is_opened_on failures stage }
{
    match stage {
        Stage::Opened(on) => on == failures,
        Stage::Unopened => false,
        Stage::Lost => false,
    }
}

impl Side {
    fn new(stream: StreamNo, host: Option<usize>, opening: u32) -> Side
        ensures { result ≡ record { stream = stream; host = host; wire = opening * most_streams + stream; stage = Stage.Unopened; owed = None } }
    {
        Side {
            stream,
            host,
            wire: Wire::new(opening, stream),
            stage: Stage::Unopened,
            owed: None,
        }
    }

    fn owes_on(&self, stream: StreamNo) -> bool
        ensures { result ≡ owes_on stream self.now }
    {
        self.stream == stream && self.owed.is_some()
    }

    // Whether it is this stream, at this host, and its wire is open on the back end before which so many of the host failed.
    fn is_open_here(&self, stream: StreamNo, place: usize, failures: u64) -> bool
        ensures { result ≡ is_open_here stream place failures self.now }
    {
        if self.stream != stream {
            return false;
        }
        match self.host {
            Some(at) => at == place && is_opened_on(self.stage, failures),
            None => false,
        }
    }

    /// Whether the wire wasn't opened yet.
    pub(crate) fn is_unopened(&self) -> bool
        ensures unopened { result ≡ true → self.now.stage ≡ Stage.Unopened }
        ensures opened { result ≡ false → self.now.stage ≢ Stage.Unopened }
    {
        match self.stage {
            Stage::Unopened => true,
            Stage::Opened(_) => false,
            Stage::Lost => false,
        }
    }

    /// Whether the wire is no more, and the session knows.
    pub(crate) fn is_lost(&self) -> bool
        ensures { result ≡ true → self.now.stage ≡ Stage.Lost }
    {
        match self.stage {
            Stage::Lost => true,
            Stage::Unopened => false,
            Stage::Opened(_) => false,
        }
    }

    /// Whether the wire was opened on another back end, and its session wasn't told yet that that failed.
    pub(crate) fn is_cut_from(&self, failures: u64) -> bool
        ensures cut { result ≡ true → (on : ℕ) × (self.now.stage ≡ Stage.Opened on) × (on ≢ failures) }
        ensures uncut { result ≡ false → (on : ℕ) → self.now.stage ≡ Stage.Opened on → on ≡ failures }
    {
        match self.stage {
            Stage::Opened(on) => on != failures,
            Stage::Unopened => false,
            Stage::Lost => false,
        }
    }

    /// Whether the wire is open on the back end before which so many of the host failed.
    pub(crate) fn is_open_on(&self, failures: u64) -> bool
        ensures open { result ≡ true → self.now.stage ≡ Stage.Opened failures }
        ensures closed { result ≡ false → self.now.stage ≢ Stage.Opened failures }
    {
        match self.stage {
            Stage::Opened(on) => on == failures,
            Stage::Unopened => false,
            Stage::Lost => false,
        }
    }
}
