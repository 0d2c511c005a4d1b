// Calls of a back end by their kind and number.
ghost use Rattle.std.specs.Prelude.{◌≡◌};
ghost use Rattle.xmpp_backend.specs.Counts.{counted_on};

use crate::tally::counted_on;

/// A kind of call.
#[derive(Clone, Copy, Debug, PartialEq, Eq)]
pub enum BackendCall {
    Open,
    Pass,
    Poll,
    Close,
}

/// A call that is to fail: the one with this number among the calls of its kind, which are counted from 1.
#[derive(Clone, Copy, Debug, PartialEq, Eq)]
pub struct Failing {
    pub call: BackendCall,
    pub number: u64,
}

/// How many calls of each kind were made.
#[derive(Debug, Drop)]
pub struct Calls {
    opens: u64,
    passes: u64,
    polls: u64,
    closes: u64,
}

impl Calls {
    ghost use Rattle.xmpp_backend.specs.Script.{no_calls, number_of, with_call};

    pub(crate) fn new() -> Self
        ensures { result ≡ no_calls }
    {
        Calls {
            opens: 0,
            passes: 0,
            polls: 0,
            closes: 0,
        }
    }

    // Counts one more call of this kind, and gives its number.
    pub(crate) fn count(&mut self, call: BackendCall) -> u64
        ensures number { result ≡ number_of call self.new }
        ensures counted { self.new ≡ with_call call self.old }
    {
        match call {
            BackendCall::Open => {
                self.opens = counted_on(self.opens);
                self.opens
            }
            BackendCall::Pass => {
                self.passes = counted_on(self.passes);
                self.passes
            }
            BackendCall::Poll => {
                self.polls = counted_on(self.polls);
                self.polls
            }
            BackendCall::Close => {
                self.closes = counted_on(self.closes);
                self.closes
            }
        }
    }
}
