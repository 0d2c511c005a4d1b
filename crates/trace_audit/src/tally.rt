// How many requests, items and stanzas the lines of a trace tell of.
ghost use Rattle.std.specs.Prelude.{◌≡◌, ◌<◌, ◌^◌, ◌-◌};
ghost use Rattle.trace_audit.specs.Tally.{no_lines, with_line, yes_of};

use crate::line::TraceLine;
use crate::outcome::Audited;

// So many lines of three kinds.
#[derive(Clone, Copy, Debug)]
pub(crate) struct Tally {
    pub(crate) requests: u64,
    pub(crate) passed: u64,
    pub(crate) got: u64,
}

impl Tally {
    pub(crate) fn new() -> Tally
        ensures { result ≡ no_lines }
    {
        Tally {
            requests: 0,
            passed: 0,
            got: 0,
        }
    }

    // With one line more.
    pub(crate) fn with(self, line: &TraceLine) -> Tally
        requires requests { self.requests < 2 ^ 64 - 1 }
        requires passed { self.passed < 2 ^ 64 - 1 }
        requires got { self.got < 2 ^ 64 - 1 }
        ensures { result ≡ with_line self line.now }
    {
        let Tally {
            requests,
            passed,
            got,
        } = self;
        match line {
            TraceLine::Sent(_) => Tally {
                requests: requests + 1,
                passed,
                got,
            },
            TraceLine::In(_) => Tally {
                requests,
                passed: passed + 1,
                got,
            },
            TraceLine::Got(_) => Tally {
                requests,
                passed,
                got: got + 1,
            },
            _ => self,
        }
    }

    // What is said of a trace of these lines that holds.
    pub(crate) fn yes(self) -> Audited
        ensures { result ≡ yes_of self }
    {
        Audited::Yes {
            requests: self.requests,
            passed: self.passed,
            got: self.got,
        }
    }
}
