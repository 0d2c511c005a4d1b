// A session behind a gate: many threads call it, and each is told what one thread would be told.
use crate::asking::{Answer, Found, Question};
use crate::call::{Call, Stepped};
use crate::entry::Entry;
use crate::recorded::Recorded;
use bosh_types::Ticket;
use parked_gate::Object;
use session_core::Collected;
use std::alloc::AllocError;

/// A call may find no memory, and so may the question of the host, and no other.
impl Object for Recorded {
    ghost use Rattle.session_core.specs.Journal.{IsAllowed};
    ghost use Rattle.session_journal.specs.Calls.{call_in};
    ghost use Rattle.session_journal.specs.Seen.{Answers, Finds, Lacks, StepsTo};
    ghost use Rattle.session_journal.specs.Stored.{IsLegal};

    type Call = Call;

    type Reply = Result<Stepped, AllocError>;

    type Ask = Ticket;

    type Found = Found;

    type Question = Question;

    type Answer = Result<Answer, AllocError>;

    type Entry = Entry;

    ghost history = { λ recorded. recorded.log };

    ghost caller_of = { λ e. e.caller };

    ghost is_legal = { IsLegal };

    ghost may = { λ call. IsAllowed (call_in call) };

    ghost replies = { StepsTo };

    ghost lacks = { Lacks };

    ghost finds = { Finds };

    ghost answers = { Answers };

    fn step(&mut self, caller: u32, call: Call) -> Result<Stepped, AllocError> {
        Recorded::step(self, caller, call)
    }

    fn poll(&mut self, caller: u32, ticket: Ticket) -> Option<Found> {
        match Recorded::poll(self, caller, ticket) {
            Collected::Answer(text) => Some(Found::Answer(text)),
            Collected::NotYet => None,
            Collected::Superseded => Some(Found::Superseded),
            Collected::UnknownTicket => Some(Found::UnknownTicket),
        }
    }

    fn look(&self, question: &Question) -> Result<Answer, AllocError> {
        match question {
            Question::Load => Ok(Answer::Load {
                waiting: self.waiting(),
                ending: self.ending(),
            }),
            Question::Home => {
                let host = self.host()?;
                Ok(Answer::Home(host))
            }
            Question::State => Ok(Answer::State(self.state())),
        }
    }

    fn count(&self) -> u64 {
        Recorded::count(self)
    }
}
