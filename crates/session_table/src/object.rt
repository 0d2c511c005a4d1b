// A directory behind a gate: many threads open, find and remove sessions, and each is told what one thread would be told.
use crate::calls::{DirectoryCall, DirectoryReply, LiveSessions, Question};
use crate::directory::Directory;
use crate::entry::Entry;
use parked_gate::Object;
use std::alloc::AllocError;
use std::convert::Infallible;

/// A call and a question may find no memory. Nothing is waited for.
impl Object for Directory {
    ghost use Rattle.session_table.specs.Replies.{Answers, IsCallable, RepliesTo};
    ghost use Rattle.session_table.specs.History.{IsLegal};

    type Call = DirectoryCall;

    type Reply = Result<DirectoryReply, AllocError>;

    type Ask = ();

    type Found = Infallible;

    type Question = Question;

    type Answer = Result<LiveSessions, AllocError>;

    type Entry = Entry;

    ghost history = { λ directory. directory };

    ghost caller_of = { λ e. e.caller };

    ghost is_legal = { IsLegal };

    ghost may = { IsCallable };

    ghost replies = { RepliesTo };

    ghost lacks = { λ _ _. Unit {0} };

    ghost finds = { λ _ _ _ _. ⊥ };

    ghost answers = { Answers };

    fn step(&mut self, caller: u32, call: DirectoryCall) -> Result<DirectoryReply, AllocError> {
        match call {
            DirectoryCall::Open(opening) => self.open(caller, &opening),
            DirectoryCall::Find { sid } => {
                let found = self.find(sid.as_slice())?;
                match found {
                    Some(session) => Ok(DirectoryReply::Found(session)),
                    None => Ok(DirectoryReply::Unknown),
                }
            }
            DirectoryCall::Remove { sid } => {
                let removed = self.remove(caller, sid.as_slice())?;
                if removed {
                    Ok(DirectoryReply::Removed)
                } else {
                    Ok(DirectoryReply::Unknown)
                }
            }
        }
    }

    fn poll(&mut self, _caller: u32, _ask: ()) -> Option<Infallible> {
        None
    }

    fn look(&self, question: &Question) -> Result<LiveSessions, AllocError> {
        match question {
            Question::Live => self.live(),
        }
    }

    fn count(&self) -> u64 {
        Directory::count(self)
    }
}
