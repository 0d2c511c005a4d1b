// What the ending of a session gives to the requests that are open then (XEP-0124, sections 13 and 17).
ghost use Rattle.std.specs.Prelude.{◌≡◌, ℕ, ◌+◌, ◌<◌, ◌==◌, IfOk, None, Some, if◌then◌else◌};
ghost use Rattle.bosh_types.specs.Rid.{greatest_rid};
ghost use Rattle.body_writer.specs.Answer.{answer_text};
ghost use Rattle.session_core.specs.Endings.{error_text, nothing, terminal, word_at_closing, word_for, word_if_breaker};
ghost use Rattle.session_core.specs.Words.{IsAnswerable, parts_of};

use body_writer::{AnswerKind, AnswerParts, write_answer};
use bosh_types::{Closing, Condition, Ending, Rid, SharedText, Stanzas};
use std::alloc::{AllocError, Global};

/// What an open request is given at the ending.
#[derive(Clone, Copy, Debug, PartialEq, Eq)]
pub(crate) enum LastWord {
    /// A body that says nothing.
    Nothing,
    /// A terminal body, with its condition if there is one.
    Terminal(Option<Condition>),
}

/// What the ending gives to the request with one id, and to every other one that is open.
#[derive(Clone, Copy, Debug, PartialEq, Eq)]
pub(crate) struct LastWords {
    pub breaker: Rid,
    pub word: LastWord,
    pub other: LastWord,
}

impl LastWords {
    /// The words of this ending, where ids up to `answered` were answered.
    pub(crate) fn at(answered: Rid, ending: &Ending) -> Self
        ensures { IsAnswerable answered ending.now → (id : ℕ)
            → word_for answered ending.now id ≡ (if id == result.breaker then parts_of result.word else parts_of result.other) }
    {
        match ending {
            Ending::Terminated { rid } => LastWords::terminated(answered, *rid),
            Ending::Stale { rid, .. } => LastWords::all(*rid, other_request()),
            Ending::Above { rid, .. } => LastWords::all(*rid, other_request()),
            Ending::WrongKey { rid } => LastWords::breaker(*rid, Condition::ItemNotFound),
            Ending::UnknownStream { rid } => LastWords::breaker(*rid, Condition::ItemNotFound),
            Ending::PauseTooLong { rid, .. } => LastWords::breaker(
                *rid,
                Condition::PolicyViolation,
            ),
            Ending::Overactive { rid, .. } => LastWords::breaker(*rid, Condition::PolicyViolation),
            Ending::Silent { .. } => LastWords::all(
                answered,
                LastWord::Terminal(Some(Condition::ItemNotFound)),
            ),
            Ending::Closed { closing, rid } => LastWords::all(*rid, closing_word(*closing)),
            Ending::JournalFull { .. } => LastWords::all(answered, other_request()),
        }
    }

    // The oldest held request is told of a terminate, and no other.
    fn terminated(answered: Rid, rid: Rid) -> Self
        ensures { answered < greatest_rid → (id : ℕ)
            → (if id == answered + 1 then terminal None else nothing)
            ≡ (if id == result.breaker then parts_of result.word else parts_of result.other) }
    {
        let Some(oldest) = answered.next() else {
            return LastWords::all(rid, LastWord::Nothing);
        };
        LastWords {
            breaker: oldest,
            word: LastWord::Terminal(None),
            other: LastWord::Nothing,
        }
    }

    // The copy that broke the session is told why, and the others that another one did.
    fn breaker(rid: Rid, condition: Condition) -> Self
        ensures { (id : ℕ) → word_if_breaker rid id condition
            ≡ (if id == result.breaker then parts_of result.word else parts_of result.other) }
    {
        LastWords {
            breaker: rid,
            word: LastWord::Terminal(Some(condition)),
            other: other_request(),
        }
    }

    // All are told the same.
    fn all(breaker: Rid, word: LastWord) -> Self
        ensures { (id : ℕ) → parts_of word ≡ (if id == result.breaker then parts_of result.word else parts_of result.other) }
    {
        LastWords {
            breaker,
            word,
            other: word,
        }
    }
}

// Another request broke the session.
fn other_request() -> LastWord
    ensures { result ≡ LastWord.Terminal (Some Condition.OtherRequest) }
{
    LastWord::Terminal(Some(Condition::OtherRequest))
}

// What the open requests are told of a closing.
fn closing_word(closing: Closing) -> LastWord
    ensures { parts_of result ≡ word_at_closing closing }
{
    match closing {
        Closing::Plain => LastWord::Nothing,
        Closing::RemoteConnectionFailed => other_request(),
        Closing::RemoteStreamError => other_request(),
        Closing::SystemShutdown => other_request(),
    }
}

impl LastWord {
    /// Its body.
    pub(crate) fn text(self, alloc: Global) -> Result<SharedText, AllocError>
        ensures { IfOk result (λ text. text ≡ answer_text (parts_of self)) }
    {
        let (kind, condition) = match self {
            LastWord::Nothing => (AnswerKind::Usual, None),
            LastWord::Terminal(condition) => (AnswerKind::Terminate, condition),
        };
        let parts = AnswerParts {
            created: None,
            kind,
            condition,
            stream: None,
            ack: None,
            report: None,
            payloads: Stanzas::from_vec(Vec::new(alloc)),
        };
        SharedText::new(alloc, write_answer(alloc, &parts)?)
    }
}

/// The error that the request of a struck copy is given: it counts as not received (XEP-0124, section 17.3).
pub(crate) fn error_text(alloc: Global) -> Result<SharedText, AllocError>
    ensures { IfOk result (λ text. text ≡ error_text) }
{
    let parts = AnswerParts::bare(alloc, AnswerKind::Error, None);
    SharedText::new(alloc, write_answer(alloc, &parts)?)
}
