// Bodies that refuse a request, and end the session for the client.
ghost use Rattle.std.specs.Prelude.{◌≡◌, IfOk, Some};
ghost use Rattle.body_writer.specs.Answer.{answer_text};
ghost use Rattle.session_core.specs.Endings.{terminal};

use body_writer::{AnswerKind, AnswerParts, write_answer};
use bosh_types::{Condition, SharedText, Stanzas};
use std::alloc::{AllocError, Global};

// A terminal body that names this condition.
pub(crate) fn refusal(alloc: Global, condition: Condition) -> Result<SharedText, AllocError>
    ensures { IfOk result (λ body. body ≡ answer_text (terminal (Some condition))) }
{
    let text = write_answer(
        alloc,
        &AnswerParts {
            created: None,
            kind: AnswerKind::Terminate,
            condition: Some(condition),
            stream: None,
            ack: None,
            report: None,
            payloads: Stanzas::from_vec(Vec::new(alloc)),
        },
    )?;
    SharedText::new(alloc, text)
}
