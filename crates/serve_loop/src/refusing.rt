// Bodies that refuse a request, and end no session.
ghost use Rattle.std.specs.Prelude.{◌≡◌, IfOk};
ghost use Rattle.serve_loop.specs.Trail.{refusal_text};

use body_writer::{AnswerKind, AnswerParts, write_answer};
use bosh_types::{Condition, SharedText, Stanzas};
use std::alloc::{AllocError, Global};

/// A terminal body that names this condition.
pub(crate) fn refusal(alloc: Global, condition: Condition) -> Result<SharedText, AllocError>
    ensures { IfOk result (λ body. body ≡ refusal_text condition) }
{
    let text = write_answer(
        alloc,
        &AnswerParts {
            created: None,
            kind: AnswerKind::Terminate,
            condition: Some(condition),
            stream: None,
            ack: None,
            report: None,
            payloads: Stanzas::from_vec(Vec::new(alloc)),
        },
    )?;
    SharedText::new(alloc, text)
}
