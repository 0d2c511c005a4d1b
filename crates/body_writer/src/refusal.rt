// Bodies that say only what they mean for their session, and refusals among them (XEP-0124, section 17).
ghost use Rattle.std.specs.Prelude.{◌≡◌, Some, IfOk};
ghost use Rattle.body_writer.specs.declared.answer.AnswerKind.TheVariants.{Terminate};
ghost use Rattle.body_writer.specs.Answer.{answer_text};
ghost use Rattle.body_writer.specs.Refusal.{bare_parts, refusal_text};

use crate::answer::{AnswerKind, AnswerParts, write_answer};
use bosh_types::{Condition, Stanzas, Text};
use std::alloc::{AllocError, Global};

impl AnswerParts {
    /// The parts of a body without payloads that says nothing else. Takes no memory.
    pub fn bare(alloc: Global, kind: AnswerKind, condition: Option<Condition>) -> Self
        ensures { result ≡ bare_parts kind condition }
    {
        AnswerParts {
            created: None,
            kind,
            condition,
            stream: None,
            ack: None,
            report: None,
            payloads: Stanzas::from_vec(Vec::new(alloc)),
        }
    }
}

/// The text of a refusal: a terminal body that names its condition and says nothing else. The only error is want of memory.
pub fn write_refusal(alloc: Global, condition: Condition) -> Result<Text, AllocError>
    // These are its bytes.
    ensures text { IfOk result (λ text. text ≡ refusal_text condition) }
    // It is an answer's text.
    ensures answer { IfOk result (λ text. text ≡ answer_text (bare_parts Terminate (Some condition))) }
{
    let parts = AnswerParts::bare(alloc, AnswerKind::Terminate, Some(condition));
    write_answer(alloc, &parts)
}
