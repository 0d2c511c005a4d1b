// The bodies that a manager writes by itself: refusals, and the creations and requests of scripts that tell of one session.
ghost use Rattle.std.specs.Prelude.{◌≡◌, IfOk, Some};
ghost use Rattle.body_writer.specs.Answer.{answer_text};
ghost use Rattle.session_core.specs.Endings.{terminal};
ghost use Rattle.script_text.specs.Manager.{sid_of};
ghost use Rattle.script_text.specs.Script.{creation_text, request_head, request_text};

use crate::text::push_number;
use body_writer::{AnswerKind, AnswerParts, write_answer};
use bosh_types::{Condition, Rid, SharedText, Stanzas, Text};
use std::alloc::{AllocError, Global};

// A terminal body that names this condition.
pub(crate) fn terminal_body(alloc: Global, condition: Condition) -> Result<SharedText, AllocError>
    ensures { IfOk result (λ body. body ≡ answer_text (terminal (Some condition))) }
{
    let text = write_answer(
        alloc,
        &AnswerParts {
            created: None,
            kind: AnswerKind::Terminate,
            condition: Some(condition),
            stream: None,
            ack: None,
            report: None,
            payloads: Stanzas::from_vec(Vec::new(alloc)),
        },
    )?;
    SharedText::new(alloc, text)
}

// The name of a session: `s` and its opening number.
#[tactic(auto, unfolding(crate::specs::Manager::sid_of))]
pub(crate) fn sid_of(alloc: Global, number: u32) -> Result<Text, AllocError>
    ensures { IfOk result (λ sid. sid ≡ sid_of number) }
{
    let mut sid = Vec::from_slice(alloc, b"s")?;
    push_number(alloc, &mut sid, u64::from(number))?;
    Ok(Text::from_vec(sid))
}

// A creation with this id, which asks for a wait of 60 seconds and a hold of 1.
#[tactic(auto, unfolding(crate::specs::Script::creation_text))]
pub(crate) fn creation_text(alloc: Global, rid: Rid) -> Result<Text, AllocError>
    ensures { IfOk result (λ text. text ≡ creation_text rid) }
{
    let mut text = Vec::from_slice(alloc, b"<body rid='")?;
    push_number(alloc, &mut text, rid.value())?;
    text.extend_from_slice(
        b"' to='example.org' wait='60' hold='1' ver='1.6' xmlns='http://jabber.org/protocol/httpbind'/>",
    )?;
    Ok(Text::from_vec(text))
}

// A request of the session `s1` with this id and stanza.
pub(crate) fn request_text(alloc: Global, rid: Rid, stanza: &[u8]) -> Result<Text, AllocError>
    ensures { IfOk result (λ text. text ≡ request_text rid stanza.now) }
{
    let mut text = request_head(alloc, rid)?;
    text.extend_from_slice(stanza)?;
    text.extend_from_slice(b"</body>")?;
    Ok(Text::from_vec(text))
}

#[tactic(auto, unfolding(crate::specs::Script::request_head))]
fn request_head(alloc: Global, rid: Rid) -> Result<Vec<u8>, AllocError>
    ensures { IfOk result (λ text. text.items ≡ request_head rid) }
{
    let mut text = Vec::from_slice(alloc, b"<body rid='")?;
    push_number(alloc, &mut text, rid.value())?;
    text.extend_from_slice(b"' sid='s1' xmlns='http://jabber.org/protocol/httpbind'>")?;
    Ok(text)
}
