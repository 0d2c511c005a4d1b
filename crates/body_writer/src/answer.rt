ghost use Rattle.std.specs.Prelude.{◌≡◌, ◌++◌, Some, codes, IfOk, OnOk};
ghost use Rattle.body_writer.specs.Answer.{answer_text};
ghost use Rattle.body_writer.specs.AnswerRows.{xmpp_rows, stream_rows, kind_rows, version_value, terms_rows, created_rows, ack_rows, report_rows, restart_rows};
ghost use Rattle.body_writer.specs.Attribute.{attribute};
ghost use Rattle.body_writer.specs.Rows.{rows_text};

use crate::attribute::{
    push_attribute, push_httpbind, push_named, push_number, push_payloads, push_text, push_xbosh,
    push_xmpp_version, room_for,
};
use bosh_types::{Condition, Rid, Stanzas, StreamNo, Terms, Text};
use std::alloc::{AllocError, Global};

/// The parts of an answer of the connection manager, from which its text is made.
#[derive(Debug, Drop)]
pub struct AnswerParts {
    /// What a creation's answer says besides (XEP-0124, section 7).
    pub created: Option<Created>,
    pub kind: AnswerKind,
    /// Why a terminal answer is one (XEP-0124, section 17). Other answers don't say it.
    pub condition: Option<Condition>,
    /// The stream that it is about, where it names one (XEP-0124, section 16).
    pub stream: Option<StreamNo>,
    /// The highest request id that was received without a gap (XEP-0124, section 9).
    pub ack: Option<Rid>,
    /// A request whose answer seems lost, and how many milliseconds ago it was given (XEP-0124, section 9).
    pub report: Option<(Rid, u64)>,
    /// The stanzas and other elements of the answer, which are written as they are.
    pub payloads: Stanzas,
}

/// What the answer to a creation tells of the session.
#[derive(Debug, Drop)]
pub struct Created {
    /// The session's id.
    pub sid: Text,
    pub terms: Terms,
    /// The host that the session is with.
    pub from: Text,
}

/// What an answer means for its session.
#[derive(Clone, Copy, Debug, PartialEq, Eq)]
pub enum AnswerKind {
    /// The session goes on.
    Usual,
    /// There is no session, or none any more: `type='terminate'` (XEP-0124, sections 13 and 17). Where a stream is named, that one
    /// alone was closed (XEP-0124, section 16).
    Terminate,
    /// Its request counts as not received: the client repeats it with all earlier ones that have no answer: `type='error'`
    /// (XEP-0124, section 17.3).
    Error,
}

/// The text of an answer: `<body`, its attributes in their fixed order, each in `'`, then the payloads without anything
/// between. In a value that is a text, `&`, `<`, `'`, tab, LF and CR are written as references. The only error is want of
/// memory.
pub fn write_answer(alloc: Global, parts: &AnswerParts) -> Result<Text, AllocError>
    ensures { IfOk result (λ text. text ≡ answer_text parts.now) }
{
    let mut text = room_for(alloc, &parts.payloads)?;
    text.extend_from_slice(b"<body")?;
    push_httpbind(&mut text)?;
    push_xmpp_namespace(&mut text, &parts.created)?;
    push_stream_namespace(&mut text, &parts.created, &parts.payloads)?;
    push_kind(&mut text, parts.kind, parts.condition)?;
    push_created(alloc, &mut text, &parts.created)?;
    push_named(&mut text, parts.stream)?;
    push_ack(alloc, &mut text, parts.ack)?;
    push_report(alloc, &mut text, parts.report)?;
    push_restart(&mut text, &parts.created)?;
    push_payloads(&mut text, &parts.payloads)?;
    Ok(Text::from_vec(text))
}

#[tactic(auto, unfolding(crate::specs::AnswerRows::xmpp_rows))]
fn push_xmpp_namespace(text: &mut Vec<u8>, created: &Option<Created>) -> Result<(), AllocError>
    ensures { OnOk result (text.new.items ≡ text.old.items ++ rows_text (xmpp_rows created.now)) }
{
    match created {
        None => Ok(()),
        Some(_) => push_xbosh(text),
    }
}

#[tactic(auto, unfolding(crate::specs::AnswerRows::stream_rows))]
fn push_stream_namespace(
    text: &mut Vec<u8>,
    created: &Option<Created>,
    payloads: &Stanzas,
) -> Result<(), AllocError>
    ensures { OnOk result (text.new.items ≡ text.old.items ++ rows_text (stream_rows created.now payloads.now)) }
{
    if created.is_none() && payloads.is_empty() {
        return Ok(());
    }
    push_attribute(text, "xmlns:stream", b"http://etherx.jabber.org/streams")
}

#[tactic(auto, unfolding(crate::specs::AnswerRows::kind_rows))]
fn push_kind(
    text: &mut Vec<u8>,
    kind: AnswerKind,
    condition: Option<Condition>,
) -> Result<(), AllocError>
    ensures { OnOk result (text.new.items ≡ text.old.items ++ rows_text (kind_rows kind condition)) }
{
    match kind {
        AnswerKind::Usual => Ok(()),
        AnswerKind::Terminate => {
            push_attribute(text, "type", b"terminate")?;
            match condition {
                None => Ok(()),
                Some(condition) => push_attribute(text, "condition", condition.name().as_bytes()),
            }
        }
        AnswerKind::Error => push_attribute(text, "type", b"error"),
    }
}

fn push_created(
    alloc: Global,
    text: &mut Vec<u8>,
    created: &Option<Created>,
) -> Result<(), AllocError>
    ensures { OnOk result (text.new.items ≡ text.old.items ++ rows_text (created_rows created.now)) }
{
    match created {
        None => Ok(()),
        Some(created) => push_created_by(alloc, text, created),
    }
}

fn push_created_by(alloc: Global, text: &mut Vec<u8>, created: &Created) -> Result<(), AllocError>
    ensures { OnOk result (text.new.items ≡ text.old.items ++ rows_text (created_rows (Some created.now))) }
{
    push_text(text, "sid", &created.sid)?;
    push_terms(alloc, text, created.terms)?;
    push_text(text, "from", &created.from)?;
    Ok(())
}

#[tactic(auto, unfolding(crate::specs::AnswerRows::terms_rows))]
fn push_terms(alloc: Global, text: &mut Vec<u8>, terms: Terms) -> Result<(), AllocError>
    ensures { OnOk result (text.new.items ≡ text.old.items ++ rows_text (terms_rows terms)) }
{
    push_number(alloc, text, "wait", u64::from(terms.wait))?;
    push_number(alloc, text, "requests", u64::from(terms.requests))?;
    push_number(alloc, text, "inactivity", u64::from(terms.inactivity))?;
    push_number(alloc, text, "polling", u64::from(terms.polling))?;
    push_number(alloc, text, "maxpause", u64::from(terms.maxpause))?;
    push_number(alloc, text, "hold", u64::from(terms.hold))?;
    push_version(alloc, text, terms.version)
}

#[tactic(auto, unfolding(crate::specs::AnswerRows::version_value))]
fn push_version(alloc: Global, text: &mut Vec<u8>, version: (u32, u32)) -> Result<(), AllocError>
    ensures { OnOk result (text.new.items ≡ text.old.items ++ attribute (codes "ver") (version_value version)) }
{
    let (major, minor) = version;
    let mut value = u64::from(major).to_string(alloc)?;
    value.push('.')?;
    let minor = u64::from(minor).to_string(alloc)?;
    value.push_str(&minor)?;
    push_attribute(text, "ver", value.as_bytes())
}

#[tactic(auto, unfolding(crate::specs::AnswerRows::ack_rows))]
fn push_ack(alloc: Global, text: &mut Vec<u8>, ack: Option<Rid>) -> Result<(), AllocError>
    ensures { OnOk result (text.new.items ≡ text.old.items ++ rows_text (ack_rows ack)) }
{
    match ack {
        None => Ok(()),
        Some(rid) => push_number(alloc, text, "ack", rid.value()),
    }
}

#[tactic(auto, unfolding(crate::specs::AnswerRows::report_rows))]
fn push_report(
    alloc: Global,
    text: &mut Vec<u8>,
    report: Option<(Rid, u64)>,
) -> Result<(), AllocError>
    ensures { OnOk result (text.new.items ≡ text.old.items ++ rows_text (report_rows report)) }
{
    match report {
        None => Ok(()),
        Some((rid, millis)) => {
            push_number(alloc, text, "report", rid.value())?;
            push_number(alloc, text, "time", millis)
        }
    }
}

#[tactic(auto, unfolding(crate::specs::AnswerRows::restart_rows))]
fn push_restart(text: &mut Vec<u8>, created: &Option<Created>) -> Result<(), AllocError>
    ensures { OnOk result (text.new.items ≡ text.old.items ++ rows_text (restart_rows created.now)) }
{
    match created {
        None => Ok(()),
        Some(_) => {
            push_xmpp_version(text)?;
            push_attribute(text, "xmpp:restartlogic", b"true")
        }
    }
}
