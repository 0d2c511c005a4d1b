ghost use Rattle.std.specs.Prelude.{◌≡◌};
ghost use Rattle.std.specs.List.{find};
ghost use Rattle.std.specs.Option.{option_copied, option_map};
ghost use Rattle.std.specs.Str.{bytes_eq};
ghost use Rattle.bosh_types.specs.Condition.{name_of};
ghost use Rattle.bosh_types.specs.Rid.{rid_of};
ghost use Rattle.session_attrs.specs.Forms.{number_of, says_httpbind};
ghost use Rattle.bosh_client.specs.AnswerMeaning.{condition_of, naming_of, type_of};
ghost use Rattle.bosh_client.specs.AnswerReading.{end_by, end_with, is_error, said, said_in};
ghost use Rattle.bosh_client.specs.AnswerValues.{values_of};

use crate::replies::ClientEnd;
use crate::told::Naming;
use body_cutter::Cut;
use bosh_types::{Condition, Rid};
use session_attrs::{is_httpbind, number_of, value_of};
use stream_names::number_of as stream_named;

// What the `type` of an answer says.
#[derive(Clone, Copy)]
pub(crate) enum AnswerType {
    // The session ends.
    Terminate,
    // The request counts as not received.
    Error,
}

// What the attributes of an answer say, texts apart.
#[derive(Clone, Copy)]
pub(crate) struct Said {
    pub(crate) kind: Option<AnswerType>,
    pub(crate) ack: Option<Rid>,
    pub(crate) requests: Option<u32>,
    pub(crate) polling: Option<u32>,
    pub(crate) maxpause: Option<u32>,
}

/// What these attributes say: `None` exactly where one is out of form.
#[tactic(auto, unfolding(crate::specs::AnswerReading::said_in))]
pub(crate) fn said_in(cut: &Cut, text: &[u8]) -> Option<Said>
    ensures { result ≡ said_in (values_of text.now cut.now.attrs) }
{
    let kind = type_row(value_of(cut, text, b"type"))?;
    let ack = ack_row(value_of(cut, text, b"ack"))?;
    let requests = number_row(value_of(cut, text, b"requests"))?;
    let polling = number_row(value_of(cut, text, b"polling"))?;
    let maxpause = number_row(value_of(cut, text, b"maxpause"))?;
    Some(Said {
        kind,
        ack,
        requests,
        polling,
        maxpause,
    })
}

fn type_row(value: Option<&[u8]>) -> Option<Option<AnswerType>>
    ensures { result ≡ said type_of (option_copied value.entry) }
{
    let Some(text) = value else {
        return Some(None);
    };
    match type_of(text) {
        Some(kind) => Some(Some(kind)),
        None => None,
    }
}

// What a `type` says (XEP-0124, section 17): no other value stands in an answer.
#[tactic(auto, unfolding(crate::specs::AnswerMeaning::type_of))]
fn type_of(text: &[u8]) -> Option<AnswerType>
    ensures { result ≡ type_of text.now }
{
    if text == b"terminate".as_slice() {
        return Some(AnswerType::Terminate);
    }
    if text == b"error".as_slice() {
        return Some(AnswerType::Error);
    }
    None
}

fn ack_row(value: Option<&[u8]>) -> Option<Option<Rid>>
    ensures { result ≡ said rid_of (option_copied value.entry) }
{
    let Some(text) = value else {
        return Some(None);
    };
    match Rid::read(text) {
        Some(rid) => Some(Some(rid)),
        None => None,
    }
}

fn number_row(value: Option<&[u8]>) -> Option<Option<u32>>
    ensures { result ≡ said number_of (option_copied value.entry) }
{
    let Some(text) = value else {
        return Some(None);
    };
    match number_of(text) {
        Some(number) => Some(Some(number)),
        None => None,
    }
}

/// Whether a body says that it is in the namespace of the protocol.
pub(crate) fn says_httpbind(value: Option<&[u8]>) -> bool
    ensures { result ≡ says_httpbind (option_copied value.entry) }
{
    match value {
        Some(text) => is_httpbind(text),
        None => false,
    }
}

/// How an answer ends the client, where it is terminal: only then its condition is looked at.
pub(crate) fn end_by(
    condition: Option<&[u8]>,
    stream: Option<&[u8]>,
    kind: Option<AnswerType>,
) -> Option<ClientEnd>
    ensures { result ≡ end_by (option_copied condition.entry) (option_copied stream.entry) kind }
{
    match kind? {
        AnswerType::Error => None,
        AnswerType::Terminate => end_with(condition, stream),
    }
}

// An answer that names a stream tells of that one alone.
fn end_with(condition: Option<&[u8]>, stream: Option<&[u8]>) -> Option<ClientEnd>
    ensures { result ≡ end_with (option_copied condition.entry) (option_copied stream.entry) }
{
    match stream {
        Some(_) => None,
        None => Some(ClientEnd {
            condition: condition_row(condition),
        }),
    }
}

/// Which stream an answer names.
pub(crate) fn naming_of(name: Option<&[u8]>) -> Naming
    ensures { result ≡ naming_of (option_copied name.entry) }
{
    let Some(name) = name else {
        return Naming::Unnamed;
    };
    match stream_named(name) {
        Some(stream) => Naming::Stream(stream),
        None => Naming::Unknown,
    }
}

fn condition_row(condition: Option<&[u8]>) -> Option<Condition>
    ensures { result ≡ option_map condition_of (option_copied condition.entry) }
{
    match condition {
        Some(text) => Some(condition_of(text)),
        None => None,
    }
}

/// Whether an answer says that its request counts as not received (XEP-0124, section 17.3).
pub(crate) fn is_error(kind: Option<AnswerType>) -> bool
    ensures { result ≡ is_error kind }
{
    match kind {
        None => false,
        Some(AnswerType::Terminate) => false,
        Some(AnswerType::Error) => true,
    }
}

const CONDITIONS: [Condition; 10] = [
    Condition::BadRequest,
    Condition::HostUnknown,
    Condition::ImproperAddressing,
    Condition::ItemNotFound,
    Condition::OtherRequest,
    Condition::PolicyViolation,
    Condition::RemoteConnectionFailed,
    Condition::RemoteStreamError,
    Condition::SystemShutdown,
    Condition::UndefinedCondition,
];

// The condition with this name; one that has none is an undefined one.
#[tactic(auto, unfolding(crate::specs::AnswerMeaning::condition_of))]
fn condition_of(text: &[u8]) -> Condition
    ensures { result ≡ condition_of text.now }
{
    named(&CONDITIONS, text).unwrap_or(Condition::UndefinedCondition)
}

// The first of these with this name.
fn named(conditions: &[Condition], text: &[u8]) -> Option<Condition>
    ensures { result ≡ find (λ condition. bytes_eq (name_of condition) text.now) conditions.now }
{
    for condition in conditions {
        if is_named(*condition, text) {
            return Some(*condition);
        }
    }
    None
}

fn is_named(condition: Condition, text: &[u8]) -> bool
    ensures { result ≡ bytes_eq (name_of condition) text.now }
{
    condition.name().as_bytes() == text
}
