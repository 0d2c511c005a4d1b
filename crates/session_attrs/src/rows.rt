ghost use Rattle.std.specs.Prelude.{◌≡◌, Ok, Err, Some, None, false};
ghost use Rattle.std.specs.Option.{option_copied};
ghost use Rattle.session_attrs.specs.Forms.{number_of, pause_of, version_of, wish_of, ack_of, terminate_of, no_type_of, flag_of, says_httpbind};
ghost use Rattle.session_attrs.specs.Reading.{asked_in, creation_in, rid_in, rid_row};
ghost use Rattle.session_attrs.specs.Rows.{row, told};
ghost use Rattle.session_attrs.specs.Values.{values_of};

use crate::attributes::value_of;
use crate::forms;
use crate::refusal::{AttrRefusal, Numbered};
use crate::request::Creation;
use body_cutter::Cut;
use bosh_types::Rid;

/// What the attributes of a later request say, texts apart.
#[derive(Clone, Copy)]
pub(crate) struct Asked {
    pub(crate) pause: Option<u32>,
    pub(crate) ack: Option<Rid>,
    pub(crate) terminate: bool,
    pub(crate) restart: bool,
}

/// The request id of a body in the namespace.
#[tactic(auto, unfolding(crate::specs::Reading::rid_in))]
pub(crate) fn rid_in(cut: &Cut, text: &[u8]) -> Result<Rid, AttrRefusal>
    ensures { result ≡ rid_in (values_of text.now cut.now.attrs) }
{
    if !says_httpbind(value_of(cut, text, b"xmlns")) {
        return Err(AttrRefusal::WrongNamespace);
    }
    rid_row(value_of(cut, text, b"rid"))
}

/// What a creation asks for.
#[tactic(auto, unfolding(crate::specs::Reading::creation_in))]
pub(crate) fn creation_in(cut: &Cut, text: &[u8]) -> Result<Creation, AttrRefusal>
    ensures { result ≡ creation_in (values_of text.now cut.now.attrs) }
{
    let wait = number_row(Numbered::Wait, value_of(cut, text, b"wait"))?;
    let hold = number_row(Numbered::Hold, value_of(cut, text, b"hold"))?;
    let version = version_row(value_of(cut, text, b"ver"))?;
    let asks_ack = wish_row(value_of(cut, text, b"ack"))?;
    no_type_row(value_of(cut, text, b"type"))?;
    flag_row(value_of(cut, text, b"xmpp:restart"))?;
    Ok(Creation {
        wait,
        hold,
        version,
        asks_ack,
    })
}

/// What a later request with this id asks for.
#[tactic(auto, unfolding(crate::specs::Reading::asked_in))]
pub(crate) fn asked_in(cut: &Cut, text: &[u8], rid: Rid) -> Result<Asked, AttrRefusal>
    ensures { result ≡ asked_in (values_of text.now cut.now.attrs) rid }
{
    let pause = pause_row(value_of(cut, text, b"pause"))?;
    let ack = ack_row(rid, value_of(cut, text, b"ack"))?;
    let terminate = terminate_row(value_of(cut, text, b"type"))?;
    let restart = flag_row(value_of(cut, text, b"xmpp:restart"))?;
    Ok(Asked {
        pause,
        ack,
        terminate,
        restart,
    })
}

fn says_httpbind(value: Option<&[u8]>) -> bool
    ensures { result ≡ says_httpbind (option_copied value.entry) }
{
    match value {
        Some(text) => forms::is_httpbind(text),
        None => false,
    }
}

fn rid_row(value: Option<&[u8]>) -> Result<Rid, AttrRefusal>
    ensures { result ≡ rid_row (option_copied value.entry) }
{
    match value {
        Some(text) => Rid::read(text).ok_or(AttrRefusal::BadRid),
        None => Err(AttrRefusal::NoRid),
    }
}

fn number_row(field: Numbered, value: Option<&[u8]>) -> Result<Option<u32>, AttrRefusal>
    ensures { result ≡ row (told number_of) None (AttrRefusal.BadNumber field) (option_copied value.entry) }
{
    let Some(text) = value else {
        return Ok(None);
    };
    match forms::number_of(text) {
        Some(number) => Ok(Some(number)),
        None => Err(AttrRefusal::BadNumber(field)),
    }
}

fn pause_row(value: Option<&[u8]>) -> Result<Option<u32>, AttrRefusal>
    ensures { result ≡ row (told pause_of) None (AttrRefusal.BadNumber Numbered.Pause) (option_copied value.entry) }
{
    let Some(text) = value else {
        return Ok(None);
    };
    match forms::pause_of(text) {
        Some(seconds) => Ok(Some(seconds)),
        None => Err(AttrRefusal::BadNumber(Numbered::Pause)),
    }
}

fn version_row(value: Option<&[u8]>) -> Result<(u32, u32), AttrRefusal>
    ensures { result ≡ row version_of (1, 0) (AttrRefusal.BadNumber Numbered.Ver) (option_copied value.entry) }
{
    match value {
        Some(text) => forms::version_of(text).ok_or(AttrRefusal::BadNumber(Numbered::Ver)),
        None => Ok((1, 0)),
    }
}

fn wish_row(value: Option<&[u8]>) -> Result<bool, AttrRefusal>
    ensures { result ≡ row wish_of false AttrRefusal.BadAck (option_copied value.entry) }
{
    match value {
        Some(text) => forms::wish_of(text).ok_or(AttrRefusal::BadAck),
        None => Ok(false),
    }
}

fn ack_row(rid: Rid, value: Option<&[u8]>) -> Result<Option<Rid>, AttrRefusal>
    ensures { result ≡ row (told (ack_of rid)) None AttrRefusal.BadAck (option_copied value.entry) }
{
    let Some(text) = value else {
        return Ok(None);
    };
    match forms::ack_of(rid, text) {
        Some(ack) => Ok(Some(ack)),
        None => Err(AttrRefusal::BadAck),
    }
}

fn no_type_row(value: Option<&[u8]>) -> Result<bool, AttrRefusal>
    ensures { result ≡ row no_type_of false AttrRefusal.BadType (option_copied value.entry) }
{
    match value {
        Some(_) => Err(AttrRefusal::BadType),
        None => Ok(false),
    }
}

fn terminate_row(value: Option<&[u8]>) -> Result<bool, AttrRefusal>
    ensures { result ≡ row terminate_of false AttrRefusal.BadType (option_copied value.entry) }
{
    match value {
        Some(text) => forms::terminate_of(text).ok_or(AttrRefusal::BadType),
        None => Ok(false),
    }
}

fn flag_row(value: Option<&[u8]>) -> Result<bool, AttrRefusal>
    ensures { result ≡ row flag_of false AttrRefusal.BadFlag (option_copied value.entry) }
{
    match value {
        Some(text) => forms::flag_of(text).ok_or(AttrRefusal::BadFlag),
        None => Ok(false),
    }
}
