ghost use Rattle.std.specs.Prelude.{◌≡◌, ◌++◌, None, codes, IfOk, OnOk};
ghost use Rattle.body_writer.specs.Request.{request_text};
ghost use Rattle.body_writer.specs.RequestRows.{xmpp_rows, sid_rows, creation_rows, host_rows, number_rows, key_rows, terminate_rows, version_rows, restart_rows};
ghost use Rattle.body_writer.specs.Rows.{rows_text};

use crate::attribute::{
    push_attribute, push_httpbind, push_named, push_number, push_payloads, push_text, push_xbosh,
    push_xmpp_version, room_for,
};
use bosh_types::{Key, Rid, Stanzas, StreamNo, Text};
use std::alloc::{AllocError, Global};

/// The parts of a client's request, from which its text is made.
#[derive(Debug, Drop)]
pub struct RequestParts {
    /// The request's id (XEP-0124, section 6).
    pub rid: Rid,
    /// The session's id, in every request but a creation.
    pub sid: Option<Text>,
    /// The stream that it is for, where it names one (XEP-0124, section 16).
    pub stream: Option<StreamNo>,
    /// The host to which it adds a stream (XEP-0124, section 16). A creation has its own.
    pub to: Option<Text>,
    /// What a creation asks for: the host, the longest wait in seconds, and how many requests are held at most (XEP-0124,
    /// section 7).
    pub creation: Option<(Text, u32, u32)>,
    /// The highest id whose answer and those of all lower ids have come; in a creation 1, which asks for acknowledgements
    /// (XEP-0124, section 9).
    pub ack: Option<u64>,
    /// The next key of a key sequence (XEP-0124, section 15).
    pub key: Option<Key>,
    /// The first key of a new key sequence (XEP-0124, section 15).
    pub newkey: Option<Key>,
    /// How long the client will be silent, in seconds (XEP-0124, section 10).
    pub pause: Option<u32>,
    /// Whether this request ends the session (XEP-0124, section 13).
    pub terminate: bool,
    /// Whether the XMPP stream is to begin anew (XEP-0206, section 5).
    pub restart: bool,
    /// The stanzas and other elements of the request, which are written as they are.
    pub payloads: Stanzas,
}

/// The text of a request, in the form of an answer's text. The only error is want of memory.
pub fn write_request(alloc: Global, parts: &RequestParts) -> Result<Text, AllocError>
    ensures { IfOk result (λ text. text ≡ request_text parts.now) }
{
    let mut text = room_for(alloc, &parts.payloads)?;
    text.extend_from_slice(b"<body")?;
    push_httpbind(&mut text)?;
    push_xmpp_namespace(&mut text, &parts.creation, parts.restart)?;
    push_number(alloc, &mut text, "rid", parts.rid.value())?;
    push_sid(&mut text, &parts.sid)?;
    push_named(&mut text, parts.stream)?;
    push_host(alloc, &mut text, &parts.creation, &parts.to)?;
    push_ack(alloc, &mut text, parts.ack)?;
    push_key(&mut text, "key", &parts.key)?;
    push_key(&mut text, "newkey", &parts.newkey)?;
    push_pause(alloc, &mut text, parts.pause)?;
    push_terminate(&mut text, parts.terminate)?;
    push_version(&mut text, &parts.creation)?;
    push_restart(&mut text, parts.restart)?;
    push_payloads(&mut text, &parts.payloads)?;
    Ok(Text::from_vec(text))
}

#[tactic(auto, unfolding(crate::specs::RequestRows::xmpp_rows))]
fn push_xmpp_namespace(
    text: &mut Vec<u8>,
    creation: &Option<(Text, u32, u32)>,
    restart: bool,
) -> Result<(), AllocError>
    ensures { OnOk result (text.new.items ≡ text.old.items ++ rows_text (xmpp_rows creation.now restart)) }
{
    if creation.is_none() && !restart {
        return Ok(());
    }
    push_xbosh(text)
}

#[tactic(auto, unfolding(crate::specs::RequestRows::sid_rows))]
fn push_sid(text: &mut Vec<u8>, sid: &Option<Text>) -> Result<(), AllocError>
    ensures { OnOk result (text.new.items ≡ text.old.items ++ rows_text (sid_rows sid.now)) }
{
    match sid {
        None => Ok(()),
        Some(sid) => push_text(text, "sid", sid),
    }
}

#[tactic(auto, unfolding(crate::specs::RequestRows::host_rows))]
fn push_host(
    alloc: Global,
    text: &mut Vec<u8>,
    creation: &Option<(Text, u32, u32)>,
    to: &Option<Text>,
) -> Result<(), AllocError>
    ensures { OnOk result (text.new.items ≡ text.old.items ++ rows_text (host_rows creation.now to.now)) }
{
    match creation {
        None => push_to(text, to),
        Some((to, wait, hold)) => push_creation(alloc, text, to, *wait, *hold),
    }
}

#[tactic(auto, unfolding(crate::specs::RequestRows::host_rows))]
fn push_to(text: &mut Vec<u8>, to: &Option<Text>) -> Result<(), AllocError>
    ensures { OnOk result (text.new.items ≡ text.old.items ++ rows_text (host_rows None to.now)) }
{
    match to {
        None => Ok(()),
        Some(to) => push_text(text, "to", to),
    }
}

fn push_creation(
    alloc: Global,
    text: &mut Vec<u8>,
    to: &Text,
    wait: u32,
    hold: u32,
) -> Result<(), AllocError>
    ensures { OnOk result (text.new.items ≡ text.old.items ++ rows_text (creation_rows (to.now, wait, hold))) }
{
    push_text(text, "to", to)?;
    push_attribute(text, "xml:lang", b"en")?;
    push_number(alloc, text, "wait", u64::from(wait))?;
    push_number(alloc, text, "hold", u64::from(hold))?;
    push_attribute(text, "ver", b"1.11")?;
    push_attribute(text, "content", b"text/xml; charset=utf-8")?;
    Ok(())
}

#[tactic(auto, unfolding(crate::specs::RequestRows::number_rows))]
fn push_ack(alloc: Global, text: &mut Vec<u8>, ack: Option<u64>) -> Result<(), AllocError>
    ensures { OnOk result (text.new.items ≡ text.old.items ++ rows_text (number_rows (codes "ack") ack)) }
{
    match ack {
        None => Ok(()),
        Some(ack) => push_number(alloc, text, "ack", ack),
    }
}

#[tactic(auto, unfolding(crate::specs::RequestRows::key_rows))]
fn push_key(text: &mut Vec<u8>, name: &str, key: &Option<Key>) -> Result<(), AllocError>
    ensures { OnOk result (text.new.items ≡ text.old.items ++ rows_text (key_rows name.now key.now)) }
{
    match key {
        None => Ok(()),
        Some(key) => push_attribute(text, name, key.as_slice()),
    }
}

#[tactic(auto, unfolding(crate::specs::RequestRows::number_rows))]
fn push_pause(alloc: Global, text: &mut Vec<u8>, pause: Option<u32>) -> Result<(), AllocError>
    ensures { OnOk result (text.new.items ≡ text.old.items ++ rows_text (number_rows (codes "pause") pause)) }
{
    match pause {
        None => Ok(()),
        Some(pause) => push_number(alloc, text, "pause", u64::from(pause)),
    }
}

#[tactic(auto, unfolding(crate::specs::RequestRows::terminate_rows))]
fn push_terminate(text: &mut Vec<u8>, terminate: bool) -> Result<(), AllocError>
    ensures { OnOk result (text.new.items ≡ text.old.items ++ rows_text (terminate_rows terminate)) }
{
    if terminate {
        push_attribute(text, "type", b"terminate")
    } else {
        Ok(())
    }
}

#[tactic(auto, unfolding(crate::specs::RequestRows::version_rows))]
fn push_version(text: &mut Vec<u8>, creation: &Option<(Text, u32, u32)>) -> Result<(), AllocError>
    ensures { OnOk result (text.new.items ≡ text.old.items ++ rows_text (version_rows creation.now)) }
{
    match creation {
        None => Ok(()),
        Some(_) => push_xmpp_version(text),
    }
}

#[tactic(auto, unfolding(crate::specs::RequestRows::restart_rows))]
fn push_restart(text: &mut Vec<u8>, restart: bool) -> Result<(), AllocError>
    ensures { OnOk result (text.new.items ≡ text.old.items ++ rows_text (restart_rows restart)) }
{
    if restart {
        push_attribute(text, "xmpp:restart", b"true")
    } else {
        Ok(())
    }
}
