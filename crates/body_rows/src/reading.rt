// Rows of bodies whose request is read.

use body_cutter::cut;
use bosh_types::{HostName, HostNames, Stanzas, Text};
use session_attrs::{Kind, Request, RequestError, admit, negotiate, read_body, read_request};
use std::alloc::{AllocError, Global};

const HOSTS: [&str; 3] = ["a.org", "b.org", "a.org"];

/// The id of a body's request, or none.
pub fn rid(alloc: Global, text: &[u8]) -> Result<String, AllocError> {
    match read_body(alloc, text)? {
        Some(request) => {
            let rid = request.rid.value();
            format!(in alloc; "{rid}")
        }
        None => String::from_str(alloc, "none"),
    }
}

/// What such a call answers by the request of a body, or why it has none.
pub fn request(alloc: Global, call: &str, text: &[u8]) -> Result<String, AllocError> {
    let request = match request_in(alloc, text) {
        Ok(Some(request)) => request,
        Ok(None) => return String::from_str(alloc, "no body"),
        Err(error) => return format!(in alloc; "{error:?}"),
    };
    match call {
        "refusal" => String::from_str(alloc, "none"),
        "request" => said(alloc, &request),
        "terms" => terms(alloc, &request),
        "texts" => texts(alloc, &request),
        "admit" => admitted(alloc, &request),
        _ => String::from_str(alloc, "no such call"),
    }
}

fn request_in(alloc: Global, text: &[u8]) -> Result<Option<Request>, RequestError> {
    match cut(alloc, text) {
        Ok(parts) => Ok(Some(read_request(alloc, &parts, text)?)),
        Err(_) => Ok(None),
    }
}

/// What a creation asks for; of a later request the acknowledgement, the pause, the restart and the end.
fn said(alloc: Global, request: &Request) -> Result<String, AllocError> {
    let Kind::Creation(creation) = &request.kind else {
        let ack = request.ack.map(|rid| rid.value());
        let (pause, restart, end) = (request.pause, request.restart, request.terminate);
        return format!(in alloc; "ack {ack:?} pause {pause:?} restart {restart} end {end}");
    };
    format!(in alloc; "{creation:?}")
}

fn terms(alloc: Global, request: &Request) -> Result<String, AllocError> {
    let Kind::Creation(creation) = &request.kind else {
        return String::from_str(alloc, "a later request");
    };
    let terms = negotiate(creation);
    format!(in alloc; "{terms:?}")
}

/// The texts of a later request and the places of its stanzas.
fn texts(alloc: Global, request: &Request) -> Result<String, AllocError> {
    let Kind::Later { sid } = &request.kind else {
        return String::from_str(alloc, "a creation");
    };
    let mut told = String::new(alloc);
    push_text(&mut told, "sid", Some(sid))?;
    push_text(&mut told, "key", request.key.as_ref())?;
    push_text(&mut told, "newkey", request.newkey.as_ref())?;
    push_text(&mut told, "stream", request.stream.as_ref())?;
    push_text(&mut told, "to", request.to.as_ref())?;
    told.push_str("stanzas")?;
    for stanza in request.stanzas.as_slice() {
        write!(told, " {}..{}", stanza.start, stanza.end)?;
    }
    Ok(told)
}

fn push_text(told: &mut String, name: &str, text: Option<&Text>) -> Result<(), AllocError> {
    let Some(text) = text else {
        return Ok(());
    };
    let text = str::from_utf8(text.as_slice()).unwrap_or("not UTF-8");
    write!(told, "{name} {text:?} ")
}

fn admitted(alloc: Global, request: &Request) -> Result<String, AllocError> {
    let mut hosts = Vec::new(alloc);
    for name in HOSTS {
        hosts.push(HostName {
            name: Text::from_vec(Vec::from_slice(alloc, name.as_bytes())?),
            greeting: Stanzas::from_vec(Vec::new(alloc)),
        })?;
    }
    let admitted = admit(request, &HostNames::from_vec(hosts));
    format!(in alloc; "{admitted:?}")
}
