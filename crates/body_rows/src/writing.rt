// Rows of bodies that are written: each word of a row is one part of the body, by its name and its text.

use body_writer::{
    AnswerKind, AnswerParts, Created, RequestParts, write_answer, write_refusal, write_request,
};
use bosh_types::{Condition, Key, Rid, Stanzas, StreamNo, Terms, Text};
use row_text::bytes_of;
use std::alloc::{AllocError, Global};

const TERMS: Terms = Terms {
    wait: 60,
    hold: 1,
    requests: 2,
    inactivity: 30,
    polling: 5,
    maxpause: 120,
    version: (1, 6),
    polled: false,
};

const CONDITIONS: [Condition; 4] = [
    Condition::BadRequest,
    Condition::ItemNotFound,
    Condition::RemoteConnectionFailed,
    Condition::UndefinedCondition,
];

/// The text of a refusal for this condition.
pub fn refuse(alloc: Global, row: &str) -> Result<String, AllocError> {
    let Some(condition) = condition_of(Some(row)) else {
        return String::from_str(alloc, "no such condition");
    };
    shown(alloc, &write_refusal(alloc, condition)?)
}

/// The text of an answer with these parts.
pub fn answer(alloc: Global, row: &str) -> Result<String, AllocError> {
    let parts = AnswerParts {
        created: created_in(alloc, row)?,
        kind: match value_in(row, "terminate") {
            Some(_) => AnswerKind::Terminate,
            None => AnswerKind::Usual,
        },
        condition: condition_of(value_in(row, "condition")),
        stream: stream_in(row),
        ack: rid_in(row, "ack"),
        report: report_in(row),
        payloads: payloads_in(alloc, row)?,
    };
    shown(alloc, &write_answer(alloc, &parts)?)
}

/// The text of a request with these parts.
pub fn ask(alloc: Global, row: &str) -> Result<String, AllocError> {
    let Some(rid) = rid_in(row, "rid") else {
        return String::from_str(alloc, "no request id");
    };
    let parts = RequestParts {
        rid,
        sid: text_in(alloc, row, "sid")?,
        stream: stream_in(row),
        to: text_in(alloc, row, "add")?,
        creation: creation_in(alloc, row)?,
        ack: number_in(row, "ack"),
        key: key_in(alloc, row, "key")?,
        newkey: key_in(alloc, row, "newkey")?,
        pause: seconds_in(row, "pause"),
        terminate: value_in(row, "terminate").is_some(),
        restart: value_in(row, "restart").is_some(),
        payloads: payloads_in(alloc, row)?,
    };
    shown(alloc, &write_request(alloc, &parts)?)
}

fn shown(alloc: Global, text: &Text) -> Result<String, AllocError> {
    let text = str::from_utf8(text.as_slice()).unwrap_or("not UTF-8");
    String::from_str(alloc, text)
}

/// What stands behind the name of a part and `=`.
fn value_in<'a>(row: &'a str, name: &str) -> Option<&'a str> {
    for word in row.split(' ') {
        let (first, value) = match word.split_once('=') {
            Some(parts) => parts,
            None => (word, ""),
        };
        if first == name {
            return Some(value);
        }
    }
    None
}

fn number_in(row: &str, name: &str) -> Option<u64> {
    value_in(row, name)?.parse().ok()
}

fn seconds_in(row: &str, name: &str) -> Option<u32> {
    value_in(row, name)?.parse().ok()
}

fn rid_in(row: &str, name: &str) -> Option<Rid> {
    Rid::new(number_in(row, name)?)
}

fn report_in(row: &str) -> Option<(Rid, u64)> {
    Some((rid_in(row, "report")?, number_in(row, "time")?))
}

fn condition_of(name: Option<&str>) -> Option<Condition> {
    let name = name?;
    for condition in CONDITIONS {
        if condition.name() == name {
            return Some(condition);
        }
    }
    None
}

fn text_of(alloc: Global, value: &str) -> Result<Text, AllocError> {
    match bytes_of(alloc, value)? {
        Some(bytes) => Ok(Text::from_vec(bytes)),
        None => Ok(Text::from_vec(Vec::new(alloc))),
    }
}

fn stream_in(row: &str) -> Option<StreamNo> {
    let number = u16::try_from(number_in(row, "stream")?);
    StreamNo::new(number.ok()?)
}

fn text_in(alloc: Global, row: &str, name: &str) -> Result<Option<Text>, AllocError> {
    match value_in(row, name) {
        Some(value) => Ok(Some(text_of(alloc, value)?)),
        None => Ok(None),
    }
}

fn key_in(alloc: Global, row: &str, name: &str) -> Result<Option<Key>, AllocError> {
    match text_in(alloc, row, name)? {
        Some(text) => Ok(Key::read(text.as_slice())),
        None => Ok(None),
    }
}

/// The host that a creation names, its wait and its hold.
fn creation_in(alloc: Global, row: &str) -> Result<Option<(Text, u32, u32)>, AllocError> {
    let Some(wait) = seconds_in(row, "wait") else {
        return Ok(None);
    };
    let Some(hold) = seconds_in(row, "hold") else {
        return Ok(None);
    };
    match text_in(alloc, row, "to")? {
        Some(to) => Ok(Some((to, wait, hold))),
        None => Ok(None),
    }
}

/// What an answer tells of a session that was created: its id and its host.
fn created_in(alloc: Global, row: &str) -> Result<Option<Created>, AllocError> {
    let Some(sid) = text_in(alloc, row, "sid")? else {
        return Ok(None);
    };
    match text_in(alloc, row, "from")? {
        Some(from) => Ok(Some(Created {
            sid,
            terms: TERMS,
            from,
        })),
        None => Ok(None),
    }
}

fn payloads_in(alloc: Global, row: &str) -> Result<Stanzas, AllocError> {
    let mut payloads = Vec::new(alloc);
    for word in row.split(' ') {
        if let Some(payload) = word.strip_prefix("payload=") {
            payloads.push(text_of(alloc, payload)?)?;
        }
    }
    Ok(Stanzas::from_vec(payloads))
}
