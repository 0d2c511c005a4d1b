// Writing a response or a request to a link.
ghost use Rattle.std.specs.Prelude.{◌≡◌, ◌≤◌, ◌++◌, OnOk, OnErr};
ghost use Rattle.std.specs.Io.KnownBytes.{Keeps};
ghost use Rattle.bosh_ports.specs.Faults.{HasRisen};
ghost use Rattle.bosh_ports.specs.Sink.{GivesAll};
ghost use Rattle.bosh_http.specs.Texts.{response_text, response_with, post_text, phrase_of, allow_line, connection_line};

use crate::gathering::{Room, send_gathered};
use bosh_ports::{Link, WriteFault};
use http::StatusCode;
use itoa::Buffer;

/// Writes the messages of a connection: head and content go to the link in one piece where they have at most 16,384 bytes
/// together. It takes no memory but its own room, so it is made once for a connection.
#[derive(Drop)]
pub struct MessageWriter {
    room: Room,
}

impl MessageWriter {
    pub fn new() -> Self {
        MessageWriter { room: Room::new() }
    }

    /// Gives a response with this content. After a fault the link was given a front of its text.
    #[tactic(auto, unfolding(crate::specs::Texts::response_text))]
    pub fn write_response<L: Link>(
        &mut self,
        link: &mut L,
        status: StatusCode,
        body: &[u8],
        closing: bool,
    ) -> Result<(), WriteFault>
        ensures given { GivesAll result (L.given link.old) (L.given link.new) (response_text status body.now closing) }
        ensures left { Keeps (L.left link.old) (L.left link.new) }
        ensures fault { OnErr result (HasRisen (L.faults link.old) (L.faults link.new)) }
        ensures counts { OnOk result (L.faults link.new ≡ L.faults link.old) }
        ensures faults { L.faults link.old ≤ L.faults link.new }
    {
        let head = Head {
            code: status.as_str().as_bytes(),
            phrase: phrase(status).as_bytes(),
            allow: allow(status).as_bytes(),
            connection: connection(closing).as_bytes(),
        };
        send_response(&mut self.room, link, &head, body)
    }

    /// Gives a request with this content. After a fault the link was given a front of its text.
    #[tactic(auto, unfolding(crate::specs::Texts::post_text))]
    pub fn write_post<L: Link>(&mut self, link: &mut L, body: &[u8]) -> Result<(), WriteFault>
        ensures given { GivesAll result (L.given link.old) (L.given link.new) (post_text body.now) }
        ensures left { Keeps (L.left link.old) (L.left link.new) }
        ensures fault { OnErr result (HasRisen (L.faults link.old) (L.faults link.new)) }
        ensures counts { OnOk result (L.faults link.new ≡ L.faults link.old) }
        ensures faults { L.faults link.old ≤ L.faults link.new }
    {
        let mut digits = Buffer::new();
        let parts: [&[u8]; 8] = [
            b"POST /http-bind HTTP/1.1\r\n",
            b"Host: 127.0.0.1\r\n",
            b"Content-Type: text/xml; charset=utf-8\r\n",
            b"Content-Length: ",
            digits.format(body.len()).as_bytes(),
            b"\r\n",
            b"\r\n",
            body,
        ];
        send_gathered(&mut self.room, link, &parts)
    }
}

/// Gives a response with this content. After a fault the link was given a front of its text. It takes no memory.
pub fn write_response<L: Link>(
    link: &mut L,
    status: StatusCode,
    body: &[u8],
    closing: bool,
) -> Result<(), WriteFault>
    ensures given { GivesAll result (L.given link.old) (L.given link.new) (response_text status body.now closing) }
    ensures left { Keeps (L.left link.old) (L.left link.new) }
    ensures fault { OnErr result (HasRisen (L.faults link.old) (L.faults link.new)) }
    ensures counts { OnOk result (L.faults link.new ≡ L.faults link.old) }
    ensures faults { L.faults link.old ≤ L.faults link.new }
{
    MessageWriter::new().write_response(link, status, body, closing)
}

/// Gives a request with this content. After a fault the link was given a front of its text. It takes no memory.
pub fn write_post<L: Link>(link: &mut L, body: &[u8]) -> Result<(), WriteFault>
    ensures given { GivesAll result (L.given link.old) (L.given link.new) (post_text body.now) }
    ensures left { Keeps (L.left link.old) (L.left link.new) }
    ensures fault { OnErr result (HasRisen (L.faults link.old) (L.faults link.new)) }
    ensures counts { OnOk result (L.faults link.new ≡ L.faults link.old) }
    ensures faults { L.faults link.old ≤ L.faults link.new }
{
    MessageWriter::new().write_post(link, body)
}

// What differs between the heads of responses.
#[derive(Drop)]
struct Head<'p> {
    code: &'p [u8],
    phrase: &'p [u8],
    allow: &'p [u8],
    connection: &'p [u8],
}

// Gives a response of these parts.
#[tactic(auto, unfolding(crate::specs::Texts::response_with))]
fn send_response<L: Link>(
    room: &mut Room,
    link: &mut L,
    head: &Head<'_>,
    body: &[u8],
) -> Result<(), WriteFault>
    ensures given { GivesAll result (L.given link.old) (L.given link.new) (response_with head.now.code.now head.now.phrase.now (head.now.allow.now ++ head.now.connection.now) body.now) }
    ensures left { Keeps (L.left link.old) (L.left link.new) }
    ensures fault { OnErr result (HasRisen (L.faults link.old) (L.faults link.new)) }
    ensures counts { OnOk result (L.faults link.new ≡ L.faults link.old) }
    ensures faults { L.faults link.old ≤ L.faults link.new }
{
    let mut digits = Buffer::new();
    let parts: [&[u8]; 13] = [
        b"HTTP/1.1 ",
        head.code,
        b" ",
        head.phrase,
        b"\r\n",
        b"Content-Type: text/xml; charset=utf-8\r\n",
        b"Content-Length: ",
        digits.format(body.len()).as_bytes(),
        b"\r\n",
        head.allow,
        head.connection,
        b"\r\n",
        body,
    ];
    send_gathered(room, link, &parts)
}

// The phrase of a status that a manager answers, and no phrase of any other.
fn phrase(status: StatusCode) -> &'static str
    ensures { result.now ≡ phrase_of status }
{
    match status.as_u16() {
        200 => "OK",
        400 => "Bad Request",
        404 => "Not Found",
        405 => "Method Not Allowed",
        411 => "Length Required",
        413 => "Content Too Large",
        415 => "Unsupported Media Type",
        431 => "Request Header Fields Too Large",
        501 => "Not Implemented",
        503 => "Service Unavailable",
        _ => "",
    }
}

fn allow(status: StatusCode) -> &'static str
    ensures { result.now ≡ allow_line status }
{
    if status.as_u16() == 405 {
        return "Allow: POST\r\n";
    }
    ""
}

fn connection(closing: bool) -> &'static str
    ensures { result.now ≡ connection_line closing }
{
    if closing {
        return "Connection: close\r\n";
    }
    ""
}
