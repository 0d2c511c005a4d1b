// Reading requests off a link.
ghost use Rattle.std.specs.Prelude.{◌≡◌, ◌≢◌, ◌≤◌, [], ◌++◌, ⊤, IfOk, OnErr, OnOk, Ok};
ghost use Rattle.bosh_http.specs.Reading.{answer_of, ended_answer};

use crate::awaited::Awaited;
use crate::judging::Requests;
use crate::reader::{Came, Front, Reader};
use crate::refusal::HttpRefusal;
use bosh_ports::Link;
use bosh_types::Text;
use std::alloc::{AllocError, Global};
use std::marker::Model;

/// What reading the next request gives.
#[derive(Debug, Drop)]
pub enum HttpIn {
    /// A request with this content. The connection ends after its response, or goes on.
    Request { body: Text, closing: bool },
    /// What comes next is no request that is served. Nothing is let go of.
    Refused(HttpRefusal),
    /// The stream ended between messages.
    End,
    /// The link failed. Nothing is let go of.
    ReadFault,
}

/// Reads the requests of a connection one after the other (RFC 9112, sections 3 and 6): a head of at most 8192 bytes and 64
/// fields, and then as many bytes as its Content-Length says, at most 1,048,576. It is seen as the bytes that it took and
/// that no request has given yet.
#[derive(Drop)]
pub struct RequestReader {
    pub(crate) reader: Reader<Requests>,
}

impl Model for RequestReader {
    ghost use Rattle.std.specs.Prelude.{ℕ, List};

    ghost Value = { List ℕ };

    ghost view = { λ r. r.reader };
}

impl RequestReader {
    ghost use Rattle.std.specs.Io.KnownBytes.{Keeps, prepend_known};
    ghost use Rattle.bosh_ports.specs.Faults.{HasRisen};
    ghost use Rattle.bosh_http.specs.Reading.{Answers, AnswersBy, FrontGives, Reads};
    ghost use Rattle.bosh_http.specs.Taking.{TakesMore};

    /// Takes no memory.
    pub fn new(alloc: Global) -> Self
        ensures { result ≡ [] }
    {
        RequestReader {
            reader: Reader::new(alloc),
        }
    }

    /// What it waits for: where it waits for a message to begin, it has no bytes.
    pub fn awaits(&self) -> Awaited
        ensures { result ≡ Awaited.Message → self.now ≡ [] }
    {
        self.reader.awaits()
    }

    /// Takes these bytes, behind those that it has. An error is want of memory: none of them was taken.
    pub fn give(&mut self, bytes: &[u8]) -> Result<(), AllocError>
        ensures ok { OnOk result (self.new ≡ self.old ++ bytes.now) }
        ensures err { OnErr result (self.new ≡ self.old) }
    {
        self.reader.give(bytes)
    }

    /// What the bytes that have come give, or nothing, where more are wanted. An error is want of memory.
    pub fn front(&mut self, alloc: Global) -> Result<Option<HttpIn>, AllocError>
        ensures front { IfOk result (FrontGives self.old self.new) }
        ensures err { OnErr result (self.new ≡ self.old) }
    {
        match self.reader.front(alloc, false)? {
            Front::Message { body, said } => Ok(Some(HttpIn::Request {
                body,
                closing: said,
            })),
            Front::Wrong(refusal) => Ok(Some(HttpIn::Refused(refusal))),
            Front::More => Ok(None),
        }
    }

    /// What the bytes that have come give, where no more come. An error is want of memory.
    pub fn end(&mut self, alloc: Global) -> Result<HttpIn, AllocError>
        ensures answers { IfOk result (AnswersBy self.old self.new ⊤) }
        ensures fault { result ≢ Ok HttpIn.ReadFault }
        ensures err { OnErr result (self.new ≡ self.old) }
    {
        let came = self.reader.last(alloc)?;
        Ok(answer(came, self.reader.len()))
    }

    /// Reads the next request off a link, in whatever pieces its bytes come. An error is want of memory: the reader then has
    /// all the bytes that it took, and may be called again.
    pub fn next<L: Link>(&mut self, alloc: Global, link: &mut L) -> Result<HttpIn, AllocError>
        // Where the link tells its bytes, the answer is by the whole rest of the stream, and what no request gave stays.
        ensures reads { IfOk result (Reads (prepend_known self.old (L.left link.old)) (prepend_known self.new (L.left link.new))) }

        // By any link, the answer is by the bytes that had come: a refusal needs no more of them, or the stream has ended.
        ensures answers { IfOk result (Answers (L.left link.old) (L.left link.new) self.old self.new) }

        // Want of memory loses nothing: what was taken stands after what was kept.
        ensures kept { OnErr result (TakesMore (L.left link.old) (L.left link.new) self.old self.new) }

        ensures given { Keeps (L.given link.old) (L.given link.new) }
        ensures fault { result ≡ Ok HttpIn.ReadFault → HasRisen (L.faults link.old) (L.faults link.new) }
        ensures quiet { result ≢ Ok HttpIn.ReadFault → L.faults link.new ≡ L.faults link.old }
        ensures faults { L.faults link.old ≤ L.faults link.new }
    {
        let came = self.reader.next(alloc, link)?;
        Ok(answer(came, self.reader.len()))
    }
}

// What was read as an answer, where so many bytes are kept.
fn answer(came: Came<bool, HttpRefusal>, count: usize) -> HttpIn
    ensures { result ≡ answer_of count came }
{
    match came {
        Came::Message { body, said } => HttpIn::Request {
            body,
            closing: said,
        },
        Came::Wrong(refusal) => HttpIn::Refused(refusal),
        Came::Ended => ended(count),
        Came::Failed => HttpIn::ReadFault,
    }
}

// What is answered where the stream ended and no request is whole in so many bytes.
#[tactic(auto, unfolding(crate::specs::Reading::ended_answer))]
pub(crate) fn ended(count: usize) -> HttpIn
    ensures { result ≡ ended_answer count }
{
    match count {
        0 => HttpIn::End,
        _ => HttpIn::Refused(HttpRefusal::Cut(count)),
    }
}
