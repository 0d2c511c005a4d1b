// Reading responses off a link.
ghost use Rattle.std.specs.Prelude.{◌≡◌, ◌≢◌, ◌≤◌, [], ◌++◌, ⊤, IfOk, OnErr, OnOk, Ok};
ghost use Rattle.bosh_http.specs.Responding.{answered, front_response, response_of};

use crate::heading::Responses;
use crate::reader::{Came, Front, Reader};
use bosh_ports::Link;
use bosh_types::Text;
use http::StatusCode;
use std::alloc::{AllocError, Global};
use std::marker::Model;

/// What reading the next response gives.
#[derive(Debug, Drop)]
pub enum ResponseIn {
    /// A response with status 200 and this content.
    Body(Text),
    /// A response with another status. Its content is passed over.
    Status(StatusCode),
    /// What comes next is no response that is read. Nothing is let go of.
    Bad,
    /// The stream ended before a whole response. Nothing is let go of.
    End,
    /// The link failed. Nothing is let go of.
    ReadFault,
}

/// Reads the responses of a connection one after the other (RFC 9112, section 4): a head of at most 8192 bytes and 64
/// fields with a status from 100 to 999, one Content-Length of at most 1,048,576 and no Transfer-Encoding, and then so many
/// bytes. It is seen as the bytes that it took and that no response has given yet.
#[derive(Drop)]
pub struct ResponseReader {
    reader: Reader<Responses>,
}

impl Model for ResponseReader {
    ghost use Rattle.std.specs.Prelude.{ℕ, List};

    ghost Value = { List ℕ };

    ghost view = { λ r. r.reader };
}

impl ResponseReader {
    ghost use Rattle.std.specs.Io.KnownBytes.{Keeps, prepend_known};
    ghost use Rattle.bosh_ports.specs.Faults.{HasRisen};
    ghost use Rattle.bosh_http.specs.Responding.{FrontResponds, Responds, RespondsBy, ReadsBack};
    ghost use Rattle.bosh_http.specs.Taking.{TakesMore};

    /// Takes no memory.
    pub fn new(alloc: Global) -> Self
        ensures { result ≡ [] }
    {
        ResponseReader {
            reader: Reader::new(alloc),
        }
    }

    /// Takes these bytes, behind those that it has. An error is want of memory: none of them was taken.
    pub fn give(&mut self, bytes: &[u8]) -> Result<(), AllocError>
        ensures ok { OnOk result (self.new ≡ self.old ++ bytes.now) }
        ensures err { OnErr result (self.new ≡ self.old) }
    {
        self.reader.give(bytes)
    }

    /// What the bytes that have come give, or nothing, where more are wanted. An error is want of memory.
    pub fn front(&mut self, alloc: Global) -> Result<Option<ResponseIn>, AllocError>
        ensures front { IfOk result (FrontResponds self.old self.new) }
        ensures err { OnErr result (self.new ≡ self.old) }
    {
        let front = self.reader.front(alloc, false)?;
        Ok(front_answer(front))
    }

    /// What the bytes that have come give, where no more come. An error is want of memory.
    pub fn end(&mut self, alloc: Global) -> Result<ResponseIn, AllocError>
        ensures responds { IfOk result (RespondsBy self.old self.new ⊤) }
        ensures fault { result ≢ Ok ResponseIn.ReadFault }
        ensures err { OnErr result (self.new ≡ self.old) }
    {
        let came = self.reader.last(alloc)?;
        Ok(answer(came))
    }

    /// Reads the next response off a link, in whatever pieces its bytes come. An error is want of memory: the reader then
    /// has all the bytes that it took, and may be called again.
    pub fn next<L: Link>(&mut self, alloc: Global, link: &mut L) -> Result<ResponseIn, AllocError>
        // Where the link tells its bytes, the answer is by the whole rest of the stream, and what no response gave stays.
        ensures reads { IfOk result (ReadsBack (prepend_known self.old (L.left link.old)) (prepend_known self.new (L.left link.new))) }

        // By any link, the answer is by the bytes that had come.
        ensures answers { IfOk result (Responds (L.left link.old) (L.left link.new) self.old self.new) }

        // Want of memory loses nothing: what was taken stands after what was kept.
        ensures kept { OnErr result (TakesMore (L.left link.old) (L.left link.new) self.old self.new) }

        ensures given { Keeps (L.given link.old) (L.given link.new) }
        ensures fault { result ≡ Ok ResponseIn.ReadFault → HasRisen (L.faults link.old) (L.faults link.new) }
        ensures quiet { result ≢ Ok ResponseIn.ReadFault → L.faults link.new ≡ L.faults link.old }
        ensures faults { L.faults link.old ≤ L.faults link.new }
    {
        let came = self.reader.next(alloc, link)?;
        Ok(answer(came))
    }
}

// What stands at the front as an answer.
fn front_answer(front: Front<StatusCode, ()>) -> Option<ResponseIn>
    ensures { result ≡ front_response front }
{
    match front {
        Front::Message { body, said } => Some(answered(said, body)),
        Front::Wrong(()) => Some(ResponseIn::Bad),
        Front::More => None,
    }
}

// What was read as an answer.
fn answer(came: Came<StatusCode, ()>) -> ResponseIn
    ensures { result ≡ response_of came }
{
    match came {
        Came::Message { body, said } => answered(said, body),
        Came::Wrong(()) => ResponseIn::Bad,
        Came::Ended => ResponseIn::End,
        Came::Failed => ResponseIn::ReadFault,
    }
}

// What is answered by a response: its content, or another status than 200.
#[tactic(auto, unfolding(crate::specs::Responding::answered))]
fn answered(status: StatusCode, body: Text) -> ResponseIn
    ensures { result ≡ answered status body }
{
    if status.as_u16() == 200 {
        return ResponseIn::Body(body);
    }
    ResponseIn::Status(status)
}
