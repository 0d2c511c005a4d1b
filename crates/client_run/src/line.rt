// A link to the manager, with what was read of it.
ghost use Rattle.std.specs.Prelude.{◌≡◌, ℕ, []};
ghost use Rattle.bosh_http.specs.declared.responding.ResponseIn.TheVariants.{Status};
ghost use Rattle.client_run.specs.Lines.{HearsBy, IsHeard};
ghost use Rattle.client_run.specs.Working.{wire_of};

use crate::fault::Fault;
use bosh_http::{MessageWriter, ResponseIn, ResponseReader};
use bosh_ports::{Link, WriteFault};
use bosh_types::Text;
use std::alloc::{AllocError, Global};

/// A link on which requests are sent one after the other, each once the one before it has its response.
#[derive(Drop)]
pub(crate) struct Line<L> {
    pub(crate) link: L,
    pub(crate) reader: ResponseReader,
    writer: MessageWriter,
}

/// What came of a request.
#[derive(Drop)]
pub(crate) enum Heard {
    /// The content of a response with status 200.
    Body(Text),
    /// A response with this other status.
    Refused(u16),
    /// No response, or the end of the stream.
    Nothing,
    Fault(Fault),
    NoMemory,
}

impl<L: Link> Line<L> {
    pub(crate) fn new(alloc: Global, link: L) -> Line<L>
        ensures link { result.link ≡ link }
        ensures reader { result.reader ≡ [] }
    {
        Line {
            link,
            reader: ResponseReader::new(alloc),
            writer: MessageWriter::new(),
        }
    }

    /// Sends the request with this body, and reads the response to it.
    pub(crate) fn exchange(&mut self, alloc: Global, body: &[u8]) -> Heard
        requires { L.faults self.old.link ≡ 0 }
        ensures { HearsBy (wire_of (L.left self.old.link) (L.given self.old.link) self.old.reader)
            (wire_of (L.left self.new.link) (L.given self.new.link) self.new.reader) body.now (L.faults self.new.link) result }
    {
        match self.writer.write_post(&mut self.link, body) {
            Ok(()) => self.hear(alloc),
            Err(WriteFault) => Heard::Fault(Fault::Write),
        }
    }

    // Reads the next response.
    fn hear(&mut self, alloc: Global) -> Heard
        requires { L.faults self.old.link ≡ 0 }
        ensures { IsHeard (wire_of (L.left self.old.link) (L.given self.old.link) self.old.reader)
            (wire_of (L.left self.new.link) (L.given self.new.link) self.new.reader) (L.faults self.new.link) result }
    {
        let response = match self.reader.next(alloc, &mut self.link) {
            Ok(response) => response,
            Err(AllocError) => return Heard::NoMemory,
        };
        let status = status_of(&response);
        match response {
            ResponseIn::Body(text) => Heard::Body(text),
            ResponseIn::Status(_) => Heard::Refused(status),
            ResponseIn::Bad => Heard::Nothing,
            ResponseIn::End => Heard::Nothing,
            ResponseIn::ReadFault => Heard::Fault(Fault::Read),
        }
    }

    /// The link alone.
    pub(crate) fn into_link(self) -> L
        ensures { result ≡ self.link }
    {
        let Line {
            link,
            reader: _,
            writer: _,
        } = self;
        link
    }
}

// The status of a response that has another one than 200.
fn status_of(response: &ResponseIn) -> u16
    ensures { (status : ℕ) → response.now ≡ Status status → result ≡ status }
{
    match response {
        ResponseIn::Status(status) => status.as_u16(),
        ResponseIn::Body(_) => 0,
        ResponseIn::Bad => 0,
        ResponseIn::End => 0,
        ResponseIn::ReadFault => 0,
    }
}
