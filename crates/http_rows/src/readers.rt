// What a reader answers, in words.

use bosh_http::{HttpFed, HttpIn, RequestReader, ResponseIn, ResponseReader};
use bosh_ports::{KeptContent, MemoryLink};
use std::alloc::{AllocError, Global};

/// What is read: requests, requests whose contents are fed while they come, or responses.
#[derive(Clone, Copy)]
pub enum Reading {
    Requests,
    Fed,
    Responses,
}

/// A reader of either.
#[derive(Drop)]
pub struct Reader {
    reading: Reading,
    requests: RequestReader,
    responses: ResponseReader,
}

impl Reader {
    pub fn new(alloc: Global, reading: Reading) -> Self {
        Reader {
            reading,
            requests: RequestReader::new(alloc),
            responses: ResponseReader::new(alloc),
        }
    }

    /// The next answer over a link.
    pub fn next(&mut self, alloc: Global, link: &mut MemoryLink) -> Result<String, AllocError> {
        match self.reading {
            Reading::Requests => {
                let answer = self.requests.next(alloc, link)?;
                request_answer(alloc, &answer)
            }
            Reading::Fed => fed_answer(alloc, &mut self.requests, link),
            Reading::Responses => {
                let answer = self.responses.next(alloc, link)?;
                response_answer(alloc, &answer)
            }
        }
    }

    /// Takes bytes behind those that it has.
    pub fn give(&mut self, bytes: &[u8]) -> Result<(), AllocError> {
        match self.reading {
            Reading::Responses => self.responses.give(bytes),
            _ => self.requests.give(bytes),
        }
    }

    /// What stands at the front, or nothing, where more is wanted.
    pub fn front(&mut self, alloc: Global) -> Result<Option<String>, AllocError> {
        if let Reading::Responses = self.reading {
            return match self.responses.front(alloc)? {
                Some(answer) => Ok(Some(response_answer(alloc, &answer)?)),
                None => Ok(None),
            };
        }
        match self.requests.front(alloc)? {
            Some(answer) => Ok(Some(request_answer(alloc, &answer)?)),
            None => Ok(None),
        }
    }

    /// The answer where no more bytes come.
    pub fn end(&mut self, alloc: Global) -> Result<String, AllocError> {
        match self.reading {
            Reading::Responses => {
                let answer = self.responses.end(alloc)?;
                response_answer(alloc, &answer)
            }
            _ => {
                let answer = self.requests.end(alloc)?;
                request_answer(alloc, &answer)
            }
        }
    }
}

fn request_answer(alloc: Global, answer: &HttpIn) -> Result<String, AllocError> {
    match answer {
        HttpIn::Request { body, closing } => content(alloc, body.as_slice(), *closing),
        HttpIn::Refused(refusal) => format!(in alloc; "{refusal:?}"),
        HttpIn::End => String::from_str(alloc, "End"),
        HttpIn::ReadFault => String::from_str(alloc, "ReadFault"),
    }
}

fn response_answer(alloc: Global, answer: &ResponseIn) -> Result<String, AllocError> {
    match answer {
        ResponseIn::Body(body) => content(alloc, body.as_slice(), false),
        ResponseIn::Status(status) => {
            let code = status.as_u16();
            format!(in alloc; "{code}")
        }
        ResponseIn::Bad => String::from_str(alloc, "Bad"),
        ResponseIn::End => String::from_str(alloc, "End"),
        ResponseIn::ReadFault => String::from_str(alloc, "ReadFault"),
    }
}

fn fed_answer(
    alloc: Global,
    reader: &mut RequestReader,
    link: &mut MemoryLink,
) -> Result<String, AllocError> {
    let mut feed = KeptContent::new(alloc);
    match reader.next_fed(link, &mut feed)? {
        HttpFed::Request { closing } => content(alloc, feed.into_vec().as_slice(), closing),
        HttpFed::Refused(refusal) => format!(in alloc; "{refusal:?}"),
        HttpFed::End => String::from_str(alloc, "End"),
        HttpFed::ReadFault => String::from_str(alloc, "ReadFault"),
    }
}

/// A content in quotes, and `closing` where the connection ends after it.
fn content(alloc: Global, bytes: &[u8], closing: bool) -> Result<String, AllocError> {
    let text = str::from_utf8(bytes).unwrap_or("not UTF-8");
    let after = if closing { " closing" } else { "" };
    format!(in alloc; "{text:?}{after}")
}
