// One exchange with a fault at each call, and ended at each byte: a creation, and a request with a stanza that waits until an echo gave
// it back.
use crate::link::{Manner, RowLink};
use crate::scene::{Scene, TURNS, begin, host, waiting};
use serve_loop::ConnectionEnd;
use session_pump::Hosts;
use std::alloc::{AllocError, Global};
use std::sync::Wait;
use xmpp_backend::{Echo, InMemory};

const FIRST: &[u8] =
    b"POST /http-bind HTTP/1.1\r\nHost: localhost\r\nContent-Length: 108\r\n\r\n<body rid='1000' to='example.org' wait='60' hold='1' ver='1.6' xmlns='http://jabber.org/protocol/httpbind'/>";

const SECOND: &[u8] =
    b"POST /http-bind HTTP/1.1\r\nHost: localhost\r\nContent-Length: 87\r\n\r\n<body rid='1001' sid='s1' xmlns='http://jabber.org/protocol/httpbind'><message/></body>";

/// What becomes of the exchange on one link, and of what is missing on a fresh one.
#[derive(Drop)]
struct Outcome {
    given: Vec<u8>,
    end: Option<ConnectionEnd>,
    takes: u64,
    lengths: Vec<usize>,
    /// How many items wait for the client after one more turn.
    waits: Option<u32>,
    /// What the fresh link was given.
    again: Vec<u8>,
}

/// Both requests, one behind the other.
fn both(alloc: Global) -> Result<Vec<u8>, AllocError> {
    let mut bytes = Vec::from_slice(alloc, FIRST)?;
    bytes.extend_from_slice(SECOND)?;
    Ok(bytes)
}

/// Serves these bytes in this manner. Then, on a fresh link, the second request once more, or both where no session was created.
fn tried<R: Wait + Copy + Drop>(
    rt: &R,
    alloc: Global,
    bytes: &[u8],
    manner: Manner,
) -> Result<Outcome, AllocError> {
    let host = host(alloc, InMemory::Echo(Echo::new(alloc)), Vec::new(alloc))?;
    let hosts = Hosts::new(alloc, vec![in alloc; host]?)?;
    let Scene { place, worker } = begin(rt, alloc, hosts)?;
    let mut worker = worker;
    let mut link = RowLink::new(alloc, bytes, manner)?;
    let end = place.serve(rt, &mut worker, &mut link, TURNS);
    let _ = worker.tools.bell.turn();
    let waits = waiting(rt, &mut worker.own.purse);
    let missing = if waits.is_some() {
        Vec::from_slice(alloc, SECOND)?
    } else {
        both(alloc)?
    };
    let mut fresh = RowLink::new(alloc, missing.as_slice(), Manner::PLAIN)?;
    let _ = place.serve(rt, &mut worker, &mut fresh, TURNS);
    Ok(Outcome {
        given: link.given,
        end,
        takes: link.takes,
        lengths: link.lengths,
        waits,
        again: fresh.given,
    })
}

impl Outcome {
    /// How it ended, what it was given of the whole exchange, and what is otherwise than it should be.
    fn told(&self, alloc: Global, whole: &Outcome) -> Result<String, AllocError> {
        let Some(end) = self.end else {
            return String::from_str(alloc, "no server");
        };
        let given = given_of(alloc, self.given.as_slice(), whole)?;
        let kept = if self.waits.unwrap_or(0) == 0 {
            ""
        } else {
            ", and something waits"
        };
        let again = if self.again.as_slice() == self.missing(whole) {
            ""
        } else {
            ", and otherwise again"
        };
        format!(in alloc; "{end:?} {given}{kept}{again}")
    }

    /// What a fresh link has to be given: the second answer, or both where there was no session.
    fn missing<'w>(&self, whole: &'w Outcome) -> &'w [u8] {
        if self.waits.is_some() {
            return whole.second();
        }
        whole.given.as_slice()
    }

    fn first_length(&self) -> usize {
        self.lengths.first().copied().unwrap_or(0)
    }

    fn second(&self) -> &[u8] {
        self.given.get(self.first_length()..).unwrap_or(&[])
    }
}

const BAD_REQUEST: &[u8] =
    b"HTTP/1.1 400 Bad Request\r\nContent-Type: text/xml; charset=utf-8\r\nContent-Length: 0\r\nConnection: close\r\n\r\n";

/// How many whole answers of the exchange these bytes are, and what follows them.
fn given_of(alloc: Global, given: &[u8], whole: &Outcome) -> Result<String, AllocError> {
    let all = whole.given.as_slice();
    let lengths = [all.len(), whole.first_length(), 0];
    let mut answers: u32 = 2;
    for length in lengths {
        if let Some(rest) = given.strip_prefix(all.get(..length).unwrap_or(all)) {
            let next = all.get(length..).unwrap_or(&[]);
            let rest = rest_of(rest, next);
            return format!(in alloc; "{answers}{rest}");
        }
        answers = answers.saturating_sub(1);
    }
    String::from_str(alloc, "nothing of it")
}

/// What stands behind whole answers, where these bytes would come next.
fn rest_of(rest: &[u8], next: &[u8]) -> &'static str {
    if rest.is_empty() {
        return "";
    }
    if rest == BAD_REQUEST {
        return " and 400";
    }
    if next.starts_with(rest) {
        return " and a part";
    }
    " and other bytes"
}

/// What is told of places one after the other, each range of places of which the same is told once.
#[derive(Drop)]
struct Ranges {
    told: String,
    last: String,
    from: usize,
    to: usize,
}

impl Ranges {
    fn new(alloc: Global) -> Ranges {
        Ranges {
            told: String::new(alloc),
            last: String::new(alloc),
            from: 0,
            to: 0,
        }
    }

    /// This is told of this place.
    fn push(&mut self, alloc: Global, place: usize, what: String) -> Result<(), AllocError> {
        if what.as_str() != self.last.as_str() {
            self.end(alloc)?;
            self.last = what;
            self.from = place;
        }
        self.to = place;
        Ok(())
    }

    /// The range ends.
    fn end(&mut self, alloc: Global) -> Result<(), AllocError> {
        if self.last.is_empty() {
            return Ok(());
        }
        let (from, to, last) = (self.from, self.to, self.last.as_str());
        let range = format!(in alloc; "{from}-{to} {last}; ")?;
        self.told.push_str(range.as_str())
    }
}

/// The exchange with no fault, taken and given in such pieces.
pub fn exchange<R: Wait + Copy + Drop>(rt: &R, alloc: Global) -> Result<String, AllocError> {
    let bytes = both(alloc)?;
    let whole = tried(rt, alloc, bytes.as_slice(), Manner::PLAIN)?;
    let text = str::from_utf8(whole.given.as_slice()).unwrap_or("not UTF-8");
    let (takes, gives) = (whole.takes, whole.lengths.len());
    let told = whole.told(alloc, &whole)?;
    format!(in alloc; "{takes} takes, {gives} gives, {told}: {text:?}")
}

/// What becomes of the exchange where each take fails in turn, and the one after the last.
pub fn takes<R: Wait + Copy + Drop>(
    rt: &R,
    alloc: Global,
    size: usize,
) -> Result<String, AllocError> {
    let bytes = both(alloc)?;
    let whole = tried(rt, alloc, bytes.as_slice(), Manner::PLAIN)?;
    let manner = Manner {
        size,
        ..Manner::PLAIN
    };
    let count = tried(rt, alloc, bytes.as_slice(), manner)?.takes;
    let mut ranges = Ranges::new(alloc);
    for failing_take in 1..=count.saturating_add(1) {
        let manner = Manner {
            failing_take,
            ..manner
        };
        let outcome = tried(rt, alloc, bytes.as_slice(), manner)?;
        ranges.push(alloc, failing_take as usize, outcome.told(alloc, &whole)?)?;
    }
    ranges.end(alloc)?;
    Ok(ranges.told)
}

/// The same where each give fails in turn. What was given is what the gives before it took.
pub fn gives<R: Wait + Copy + Drop>(
    rt: &R,
    alloc: Global,
    most: usize,
) -> Result<String, AllocError> {
    let bytes = both(alloc)?;
    let whole = tried(rt, alloc, bytes.as_slice(), Manner::PLAIN)?;
    let manner = Manner {
        most,
        ..Manner::PLAIN
    };
    let lengths = tried(rt, alloc, bytes.as_slice(), manner)?.lengths;
    let mut ranges = Ranges::new(alloc);
    let mut before = 0usize;
    for place in 1..=lengths.len().saturating_add(1) {
        let manner = Manner {
            failing_give: place as u64,
            ..manner
        };
        let outcome = tried(rt, alloc, bytes.as_slice(), manner)?;
        let mut told = outcome.told(alloc, &whole)?;
        if outcome.given.len() != before {
            told.push_str(", and not all before it")?;
        }
        ranges.push(alloc, place, told)?;
        before = lengths
            .get(place.saturating_sub(1))
            .copied()
            .unwrap_or(before);
    }
    ranges.end(alloc)?;
    Ok(ranges.told)
}

/// What becomes of the exchange where its bytes end at each place, in pieces of this size.
pub fn cuts<R: Wait + Copy + Drop>(
    rt: &R,
    alloc: Global,
    size: usize,
) -> Result<String, AllocError> {
    let bytes = both(alloc)?;
    let whole = tried(rt, alloc, bytes.as_slice(), Manner::PLAIN)?;
    let manner = Manner {
        size,
        ..Manner::PLAIN
    };
    let mut ranges = Ranges::new(alloc);
    for place in 0..=bytes.len() {
        let front = bytes.get(..place).unwrap_or(&[]);
        let outcome = tried(rt, alloc, front, manner)?;
        ranges.push(alloc, place, outcome.told(alloc, &whole)?)?;
    }
    ranges.end(alloc)?;
    Ok(ranges.told)
}
