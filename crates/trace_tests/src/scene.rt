// A server that is seen, step by step: the session 5 with the name `k-5`, of the host `a`, which greets.
use crate::pages::Pages;
use bosh_types::{SharedText, Stanzas, Text};
use serve_trace::{Batch, Greeting, Noted, Recorder, Seen, Tap, TraceQueue};
use std::alloc::{AllocError, Global};
use std::sync::{Arc, Wait};

/// How many connections there are.
pub const CONNECTIONS: usize = 3;

/// What is seen.
#[derive(Clone, Copy, Debug, PartialEq, Eq)]
pub enum Step {
    /// A creation with this id comes on a connection.
    Create(usize, u64),
    /// It is answered with the session's name and this content.
    Created(usize, &'static str),
    /// A later request with this id and content comes.
    Post(usize, u64, &'static str),
    /// A request for another session of that number comes.
    Strange(usize, u64),
    /// The next request of the connection is answered with this content.
    Answer(usize, &'static str),
    /// It is answered with a terminal body.
    Ended(usize),
    /// The back end gave this.
    Gave(&'static str),
    /// It was passed this.
    In(&'static str),
    /// It was passed a restart.
    Restarted,
    /// Its wire was closed.
    Closed,
}

/// Who sees it.
#[derive(Drop)]
pub struct Scene {
    alloc: Global,
    pub queue: Arc<TraceQueue>,
    taps: Vec<Tap>,
    batch: Batch,
    pub recorder: Recorder<Pages>,
}

const SPACE: &str = "xmlns='http://jabber.org/protocol/httpbind'";

/// A request as it comes on a connection.
pub fn post(alloc: Global, body: &str) -> Result<String, AllocError> {
    let length = body.len();
    format!(in alloc;
        "POST /http-bind HTTP/1.1\r\nHost: a\r\nContent-Length: {length}\r\n\r\n{body}"
    )
}

/// A response as it is given to a connection.
pub fn response(alloc: Global, body: &str) -> Result<String, AllocError> {
    let length = body.len();
    format!(in alloc; "HTTP/1.1 200 OK\r\nContent-Length: {length}\r\n\r\n{body}")
}

fn text(alloc: Global, bytes: &str) -> Result<Text, AllocError> {
    Ok(Text::from_vec(Vec::from_slice(alloc, bytes.as_bytes())?))
}

fn shared(alloc: Global, bytes: &str) -> Result<SharedText, AllocError> {
    SharedText::new(alloc, text(alloc, bytes)?)
}

fn greetings(alloc: Global) -> Result<Vec<Greeting>, AllocError> {
    let mut stanzas = Vec::new(alloc);
    stanzas.push(text(alloc, "<hello/>")?)?;
    let mut greetings = Vec::new(alloc);
    greetings.push(Greeting {
        name: text(alloc, "a")?,
        stanzas: Stanzas::from_vec(stanzas),
    })?;
    Ok(greetings)
}

impl Scene {
    pub fn new(alloc: Global) -> Result<Scene, AllocError> {
        let queue = TraceQueue::new(alloc)?;
        let mut taps = Vec::new(alloc);
        for _ in 0..CONNECTIONS {
            taps.push(Tap::new(alloc, Arc::try_clone(&queue)?))?;
        }
        Ok(Scene {
            alloc,
            queue,
            taps,
            batch: Batch::new(alloc),
            recorder: Recorder::new(alloc, Pages::new(alloc), greetings(alloc)?),
        })
    }

    /// What is seen, step by step, and all of it heard at this moment.
    pub fn see<R: Wait>(&mut self, rt: &R, steps: &[Step], now: u64) -> Result<(), AllocError> {
        for step in steps {
            self.take_step(rt, *step)?;
        }
        self.hear(rt, now);
        Ok(())
    }

    /// What was noted is heard at this moment.
    pub fn hear<R: Wait>(&mut self, rt: &R, now: u64) {
        self.queue.take_now(rt, &mut self.batch);
        self.recorder.hear(&mut self.batch, now);
    }

    /// The trace of the session.
    pub fn page(&self) -> &[u8] {
        self.recorder.paper().page(5)
    }

    fn take_step<R: Wait>(&mut self, rt: &R, step: Step) -> Result<(), AllocError> {
        let alloc = self.alloc;
        match step {
            Step::Create(on, rid) => {
                let body = format!(in alloc; "<body rid='{rid}' to='a' {SPACE}/>")?;
                self.took(rt, on, body.as_str())
            }
            Step::Created(on, content) => {
                let body = format!(in alloc; "<body sid='k-5' {SPACE}>{content}</body>")?;
                self.gave(rt, on, body.as_str())
            }
            Step::Post(on, rid, content) => {
                let body = format!(in alloc;
                    "<body rid='{rid}' sid='k-5' {SPACE}>{content}</body>"
                )?;
                self.took(rt, on, body.as_str())
            }
            Step::Strange(on, rid) => {
                let body = format!(in alloc; "<body rid='{rid}' sid='j-5' {SPACE}/>")?;
                self.took(rt, on, body.as_str())
            }
            Step::Answer(on, content) => {
                let body = format!(in alloc; "<body {SPACE}>{content}</body>")?;
                self.gave(rt, on, body.as_str())
            }
            Step::Ended(on) => {
                let body = format!(in alloc; "<body type='terminate' {SPACE}/>")?;
                self.gave(rt, on, body.as_str())
            }
            Step::Gave(stanza) => self.note(rt, Seen::Gave(shared(alloc, stanza)?)),
            Step::In(stanza) => self.note(rt, Seen::Passed(shared(alloc, stanza)?)),
            Step::Restarted => self.note(rt, Seen::Restarted),
            Step::Closed => self.note(rt, Seen::Closed),
        }
    }

    fn note<R: Wait>(&mut self, rt: &R, seen: Seen) -> Result<(), AllocError> {
        self.queue.note(rt, Noted { number: 5, seen });
        Ok(())
    }

    // A request comes in two pieces.
    fn took<R: Wait>(&mut self, rt: &R, on: usize, body: &str) -> Result<(), AllocError> {
        let message = post(self.alloc, body)?;
        if let Some(tap) = self.taps.get_mut(on) {
            let (front, back) = in_two(message.as_bytes());
            tap.took(rt, front);
            tap.took(rt, back);
        }
        Ok(())
    }

    fn gave<R: Wait>(&mut self, rt: &R, on: usize, body: &str) -> Result<(), AllocError> {
        let message = response(self.alloc, body)?;
        if let Some(tap) = self.taps.get_mut(on) {
            let (front, back) = in_two(message.as_bytes());
            tap.gave(rt, front);
            tap.gave(rt, back);
        }
        Ok(())
    }
}

// A message in two pieces, of which the first ends in its head.
fn in_two(message: &[u8]) -> (&[u8], &[u8]) {
    message.split_at(message.len().min(20))
}
