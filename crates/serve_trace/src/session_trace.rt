// The lines of one session, in an order in which each keeps its rule where the server does.
ghost use Rattle.std.specs.Prelude.{◌≡◌, ◌↔◌, ◌<◌, ◌≤◌, Contains, true};
ghost use Rattle.std.specs.Str.{bytes_eq};

use crate::noted::{Answer, Copy, Opening};
use crate::order::{Place, is_due, place_of};
use crate::remark::Remark;
use bosh_types::Text;
use std::alloc::Global;

/// How many lines a trace has at most before its line `end`.
const MOST_LINES: u64 = 999_999;

/// How many copies, and how many answers, are held at most.
const MOST_HELD: usize = 64;

/// How many bytes these have at most.
const MOST_HELD_BYTES: usize = 4_194_304;

/// What was written of one session, and what is held since something that belongs before it isn't there yet.
#[derive(Drop)]
pub struct SessionTrace {
    alloc: Global,
    sid: Text,
    first: u64,
    /// The lowest id whose request wasn't written.
    next: u64,
    /// The lowest id without an answer that counts.
    unanswered: u64,
    copies: Vec<Copy>,
    answers: Vec<Answer>,
    held: usize,
    lines: u64,
    ghost ordered: { first ≤ next },
}

// Whether one more of so many bytes may be held.
fn has_room(count: usize, held: usize, more: usize) -> bool
    ensures { (result ≡ true) ↔ ((count < 64) × (held ≤ 4194304) × (more ≤ 4194304)) }
{
    if count >= MOST_HELD {
        return false;
    }
    held <= MOST_HELD_BYTES && more <= MOST_HELD_BYTES
}

// Whether a text stands in one line.
fn is_one_line(text: &[u8]) -> bool
    ensures { (result ≡ true) ↔ (Contains text.now 10 → ⊥) }
{
    !text.contains(&b'\n')
}

// Takes the first of these copies that may be written.
fn take_copy(copies: &mut Vec<Copy>, next: u64) -> Option<Copy> {
    let place = copies.iter().position(|copy| copy.rid <= next)?;
    if place >= copies.len() {
        return None;
    }
    Some(copies.remove(place))
}

// Takes the first of these answers that may be written.
fn take_answer(answers: &mut Vec<Answer>, next: u64, unanswered: u64) -> Option<Answer> {
    let place = answers.iter().position(|answer| is_due(
        next,
        unanswered,
        answer.rid,
        answer.is_typed,
    ))?;
    if place >= answers.len() {
        return None;
    }
    Some(answers.remove(place))
}

impl SessionTrace {
    /// The trace of a session that was opened: what its host greeted with, and its creation.
    pub fn begin(
        alloc: Global,
        out: &mut Vec<u8>,
        opening: &Opening,
        greeting: &[Text],
    ) -> Result<SessionTrace, Remark> {
        let mut trace = SessionTrace {
            alloc,
            sid: Text::from_vec(Vec::from_slice(alloc, opening.sid.as_slice())?),
            first: opening.rid,
            next: opening.rid,
            unanswered: opening.rid,
            copies: Vec::new(alloc),
            answers: Vec::new(alloc),
            held: 0,
            lines: 0,
        };
        for stanza in greeting {
            trace.gave(out, stanza.as_slice())?;
        }
        trace.tell_next(out, opening.is_plain, opening.body.as_slice())?;
        Ok(trace)
    }

    /// Whether this is the session's name, byte for byte.
    pub fn is_named(&self, sid: &[u8]) -> bool
        ensures { result ≡ bytes_eq sid.now self.now.sid }
    {
        sid == self.sid.as_slice()
    }

    /// The server gave this stanza.
    pub fn gave(&mut self, out: &mut Vec<u8>, stanza: &[u8]) -> Result<(), Remark> {
        self.line(out, &[b"gave ", stanza])
    }

    /// This went inward: a stanza, or `restart`.
    pub fn passed(&mut self, out: &mut Vec<u8>, item: &[u8]) -> Result<(), Remark> {
        self.line(out, &[b"in ", item])
    }

    /// A copy of a later request came. One beyond a gap is held, and told once those below it are.
    pub fn came(&mut self, out: &mut Vec<u8>, copy: Copy) -> Result<(), Remark> {
        match place_of(self.first, self.next, copy.rid) {
            Place::Low => Err(Remark::LowId),
            Place::Again => self.line(out, &[b"came ", copy.body.as_slice()]),
            Place::Next => {
                self.tell_next(out, copy.is_plain, copy.body.as_slice())?;
                self.tell_copies(out)?;
                self.tell_answers(out)
            }
            Place::Beyond => self.hold_copy(copy),
        }
    }

    /// An answer was given. One that is before its turn is held.
    pub fn answered(&mut self, out: &mut Vec<u8>, answer: Answer) -> Result<(), Remark> {
        if !is_due(self.next, self.unanswered, answer.rid, answer.is_typed) {
            return self.hold_answer(answer);
        }
        self.tell_answer(out, &answer)?;
        self.tell_answers(out)
    }

    /// Nothing more is written, for this reason if there is one.
    pub fn end(&self, out: &mut Vec<u8>, remark: Option<Remark>) -> Result<(), Remark> {
        out.extend_from_slice(b"end\n")?;
        if let Some(remark) = remark {
            out.extend_from_slice(b"# ")?;
            out.extend_from_slice(remark.text().as_bytes())?;
            out.extend_from_slice(b"\n")?;
        }
        Ok(())
    }

    // One line of these parts.
    fn line(&mut self, out: &mut Vec<u8>, parts: &[&[u8]]) -> Result<(), Remark> {
        if self.lines >= MOST_LINES {
            return Err(Remark::Lines);
        }
        for part in parts {
            if !is_one_line(part) {
                return Err(Remark::LineFeed);
            }
        }
        let start = out.len();
        for part in parts {
            if out.extend_from_slice(part).is_err() {
                out.truncate(start);
                return Err(Remark::NoMemory);
            }
        }
        if out.extend_from_slice(b"\n").is_err() {
            out.truncate(start);
            return Err(Remark::NoMemory);
        }
        self.lines = self.lines.saturating_add(1);
        Ok(())
    }

    // The request with the next id was sent, and came.
    fn tell_next(&mut self, out: &mut Vec<u8>, is_plain: bool, body: &[u8]) -> Result<(), Remark> {
        if !is_plain {
            return Err(Remark::OtherStream);
        }
        self.line(out, &[b"sent ", body])?;
        self.line(out, &[b"came ", body])?;
        self.next = self.next.saturating_add(1);
        Ok(())
    }

    // An answer was written.
    fn tell_answer(&mut self, out: &mut Vec<u8>, answer: &Answer) -> Result<(), Remark> {
        let rid = format!(in self.alloc; "{}", answer.rid)?;
        self.line(
            out,
            &[b"answer ", rid.as_bytes(), b" ", answer.body.as_slice()],
        )?;
        if !answer.is_typed && answer.rid == self.unanswered {
            self.unanswered = self.unanswered.saturating_add(1);
        }
        Ok(())
    }

    // Tells all copies that are held for no longer.
    fn tell_copies(&mut self, out: &mut Vec<u8>) -> Result<(), Remark> {
        for _ in 0..self.copies.len() {
            let Some(copy) = take_copy(&mut self.copies, self.next) else {
                return Ok(());
            };
            self.held = self.held.saturating_sub(copy.body.len());
            match place_of(self.first, self.next, copy.rid) {
                Place::Next => self.tell_next(out, copy.is_plain, copy.body.as_slice())?,
                _ => self.line(out, &[b"came ", copy.body.as_slice()])?,
            }
        }
        Ok(())
    }

    // Tells all answers that are held for no longer.
    fn tell_answers(&mut self, out: &mut Vec<u8>) -> Result<(), Remark> {
        for _ in 0..self.answers.len() {
            let found = take_answer(&mut self.answers, self.next, self.unanswered);
            let Some(answer) = found else {
                return Ok(());
            };
            self.held = self.held.saturating_sub(answer.body.len());
            self.tell_answer(out, &answer)?;
        }
        Ok(())
    }

    fn hold_copy(&mut self, copy: Copy) -> Result<(), Remark> {
        if !has_room(self.copies.len(), self.held, copy.body.len()) {
            return Err(Remark::Gap);
        }
        self.held = self.held.saturating_add(copy.body.len());
        match self.copies.push(copy) {
            Ok(()) => Ok(()),
            Err(_) => Err(Remark::NoMemory),
        }
    }

    fn hold_answer(&mut self, answer: Answer) -> Result<(), Remark> {
        if !has_room(self.answers.len(), self.held, answer.body.len()) {
            return Err(Remark::Gap);
        }
        self.held = self.held.saturating_add(answer.body.len());
        match self.answers.push(answer) {
            Ok(()) => Ok(()),
            Err(_) => Err(Remark::NoMemory),
        }
    }
}
