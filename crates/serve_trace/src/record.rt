// What the writer keeps of one session.
use crate::greeting::{Greeting, greeting_of};
use crate::noted::{Answer, Opening, Seen};
use crate::paper::Paper;
use crate::remark::Remark;
use crate::session_trace::SessionTrace;
use std::alloc::Global;
use std::mem::replace;

/// How many notes of a session wait at most for what tells its name.
const MOST_WAITING: usize = 256;

/// For how many milliseconds they wait.
const PATIENCE: u64 = 10_000;

/// How long answers may still come once a session has ended, in milliseconds.
const GRACE: u64 = 2000;

/// A trace that is being written: its lines that aren't yet on its sheet.
#[derive(Drop)]
pub(crate) struct Page<S> {
    trace: SessionTrace,
    sheet: S,
    out: Vec<u8>,
}

/// How far a session is.
#[derive(Drop)]
pub(crate) enum Stage<S> {
    /// Its creation and name aren't known yet. What was seen waits.
    Waiting(Vec<Seen>),
    Written(Page<S>),
    /// Nothing more is written of it.
    Over,
}

/// What the writer keeps of one session.
#[derive(Drop)]
pub(crate) struct Record<S> {
    stage: Stage<S>,
    /// When it was first seen.
    since: u64,
    /// Its back end was seen.
    has_wire: bool,
    /// When it was seen that it ended.
    ended: Option<u64>,
}

// Whether so many milliseconds have passed between two moments.
fn has_passed(since: u64, now: u64, limit: u64) -> bool {
    now.saturating_sub(since) >= limit
}

// What is written of something that was seen.
fn tell(trace: &mut SessionTrace, out: &mut Vec<u8>, seen: Seen) -> Result<(), Remark> {
    match seen {
        Seen::Opened(_) => Ok(()),
        Seen::Came(copy) => {
            if !trace.is_named(copy.sid.as_slice()) {
                return Ok(());
            }
            trace.came(out, copy)
        }
        Seen::Answered(answer) => {
            if !trace.is_named(answer.sid.as_slice()) {
                return Ok(());
            }
            trace.answered(out, answer)
        }
        Seen::Gave(stanza) => trace.gave(out, stanza.as_slice()),
        Seen::Passed(stanza) => trace.passed(out, stanza.as_slice()),
        Seen::Restarted => trace.passed(out, b"restart"),
        Seen::Untold(remark) => Err(remark),
        Seen::Closed => Ok(()),
    }
}

// Whether it says that the session has ended: an answer to a request of this one.
fn is_last(trace: &SessionTrace, seen: &Seen) -> bool {
    match seen {
        Seen::Answered(answer) => answer.is_terminal && trace.is_named(answer.sid.as_slice()),
        _ => false,
    }
}

// Whether it is of the session's back end.
fn is_of_wire(seen: &Seen) -> bool {
    match seen {
        Seen::Gave(_) => true,
        Seen::Passed(_) => true,
        Seen::Restarted => true,
        Seen::Closed => true,
        Seen::Untold(_) => true,
        Seen::Opened(_) => false,
        Seen::Came(_) => false,
        Seen::Answered(_) => false,
    }
}

impl<S: Drop> Page<S> {
    // Writes what isn't on the sheet yet. Whether that could be done.
    fn put<P: Paper<Sheet = S>>(&mut self, paper: &mut P, number: u64) -> bool {
        if self.out.is_empty() {
            return true;
        }
        let is_written = paper.write(number, &mut self.sheet, self.out.as_slice());
        self.out.clear();
        is_written
    }

    // Ends the trace.
    fn end<P: Paper<Sheet = S>>(mut self, paper: &mut P, number: u64, remark: Option<Remark>) {
        let _ = self.trace.end(&mut self.out, remark);
        let _ = self.put(paper, number);
    }
}

// A session whose name isn't known yet: what was seen waits for a creation.
fn hear_waiting<P: Paper>(
    alloc: Global,
    paper: &mut P,
    greetings: &[Greeting],
    number: u64,
    seen: Seen,
    waiting: Vec<Seen>,
) -> Stage<P::Sheet> {
    if let Seen::Opened(opening) = seen {
        return begin(alloc, paper, greetings, number, opening, waiting);
    }
    let mut waiting = waiting;
    if waiting.len() >= MOST_WAITING || waiting.push(seen).is_err() {
        return Stage::Over;
    }
    Stage::Waiting(waiting)
}

// Begins a trace, with what waited for its name, and at last the answer that told it.
fn begin<P: Paper>(
    alloc: Global,
    paper: &mut P,
    greetings: &[Greeting],
    number: u64,
    opening: Opening,
    waiting: Vec<Seen>,
) -> Stage<P::Sheet> {
    let greeting = greeting_of(greetings, opening.to.as_slice());
    let mut out = Vec::new(alloc);
    let Ok(trace) = SessionTrace::begin(alloc, &mut out, &opening, greeting) else {
        return Stage::Over;
    };
    let Some(sheet) = paper.begin(number) else {
        return Stage::Over;
    };
    let mut page = Page { trace, sheet, out };
    match tell_waiting(&mut page, opening, waiting) {
        Ok(()) => Stage::Written(page),
        Err(remark) => {
            page.end(paper, number, Some(remark));
            Stage::Over
        }
    }
}

// Tells what waited, and the answer of the creation.
fn tell_waiting<S: Drop>(
    page: &mut Page<S>,
    opening: Opening,
    waiting: Vec<Seen>,
) -> Result<(), Remark> {
    for seen in waiting {
        tell(&mut page.trace, &mut page.out, seen)?;
    }
    let answer = Answer {
        sid: opening.sid,
        rid: opening.rid,
        is_typed: false,
        is_terminal: false,
        body: opening.answer,
    };
    page.trace.answered(&mut page.out, answer)
}

impl<S: Drop> Record<S> {
    /// A session of which nothing was seen before this moment.
    pub(crate) fn new(alloc: Global, now: u64) -> Record<S> {
        Record {
            stage: Stage::Waiting(Vec::new(alloc)),
            since: now,
            has_wire: false,
            ended: None,
        }
    }

    /// Something of it was seen.
    pub(crate) fn hear<P: Paper<Sheet = S>>(
        &mut self,
        alloc: Global,
        paper: &mut P,
        greetings: &[Greeting],
        number: u64,
        seen: Seen,
        now: u64,
    ) {
        self.has_wire = self.has_wire || is_of_wire(&seen);
        if let Seen::Closed = &seen {
            self.ended = Some(now);
        }
        match replace(&mut self.stage, Stage::Over) {
            Stage::Waiting(waiting) => {
                self.stage = hear_waiting(alloc, paper, greetings, number, seen, waiting);
            }
            Stage::Written(mut page) => {
                if is_last(&page.trace, &seen) {
                    self.ended = Some(now);
                }
                match tell(&mut page.trace, &mut page.out, seen) {
                    Ok(()) => self.stage = Stage::Written(page),
                    Err(remark) => page.end(paper, number, Some(remark)),
                }
            }
            Stage::Over => {}
        }
    }

    /// Something of it was lost.
    pub(crate) fn lose<P: Paper<Sheet = S>>(&mut self, paper: &mut P, number: u64) {
        if let Stage::Written(page) = replace(&mut self.stage, Stage::Over) {
            page.end(paper, number, Some(Remark::NoRoom));
        }
    }

    /// Writes what isn't on the sheet yet.
    pub(crate) fn put<P: Paper<Sheet = S>>(&mut self, paper: &mut P, number: u64) {
        let is_written = match &mut self.stage {
            Stage::Written(page) => page.put(paper, number),
            _ => true,
        };
        if !is_written {
            self.stage = Stage::Over;
        }
    }

    /// What time does to it. Whether it is to be kept.
    pub(crate) fn age<P: Paper<Sheet = S>>(
        &mut self,
        paper: &mut P,
        number: u64,
        now: u64,
    ) -> bool {
        if let Some(ended) = self.ended {
            if has_passed(ended, now, GRACE) {
                self.finish(paper, number);
                return false;
            }
        }
        match &self.stage {
            Stage::Waiting(_) => {}
            _ => return true,
        }
        if !has_passed(self.since, now, PATIENCE) {
            return true;
        }
        self.stage = Stage::Over;
        self.has_wire
    }

    /// Nothing more of it will be seen.
    pub(crate) fn finish<P: Paper<Sheet = S>>(&mut self, paper: &mut P, number: u64) {
        if let Stage::Written(page) = replace(&mut self.stage, Stage::Over) {
            page.end(paper, number, None);
        }
    }
}
