// One connection of a client, as a value that makes one move after the other.
ghost use Rattle.std.specs.Prelude.{◌≡◌, ◌≤◌, ℕ, ◌⊎◌, [], ◌∷◌, ◌++◌, Bool, IsSome, List, Option, true};
ghost use Rattle.parked_gate.specs.Passes.{IsPassOf, known};
ghost use Rattle.serve_loop.specs.declared.trail.Traced.{Traced};
ghost use Rattle.session_table.specs.declared.purse.Purse.{Purse};
ghost use Rattle.session_table.specs.Purses.{held};
ghost use Rattle.serve_loop.specs.Connections.{IsAskedOr, IsNext, IsServedBy, Moves, is_called, is_looked_at, is_read, outside, stage_after, stage_behind, wanted_by};
ghost use Rattle.serve_loop.specs.Drawing.{OpensAsDrawn};
ghost use Rattle.serve_loop.specs.Trail.{Setting, setting};

use crate::answering::{Answering, Waiting};
use crate::owed::Owed;
use crate::trail::{Evidence, Trail, TrailLine};
use crate::worker::{Site, Tools, Worker};
use bosh_http::{HttpIn, HttpRefusal, MessageWriter, RequestReader};
use bosh_ports::{Bell, Link, WriteFault};
use bosh_types::{SharedText, Text};
use server_ports::{Clock, Names};
use std::alloc::{AllocError, Global};
use std::mem::replace;
use std::sync::Wait;

/// How a connection ended.
#[derive(Clone, Copy, Debug, PartialEq, Eq)]
pub enum ConnectionEnd {
    /// The peer closed between requests, asked closing, spoke HTTP/1.0 or was refused.
    Ended,
    /// The link failed while it was read.
    ReadFault,
    /// The link failed while it was written. A front of what was to be written was.
    WriteFault,
    /// A later copy of the last request came elsewhere, or its answer was collected there. It gets no answer here.
    Superseded,
    /// The bell was silent, and there is nothing for the last request yet.
    Silent,
    /// There was no memory for the last request, which was answered so.
    Memory,
    /// The peer left while its last request waited, for which there is nothing yet. Its session holds the request on.
    Gone,
}

/// What a connection wants next.
#[derive(Clone, Copy, Debug, PartialEq, Eq)]
pub enum Wants {
    /// Bytes of the client.
    Bytes,
    /// To go on at once.
    Nothing,
    /// To give an answer to the link.
    Room,
    /// The answer of a request that waits in the session with this opening number.
    Answer(u64),
    /// The connection has ended so.
    End(ConnectionEnd),
}

/// Where a connection stands.
#[derive(Drop)]
pub(crate) enum Stage {
    Reading,
    Asked {
        body: SharedText,
        closing: bool,
    },
    /// Whether its session was looked at since the request waits.
    Waiting {
        waiting: Waiting,
        closing: bool,
        looked: bool,
    },
    Owing(Owed),
    Over(ConnectionEnd),
}

impl Stage {
    /// What a connection that stands here wants next.
    pub(crate) fn wants(&self) -> Wants
        ensures { result ≡ wanted_by self.now }
    {
        match self {
            Stage::Reading => Wants::Bytes,
            Stage::Asked { .. } => Wants::Nothing,
            Stage::Waiting {
                waiting,
                looked: true,
                ..
            } => Wants::Answer(waiting.session.number),
            Stage::Waiting { looked: false, .. } => Wants::Nothing,
            Stage::Owing(_) => Wants::Room,
            Stage::Over(end) => Wants::End(*end),
        }
    }
}

/// A connection: its bytes that make no request yet, and where its last request stands.
#[derive(Drop)]
pub struct Connection {
    alloc: Global,
    reader: RequestReader,
    writer: MessageWriter,
    pub(crate) stage: Stage,
}

impl Connection {
    /// A connection on which nothing came yet. It takes no memory.
    pub fn new(alloc: Global) -> Connection
        ensures reader { result.reader ≡ [] }
        ensures stage { result.stage ≡ Stage.Reading }
    {
        Connection {
            alloc,
            reader: RequestReader::new(alloc),
            writer: MessageWriter::new(),
            stage: Stage::Reading,
        }
    }

    /// What it wants next.
    pub fn wants(&self) -> Wants
        ensures { result ≡ wanted_by self.now.stage }
    {
        self.stage.wants()
    }

    /// Makes one move: reads a request, makes its call, looks for its answer, or writes that.
    pub fn step<R: Wait, L: Link, C: Clock, B: Bell, M: Names>(
        &mut self,
        rt: &R,
        site: &Site<'_, C>,
        worker: &mut Worker,
        tools: &mut Tools<B, M>,
        link: &mut L,
    )
        requires pass { IsPassOf site.now.directory.now worker.old.purse.directory }
        requires held { IsServedBy worker.old.purse.sessions self.old.stage }
        ensures pass { IsPassOf site.now.directory.now worker.new.purse.directory }
        ensures held { IsServedBy worker.new.purse.sessions self.new.stage }
        ensures moves { Moves (setting site.now.hosts.now site.now.limits (C.moment site.now.clock.now))
            (outside self.old.reader (L.left link.old) (L.given link.old) worker.old.trail worker.old.purse (L.faults link.old))
            (outside self.new.reader (L.left link.new) (L.given link.new) worker.new.trail worker.new.purse (L.faults link.new))
            self.old.stage self.new.stage }
        ensures drawn { OpensAsDrawn (M.drawn tools.old.names) (M.drawn tools.new.names) (known worker.old.purse.directory) (known worker.new.purse.directory) }
        ensures next { IsNext self.old.stage self.new.stage }
        ensures faults { L.faults link.old ≤ L.faults link.new }
        ensures silences { B.silences tools.new.bell ≡ B.silences tools.old.bell }
    {
        let stage = replace(&mut self.stage, Stage::Reading);
        self.stage = self.move_on(rt, site, worker, tools, link, stage);
    }

    // Where it stands after one move from here.
    fn move_on<R: Wait, L: Link, C: Clock, B: Bell, M: Names>(
        &mut self,
        rt: &R,
        site: &Site<'_, C>,
        worker: &mut Worker,
        tools: &mut Tools<B, M>,
        link: &mut L,
        stage: Stage,
    ) -> Stage
        requires pass { IsPassOf site.now.directory.now worker.old.purse.directory }
        requires held { IsServedBy worker.old.purse.sessions stage }
        ensures pass { IsPassOf site.now.directory.now worker.new.purse.directory }
        ensures held { IsServedBy worker.new.purse.sessions result }
        ensures moves { Moves (setting site.now.hosts.now site.now.limits (C.moment site.now.clock.now))
            (outside self.old.reader (L.left link.old) (L.given link.old) worker.old.trail worker.old.purse (L.faults link.old))
            (outside self.new.reader (L.left link.new) (L.given link.new) worker.new.trail worker.new.purse (L.faults link.new))
            stage result }
        ensures drawn { OpensAsDrawn (M.drawn tools.old.names) (M.drawn tools.new.names) (known worker.old.purse.directory) (known worker.new.purse.directory) }
        ensures next { IsNext stage result }
        ensures faults { L.faults link.old ≤ L.faults link.new }
        ensures silences { B.silences tools.new.bell ≡ B.silences tools.old.bell }
    {
        match stage {
            Stage::Reading => self.read(&mut worker.trail, link),
            Stage::Asked { body, closing } => ask(rt, site, worker, tools, body, closing),
            Stage::Waiting {
                waiting,
                closing,
                ..
            } => collected(rt, worker, &mut tools.bell, waiting, closing),
            Stage::Owing(owed) => self.write(link, &owed),
            Stage::Over(end) => Stage::Over(end),
        }
    }

    // Reads the next request.
    fn read<L: Link>(&mut self, trail: &mut Trail, link: &mut L) -> Stage
        ensures held { (purse : Purse) → IsServedBy purse.sessions result }
        ensures moves { (site : Setting) → (purse : Purse) → Moves site
            (outside self.old.reader (L.left link.old) (L.given link.old) trail.old purse (L.faults link.old))
            (outside self.new.reader (L.left link.new) (L.given link.new) trail.new purse (L.faults link.new))
            Stage.Reading result }
        ensures next { is_read result ≡ true }
        ensures faults { L.faults link.old ≤ L.faults link.new }
    {
        match self.reader.next(self.alloc, link) {
            Ok(HttpIn::Request { body, closing }) => asked_stage(self.alloc, body, closing),
            Ok(HttpIn::Refused(refusal)) => refused(trail, refusal),
            Ok(HttpIn::End) => Stage::Over(ConnectionEnd::Ended),
            Ok(HttpIn::ReadFault) => Stage::Over(ConnectionEnd::ReadFault),
            Err(_) => Stage::Owing(Owed::NoMemory),
        }
    }

    // Writes what is owed.
    fn write<L: Link>(&mut self, link: &mut L, owed: &Owed) -> Stage
        ensures held { (purse : Purse) → IsServedBy purse.sessions result }
        ensures moves { (site : Setting) → (purse : Purse) → (trail : List Traced) → Moves site
            (outside self.old.reader (L.left link.old) (L.given link.old) trail purse (L.faults link.old))
            (outside self.new.reader (L.left link.new) (L.given link.new) trail purse (L.faults link.new))
            (Stage.Owing owed.now) result }
        ensures next { (result ≡ stage_behind owed.now) ⊎ (result ≡ Stage.Over ConnectionEnd.WriteFault) }
        ensures faults { L.faults link.old ≤ L.faults link.new }
    {
        let closing = owed.closes();
        match self
            .writer
            .write_response(link, owed.status(), owed.text(), closing)
        {
            Ok(()) => stage_behind(owed),
            Err(WriteFault) => Stage::Over(ConnectionEnd::WriteFault),
        }
    }
}

// Where the connection stands when what it owed was given.
pub(crate) fn stage_behind(owed: &Owed) -> Stage
    ensures { result ≡ stage_behind owed.now }
{
    if owed.closes() {
        return Stage::Over(owed.end());
    }
    Stage::Reading
}

// A request was read.
pub(crate) fn asked_stage(alloc: Global, body: Text, closing: bool) -> Stage
    ensures { IsAskedOr body closing result }
{
    match SharedText::new(alloc, body) {
        Ok(body) => Stage::Asked { body, closing },
        Err(_) => Stage::Owing(Owed::NoMemory),
    }
}

// What came is no request that is served: the connection ends after that is said.
pub(crate) fn refused(trail: &mut Trail, refusal: HttpRefusal) -> Stage
    ensures stage { result ≡ Stage.Owing (Owed.Refusal refusal) }
    ensures told { trail.new ≡ trail.old ++ record { line = TrailLine.Http refusal; evidence = Evidence.Request } ∷ [] }
{
    trail.push(TrailLine::Http(refusal), Evidence::Request);
    Stage::Owing(Owed::Refusal(refusal))
}

// Makes the call that a body asks for.
pub(crate) fn ask<R: Wait, C: Clock, B: Bell, M: Names>(
    rt: &R,
    site: &Site<'_, C>,
    worker: &mut Worker,
    tools: &mut Tools<B, M>,
    body: SharedText,
    closing: bool,
) -> Stage
    requires pass { IsPassOf site.now.directory.now worker.old.purse.directory }
    ensures pass { IsPassOf site.now.directory.now worker.new.purse.directory }
    ensures held { IsServedBy worker.new.purse.sessions result }
    ensures moves { (stream given : Option (List ℕ)) → (faults : ℕ) → Moves (setting site.now.hosts.now site.now.limits (C.moment site.now.clock.now))
        (record { stream = stream; given = given; trail = worker.old.trail; purse = worker.old.purse; faults = faults })
        (record { stream = stream; given = given; trail = worker.new.trail; purse = worker.new.purse; faults = faults })
        (Stage.Asked body closing) result }
    ensures drawn { OpensAsDrawn (M.drawn tools.old.names) (M.drawn tools.new.names) (known worker.old.purse.directory) (known worker.new.purse.directory) }
    ensures next { is_called result ≡ true }
    ensures silences { B.silences tools.new.bell ≡ B.silences tools.old.bell }
{
    match worker.answer(rt, site, tools, body) {
        Ok(answering) => stage_of(answering, closing, false),
        Err(AllocError) => Stage::Owing(Owed::NoMemory),
    }
}

// Looks for the answer of a request that waits.
pub(crate) fn collected<R: Wait, B: Bell>(
    rt: &R,
    worker: &mut Worker,
    bell: &mut B,
    waiting: Waiting,
    closing: bool,
) -> Stage
    requires held { IsSome (held worker.old.purse.sessions waiting.session.number) }
    ensures directory { worker.new.purse.directory ≡ worker.old.purse.directory }
    ensures held { IsServedBy worker.new.purse.sessions result }
    ensures moves { (site : Setting) → (looked : Bool) → (stream given : Option (List ℕ)) → (faults : ℕ) → Moves site
        (record { stream = stream; given = given; trail = worker.old.trail; purse = worker.old.purse; faults = faults })
        (record { stream = stream; given = given; trail = worker.new.trail; purse = worker.new.purse; faults = faults })
        (Stage.Waiting waiting closing looked) result }
    ensures next { is_looked_at result ≡ true }
    ensures silences { B.silences bell.new ≡ B.silences bell.old }
{
    stage_of(worker.collect(rt, bell, waiting), closing, true)
}

fn stage_of(answering: Answering, closing: bool, looked: bool) -> Stage
    ensures { result ≡ stage_after answering closing looked }
{
    match answering {
        Answering::Now(text) => Stage::Owing(Owed::Answer { text, closing }),
        Answering::Waits(waiting) => Stage::Waiting {
            waiting,
            closing,
            looked,
        },
        Answering::Superseded => Stage::Over(ConnectionEnd::Superseded),
    }
}
