// The reader of all kinds of messages.
ghost use Rattle.std.specs.Prelude.{ℕ, List, take, ◌≡◌, ◌≢◌, ◌<◌, ◌≤◌, [], ◌++◌, length, drop, true, Bool, IfOk, OnErr, OnOk, Ok, ⊤};
ghost use Rattle.std.specs.Io.KnownBytes.{Keeps, IsAtEnd};
ghost use Rattle.bosh_ports.specs.Faults.{HasRisen};
ghost use Rattle.bosh_http.specs.Heads.{IsHeadless, TellsOf};
ghost use Rattle.bosh_http.specs.Scanning.{Scans};
ghost use Rattle.bosh_http.specs.Taking.{TakesMore};
ghost use Rattle.bosh_http.specs.Reader.{CameBy, CameOver, FrontBy, OpenedBy, OpenedOver, OpensBy, PassesOn, StandsAt};
ghost use Rattle.bosh_http.specs.declared.reader.Came.TheVariants as came;

use crate::awaited::Awaited;
use crate::heads::{Head, Heads, Judged, judge};
use crate::scan::Scan;
use crate::taken::{Filled, Taken};
use bosh_ports::{Fed, Feed, Link};
use bosh_types::Text;
use httparse::spans::HeaderSpan;
use std::alloc::{AllocError, Global};
use std::marker::Model;
use std::mem;

// What is known of the message at the front.
#[derive(Clone, Copy)]
pub(crate) enum Stage<S> {
    // Its head isn't whole as far as it was scanned.
    Scanning(Scan),
    Found(Head<S>),
    // Its head was let go of, and its content is being fed.
    Inside,
}

// What stands at the front.
#[derive(Drop)]
pub(crate) enum Front<S, F> {
    // A message with this content.
    Message { body: Text, said: S },
    // No message that is read begins so.
    Wrong(F),
    // More bytes are wanted.
    More,
}

// What reading the next message off a link gives.
#[derive(Drop)]
pub(crate) enum Came<S, F> {
    Message { body: Text, said: S },
    Wrong(F),
    // The stream ended before a whole message.
    Ended,
    // The link failed.
    Failed,
}

// What reading the next head off a link gives, where the head of a message is let go of.
#[derive(Drop)]
pub(crate) enum Opened<S, F> {
    Head(Head<S>),
    Wrong(F),
    // The stream ended, and no head is whole.
    Ended,
    // The link failed.
    Failed,
}

// What the bytes tell, and what is known of them then. Where more may come, they aren't looked at where the scan finds nothing new.
fn look<H: Heads>(
    stage: Stage<H::Said>,
    spans: &mut Vec<HeaderSpan>,
    bytes: &[u8],
    is_all: bool,
) -> Result<(Stage<H::Said>, Judged<H::Said, H::Fault>), AllocError>
    requires { StandsAt H.reads H.lacks stage bytes.now }
    ensures stands { IfOk result (λ r. StandsAt H.reads H.lacks r.0 bytes.now) }
    ensures tells { IfOk result (λ r. TellsOf H.reads H.denies (IsHeadless H.lacks H.begins is_all) bytes.now r.1) }
{
    match stage {
        Stage::Scanning(scan) => look_on::<H>(scan, spans, bytes, is_all),
        Stage::Found(head) => Ok((Stage::Found(head), Judged::Whole(head))),
        Stage::Inside => Err(AllocError),
    }
}

fn look_on<H: Heads>(
    scan: Scan,
    spans: &mut Vec<HeaderSpan>,
    bytes: &[u8],
    is_all: bool,
) -> Result<(Stage<H::Said>, Judged<H::Said, H::Fault>), AllocError>
    requires scans { Scans scan.seen scan.place bytes.now }
    requires none { H.lacks (take scan.seen bytes.now) }
    ensures stands { IfOk result (λ r. StandsAt H.reads H.lacks r.0 bytes.now) }
    ensures tells { IfOk result (λ r. TellsOf H.reads H.denies (IsHeadless H.lacks H.begins is_all) bytes.now r.1) }
{
    H::laws();
    let mut scan = scan;
    let is_due = scan.is_due(bytes);
    if !is_due && !is_all {
        return Ok((Stage::Scanning(scan), Judged::Begun));
    }
    match judge::<H>(spans, bytes)? {
        Judged::Whole(head) => Ok((Stage::Found(head), Judged::Whole(head))),
        Judged::Wrong(fault) => Ok((Stage::Scanning(H::scan()), Judged::Wrong(fault))),
        Judged::Begun => Ok((Stage::Scanning(scan), Judged::Begun)),
    }
}

// Reads messages of a kind. It is seen as the bytes that it has and that no message has given yet.
#[derive(Drop)]
pub(crate) struct Reader<H: Heads> {
    taken: Taken,
    // Room for the fields of a head.
    spans: Vec<HeaderSpan>,
    stage: Stage<H::Said>,
}

impl<H: Heads> Model for Reader<H> {
    ghost use Rattle.std.specs.Prelude.{ℕ, List};
    ghost use Rattle.bosh_http.specs.Reader.{StandsAt};

    ghost Value = { List ℕ };

    ghost view = { λ r. r.taken };

    ghost invariant = { λ r. StandsAt H.reads H.lacks r.stage r.taken };
}

impl<H: Heads> Reader<H> {
    // Takes no memory.
    pub(crate) fn new(alloc: Global) -> Self
        ensures { result ≡ [] }
    {
        H::laws();
        Reader {
            taken: Taken::new(alloc),
            spans: Vec::new(alloc),
            stage: Stage::Scanning(H::scan()),
        }
    }

    pub(crate) fn len(&self) -> usize
        ensures { result ≡ length self.now }
    {
        self.taken.len()
    }

    // What it waits for. It waits for a message where it has no bytes.
    pub(crate) fn awaits(&self) -> Awaited
        ensures { result ≡ Awaited.Message → self.now ≡ [] }
    {
        match self.stage {
            Stage::Found(head) => Awaited::Content(head.content),
            Stage::Inside => Awaited::Content(0),
            Stage::Scanning(_) => {
                if self.taken.len() == 0 {
                    return Awaited::Message;
                }
                Awaited::Head
            }
        }
    }

    // Takes these bytes.
    pub(crate) fn give(&mut self, bytes: &[u8]) -> Result<(), AllocError>
        ensures ok { OnOk result (self.new ≡ self.old ++ bytes.now) }
        ensures err { OnErr result (self.new ≡ self.old) }
    {
        H::laws();
        self.taken.give(bytes)
    }

    // Takes more off a link.
    pub(crate) fn fill<L: Link>(&mut self, link: &mut L) -> Result<Filled, AllocError>
        ensures takes { TakesMore (L.left link.old) (L.left link.new) self.old self.new }
        ensures more { result ≡ Ok Filled.More → length self.old < length self.new }
        ensures none { result ≡ Ok Filled.End → self.new ≡ self.old }
        ensures end { result ≡ Ok Filled.End → IsAtEnd (L.left link.old) }
        ensures same { result ≡ Ok Filled.End → Keeps (L.left link.old) (L.left link.new) }
        ensures unchanged { result ≡ Ok Filled.Failed → self.new ≡ self.old }
        ensures given { Keeps (L.given link.old) (L.given link.new) }
        ensures failed { result ≡ Ok Filled.Failed → HasRisen (L.faults link.old) (L.faults link.new) }
        ensures quiet { result ≢ Ok Filled.Failed → L.faults link.new ≡ L.faults link.old }
        ensures faults { L.faults link.old ≤ L.faults link.new }
    {
        H::laws();
        self.taken.fill(link)
    }

    // What the bytes tell of the head at their front. Where they are all that comes, a head that isn't whole is judged by them.
    fn head(&mut self, is_all: bool) -> Result<Judged<H::Said, H::Fault>, AllocError>
        ensures same { self.new ≡ self.old }
        ensures tells { IfOk result (TellsOf H.reads H.denies (IsHeadless H.lacks H.begins is_all) self.old) }
    {
        let (stage, judged) = look::<H>(
            self.stage,
            &mut self.spans,
            self.taken.as_slice(),
            is_all,
        )?;
        self.stage = stage;
        Ok(judged)
    }

    // What stands at the front, where these are all bytes that come, or where more may come.
    pub(crate) fn front(
        &mut self,
        alloc: Global,
        is_all: bool,
    ) -> Result<Front<H::Said, H::Fault>, AllocError>
        ensures front { IfOk result (FrontBy H.reads H.denies (IsHeadless H.lacks H.begins is_all) self.old self.new) }
        ensures err { OnErr result (self.new ≡ self.old) }
    {
        match self.head(is_all)? {
            Judged::Whole(head) => self.message(alloc, head),
            Judged::Wrong(fault) => Ok(Front::Wrong(fault)),
            Judged::Begun => Ok(Front::More),
        }
    }

    // The message with this head, if its content is there.
    fn message(
        &mut self,
        alloc: Global,
        head: Head<H::Said>,
    ) -> Result<Front<H::Said, H::Fault>, AllocError>
        requires { H.reads self.old head.start head.content head.said }
        ensures front { (is_all : Bool) → IfOk result (FrontBy H.reads H.denies (IsHeadless H.lacks H.begins is_all) self.old self.new) }
        ensures err { OnErr result (self.new ≡ self.old) }
    {
        H::laws();
        let end = head.start + head.content;
        if self.taken.len() < end {
            return Ok(Front::More);
        }
        let body = Text::from_vec(self.taken.copy(alloc, head.start, end)?);
        self.pass(end);
        let said = head.said;
        Ok(Front::Message { body, said })
    }

    // Lets go of a message.
    fn pass(&mut self, count: usize)
        requires { count ≤ length self.old }
        ensures { self.new ≡ drop count self.old }
    {
        H::laws();
        self.taken.pass(count);
        self.stage = Stage::Scanning(H::scan());
    }

    // What stands at the front, where its content is to be fed: the head of a message is let go of.
    pub(crate) fn open(&mut self, is_all: bool) -> Result<Judged<H::Said, H::Fault>, AllocError>
        ensures opens { IfOk result (OpensBy H.reads H.denies (IsHeadless H.lacks H.begins is_all) self.old self.new) }
        ensures err { OnErr result (self.new ≡ self.old) }
    {
        match self.head(is_all)? {
            Judged::Whole(head) => {
                self.enter(&head);
                Ok(Judged::Whole(head))
            }
            Judged::Wrong(fault) => Ok(Judged::Wrong(fault)),
            Judged::Begun => Ok(Judged::Begun),
        }
    }

    // Lets go of a head.
    fn enter(&mut self, head: &Head<H::Said>)
        requires { H.reads self.old head.now.start head.now.content head.now.said }
        ensures there { head.now.start ≤ length self.old }
        ensures kept { self.new ≡ drop head.now.start self.old }
    {
        H::laws();
        self.taken.pass(head.start);
        self.stage = Stage::Inside;
    }

    // Feeds what has come of a content, of which so many bytes are left, and says how many are left then.
    pub(crate) fn feed<F: Feed>(&mut self, left: usize, feed: &mut F) -> Result<usize, AllocError>
        ensures passes { IfOk result (PassesOn self.old self.new (F.fed feed.old) (F.fed feed.new) left) }
        ensures same { OnErr result (self.new ≡ self.old) }
        ensures unfed { OnErr result (F.fed feed.new ≡ F.fed feed.old) }
    {
        let count = left.min(self.taken.len());
        match feed.piece(self.taken.as_slice().split_at(count).0) {
            Fed::Done => {}
            Fed::Memory => return Err(AllocError),
        }
        self.leave(count, count == left);
        Ok(left - count)
    }

    // Lets go of a part of a content, which may be the last.
    fn leave(&mut self, count: usize, is_last: bool)
        requires { count ≤ length self.old }
        ensures { self.new ≡ drop count self.old }
    {
        if is_last {
            self.pass(count);
            return;
        }
        self.taken.pass(count);
        self.stage = Stage::Inside;
    }

    // Reads the next message off a link.
    pub(crate) fn next<L: Link>(
        &mut self,
        alloc: Global,
        link: &mut L,
    ) -> Result<Came<H::Said, H::Fault>, AllocError>
        ensures came { IfOk result (CameOver H.reads H.denies H.lacks H.begins (L.left link.old) (L.left link.new) self.old self.new) }
        ensures kept { OnErr result (TakesMore (L.left link.old) (L.left link.new) self.old self.new) }
        ensures given { Keeps (L.given link.old) (L.given link.new) }
        ensures fault { result ≡ Ok Came.Failed → HasRisen (L.faults link.old) (L.faults link.new) }
        ensures quiet { result ≢ Ok Came.Failed → L.faults link.new ≡ L.faults link.old }
        ensures faults { L.faults link.old ≤ L.faults link.new }
    {
        H::laws();
        loop {
            match self.front(alloc, false)? {
                Front::Message { body, said } => return Ok(Came::Message { body, said }),
                Front::Wrong(fault) => return Ok(Came::Wrong(fault)),
                Front::More => {}
            }
            match self.fill(link)? {
                Filled::More => {}
                Filled::End => return self.last(alloc),
                Filled::Failed => return Ok(Came::Failed),
            }
        }
    }

    // What is read where the link has come to its end.
    pub(crate) fn last(&mut self, alloc: Global) -> Result<Came<H::Said, H::Fault>, AllocError>
        ensures came { IfOk result (CameBy H.reads H.denies H.lacks H.begins self.old self.new ⊤) }
        ensures failed { result ≢ Ok Came.Failed }
        ensures err { OnErr result (self.new ≡ self.old) }
    {
        match self.front(alloc, true)? {
            Front::Message { body, said } => Ok(Came::Message { body, said }),
            Front::Wrong(fault) => Ok(Came::Wrong(fault)),
            Front::More => Ok(Came::Ended),
        }
    }

    // Reads the next head off a link, and lets go of it.
    pub(crate) fn next_head<L: Link>(
        &mut self,
        link: &mut L,
    ) -> Result<Opened<H::Said, H::Fault>, AllocError>
        ensures opened { IfOk result (OpenedOver H.reads H.denies H.lacks H.begins (L.left link.old) (L.left link.new) self.old self.new) }
        ensures kept { OnErr result (TakesMore (L.left link.old) (L.left link.new) self.old self.new) }
        ensures given { Keeps (L.given link.old) (L.given link.new) }
        ensures fault { result ≡ Ok Opened.Failed → HasRisen (L.faults link.old) (L.faults link.new) }
        ensures quiet { result ≢ Ok Opened.Failed → L.faults link.new ≡ L.faults link.old }
        ensures faults { L.faults link.old ≤ L.faults link.new }
    {
        H::laws();
        loop {
            match self.open(false)? {
                Judged::Whole(head) => return Ok(Opened::Head(head)),
                Judged::Wrong(fault) => return Ok(Opened::Wrong(fault)),
                Judged::Begun => {}
            }
            match self.fill(link)? {
                Filled::More => {}
                Filled::End => return self.last_head(),
                Filled::Failed => return Ok(Opened::Failed),
            }
        }
    }

    // What is read where the link has come to its end.
    fn last_head(&mut self) -> Result<Opened<H::Said, H::Fault>, AllocError>
        ensures opened { IfOk result (OpenedBy H.reads H.denies H.lacks H.begins self.old self.new ⊤) }
        ensures failed { result ≢ Ok Opened.Failed }
        ensures err { OnErr result (self.new ≡ self.old) }
    {
        match self.open(true)? {
            Judged::Whole(head) => Ok(Opened::Head(head)),
            Judged::Wrong(fault) => Ok(Opened::Wrong(fault)),
            Judged::Begun => Ok(Opened::Ended),
        }
    }
}
