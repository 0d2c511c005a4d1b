// A stream that comes in pieces, cut into its elements.
ghost use Rattle.std.specs.Prelude.{◌≡◌, ◌≢◌, ◌≤◌, ◌<◌, ◌+◌, ◌++◌, ◌∷◌, ◌||◌, ◌==◌, [], ℕ, List, Option, None, Some, OnErr, OnOk, IfOk, IfSome, IfNone, IsTrue, true, false, length, take, drop};
ghost use Rattle.body_cutter.specs.BodyText.{IsStanza};
ghost use Rattle.body_cutter.specs.Chars.{is_space};
ghost use Rattle.body_cutter.specs.Cutting.{is_stanza};
ghost use Rattle.xmpp_stream.specs.Cut.{Holds, IsCut, Steps, Tells, Scans, Shortens, counted, is_over};
ghost use Rattle.xmpp_stream.specs.Qualified.{qualified};
ghost use Rattle.xmpp_stream.specs.Stream.{after_tag, error_mark, is_named, mark_in};
ghost use Rattle.xmpp_stream.specs.Tag.{tag_end};

use crate::kept::Kept;
use crate::qualify::qualified;
use crate::scan::{Scan, Scanned};
use crate::stage::{Mark, Stage, after_space, after_tag, is_ended, is_error, is_stanza, mark_in};
use crate::tag::{is_space, tag_end};
use bosh_types::SharedText;
use std::alloc::{AllocError, Global};

// How many bytes a tag of a stream itself has at most.
const LONGEST_TAG: usize = 4096;

/// What comes next on a stream.
#[derive(Debug, Drop)]
pub enum StreamItem {
    /// The next element, as it stands alone: where it has neither a prefix nor a namespace of its own, it is given `jabber:client`
    /// (RFC 6120 section 4.8.2).
    Item(SharedText),
    /// The stream ended with its end tag (RFC 6120 section 4.4). `error` says whether an element `stream:error` came before it.
    Closed { error: bool },
    /// No stream goes on so: what begins after this many bytes of it is wrong. The count stands still at the end of its type.
    Broken(u64),
    /// No further element is whole yet.
    More,
}

// What a step found.
#[derive(Drop)]
enum Step {
    // White space or a tag, which was passed over.
    Past,
    Found(StreamItem),
}

// Where the stream stands, whether it went wrong there and whether it told of an error, and how many bytes of it were passed.
#[derive(Clone, Copy, Debug)]
struct State {
    stage: Stage,
    is_broken: bool,
    has_error: bool,
    place: u64,
}

/// Cuts a stream into its elements, in whatever pieces it comes, and looks at each byte of an element once. It stands for the bytes
/// that it was fed and the elements that it gave, and keeps the bytes from the last of these on.
#[derive(Drop)]
pub struct StreamCutter {
    alloc: Global,
    kept: Kept,
    scan: Scan,
    state: State,
}

fn first_of(text: &[u8]) -> Option<u8>
    ensures some { IfSome result (λ b. text.now ≡ b ∷ drop 1 text.now) }
    ensures none { IfNone result (text.now ≡ []) }
{
    match text.first() {
        None => None,
        Some(b) => Some(*b),
    }
}

// More bytes were passed.
fn counted_on(place: u64, count: usize) -> u64
    ensures { (passed : ℕ) → place ≡ counted passed → result ≡ counted (passed + count) }
{
    place.saturating_add(count as u64)
}

// An element as it stands alone, where it is a stanza then.
fn alone(alloc: Global, element: &[u8]) -> Result<Option<SharedText>, AllocError>
    ensures some { IfOk result (λ text. IfSome text (λ text. (text ≡ qualified element.now) × IsTrue (is_stanza (qualified element.now)))) }
    ensures none { IfOk result (λ text. IfNone text (is_stanza (qualified element.now) ≡ false)) }
{
    let text = qualified(alloc, element)?;
    if !is_stanza(alloc, text.as_slice())? {
        return Ok(None);
    }
    Ok(Some(SharedText::new(alloc, text)?))
}

impl StreamCutter {
    /// A cutter that was fed nothing. It takes no memory.
    pub fn new(alloc: Global) -> StreamCutter
        ensures { IsCut result [] [] }
    {
        let kept = Kept::new(alloc);
        let scan = Scan::new();
        let state = State {
            stage: Stage::Begun,
            is_broken: false,
            has_error: false,
            place: 0,
        };
        StreamCutter {
            alloc,
            kept,
            scan,
            state,
        }
    }

    /// Takes the next piece. The only error is want of memory, after which nothing was taken. After its end, and where it went
    /// wrong, nothing is kept of it.
    pub fn feed(&mut self, piece: &[u8]) -> Result<(), AllocError>
        ensures ok { (fed : List ℕ) (elements : List (List ℕ)) → IsCut self.old fed elements → OnOk result (IsCut self.new (fed ++ piece.now) elements) }
        ensures err { (fed : List ℕ) (elements : List (List ℕ)) → IsCut self.old fed elements → OnErr result (IsCut self.new fed elements) }
    {
        if self.is_over() {
            return Ok(());
        }
        self.kept.push(piece)?;
        Ok(())
    }

    fn is_over(&self) -> bool
        ensures { result ≡ is_over self.now.state }
    {
        self.state.is_broken || is_ended(self.state.stage)
    }

    /// What comes next. Each element has at most 1,000,000 bytes with its namespace, 32 attributes in each tag and 64 nested
    /// elements; a declaration and a tag of the stream itself have at most 4096 bytes. The only error is want of memory, after which
    /// the same comes next.
    pub fn next(&mut self) -> Result<StreamItem, AllocError>
        ensures ok { (fed : List ℕ) (elements : List (List ℕ)) → IsCut self.old fed elements → IfOk result (λ item. Tells item self.new fed elements) }
        ensures err { (fed : List ℕ) (elements : List (List ℕ)) → IsCut self.old fed elements → OnErr result (IsCut self.new fed elements) }
    {
        'steps: loop {
            match self.step()? {
                Step::Past => {}
                Step::Found(item) => return Ok(item),
            }
        }
    }

    // Passes over one part of the stream, or says why none is there.
    fn step(&mut self) -> Result<Step, AllocError>
        ensures ok { (fed : List ℕ) (elements : List (List ℕ)) → IsCut self.old fed elements → IfOk result (λ step. Steps step self.new fed elements) }
        ensures err { (fed : List ℕ) (elements : List (List ℕ)) → IsCut self.old fed elements → OnErr result (IsCut self.new fed elements) }
        ensures less { IfOk result (λ step. Shortens step self.old self.new) }
    {
        if self.state.is_broken {
            return Ok(Step::Found(StreamItem::Broken(self.state.place)));
        }
        if is_ended(self.state.stage) {
            return Ok(Step::Found(StreamItem::Closed {
                error: self.state.has_error,
            }));
        }
        match first_of(self.kept.as_slice()) {
            None => Ok(Step::Found(StreamItem::More)),
            Some(b) => self.step_at(b),
        }
    }

    // The same where this byte comes next.
    fn step_at(&mut self, b: u8) -> Result<Step, AllocError>
        requires { self.old.kept ≡ b ∷ drop 1 self.old.kept }
        ensures ok { (fed : List ℕ) (elements : List (List ℕ)) → IsCut self.old fed elements → is_over self.old.state ≡ false → IfOk result (λ step. Steps step self.new fed elements) }
        ensures err { (fed : List ℕ) (elements : List (List ℕ)) → IsCut self.old fed elements → is_over self.old.state ≡ false → OnErr result (IsCut self.new fed elements) }
        ensures less { IfOk result (λ step. Shortens step self.old self.new) }
    {
        if is_space(b) {
            self.pass(1, after_space(self.state.stage));
            return Ok(Step::Past);
        }
        if b != b'<' {
            return Ok(self.go_wrong());
        }
        match mark_in(self.state.stage, self.kept.as_slice()) {
            Mark::Undecided => Ok(Step::Found(StreamItem::More)),
            Mark::Tag => self.step_at_tag(),
            Mark::Element => self.step_at_element(),
        }
    }

    // A tag of the stream itself comes next.
    fn step_at_tag(&mut self) -> Result<Step, AllocError>
        requires { mark_in self.old.state.stage self.old.kept ≡ Mark.Tag }
        ensures ok { (fed : List ℕ) (elements : List (List ℕ)) → IsCut self.old fed elements → is_over self.old.state ≡ false → IfOk result (λ step. Steps step self.new fed elements) }
        ensures err { (fed : List ℕ) (elements : List (List ℕ)) → IsCut self.old fed elements → is_over self.old.state ≡ false → OnErr result (IsCut self.new fed elements) }
        ensures less { IfOk result (λ step. Shortens step self.old self.new) }
    {
        match tag_end(self.kept.as_slice()) {
            None => Ok(self.step_at_open_tag()),
            Some(count) => self.step_over_tag(count),
        }
    }

    // The end of the tag isn't there.
    fn step_at_open_tag(&mut self) -> Step
        requires mark { mark_in self.old.state.stage self.old.kept ≡ Mark.Tag }
        requires unended { tag_end 0 None self.old.kept ≡ None }
        ensures told { (fed : List ℕ) (elements : List (List ℕ)) → IsCut self.old fed elements → is_over self.old.state ≡ false → Steps result self.new fed elements }
        ensures less { Shortens result self.old self.new }
    {
        if self.kept.as_slice().len() < LONGEST_TAG {
            return Step::Found(StreamItem::More);
        }
        self.go_wrong()
    }

    // The tag has so many bytes.
    fn step_over_tag(&mut self, count: usize) -> Result<Step, AllocError>
        requires mark { mark_in self.old.state.stage self.old.kept ≡ Mark.Tag }
        requires ended { tag_end 0 None self.old.kept ≡ Some count }
        requires within { count ≤ length self.old.kept }
        requires some { 0 < count }
        ensures ok { (fed : List ℕ) (elements : List (List ℕ)) → IsCut self.old fed elements → is_over self.old.state ≡ false → IfOk result (λ step. Steps step self.new fed elements) }
        ensures err { OnErr result (self.new ≡ self.old) }
        ensures less { IfOk result (λ step. Shortens step self.old self.new) }
    {
        if count > LONGEST_TAG {
            return Ok(self.go_wrong());
        }
        match self.after_tag(count)? {
            None => Ok(self.go_wrong()),
            Some(next) => {
                self.pass(count, next);
                Ok(Step::Past)
            }
        }
    }

    // Where the tag of so many bytes leads that comes next.
    fn after_tag(&self, count: usize) -> Result<Option<Stage>, AllocError>
        requires { count ≤ length self.now.kept }
        ensures { IfOk result (λ next. next ≡ after_tag self.now.state.stage (take count self.now.kept)) }
    {
        let tag = &self.kept.as_slice()[..count];
        after_tag(self.alloc, self.state.stage, tag)
    }

    // An element comes next.
    fn step_at_element(&mut self) -> Result<Step, AllocError>
        requires { mark_in self.old.state.stage self.old.kept ≡ Mark.Element }
        ensures ok { (fed : List ℕ) (elements : List (List ℕ)) → IsCut self.old fed elements → is_over self.old.state ≡ false → IfOk result (λ step. Steps step self.new fed elements) }
        ensures err { (fed : List ℕ) (elements : List (List ℕ)) → IsCut self.old fed elements → is_over self.old.state ≡ false → OnErr result (IsCut self.new fed elements) }
        ensures less { IfOk result (λ step. Shortens step self.old self.new) }
    {
        match self.scan.feed(self.alloc, self.kept.as_slice())? {
            Scanned::More => Ok(Step::Found(StreamItem::More)),
            Scanned::Whole(count) => self.step_over(count),
            Scanned::Refused => Ok(self.go_wrong()),
        }
    }

    // An element of so many bytes comes next.
    fn step_over(&mut self, count: usize) -> Result<Step, AllocError>
        requires within { count ≤ length self.old.kept }
        ensures ok { (fed : List ℕ) (elements : List (List ℕ)) → IsCut self.old fed elements → is_over self.old.state ≡ false → mark_in self.old.state.stage self.old.kept ≡ Mark.Element → IsStanza (take count self.old.kept) → IfOk result (λ step. Steps step self.new fed elements) }
        ensures err { OnErr result (self.new ≡ self.old) }
        ensures less { IfOk result (λ step. step ≢ Step.Past) }
    {
        let element = &self.kept.as_slice()[..count];
        let has_error = self.has_error_with(element);
        match alone(self.alloc, element)? {
            None => Ok(self.go_wrong()),
            Some(text) => {
                self.pass(count, Stage::Inside);
                self.state.has_error = has_error;
                Ok(Step::Found(StreamItem::Item(text)))
            }
        }
    }

    // Whether the stream told of an error, this element among what it told.
    fn has_error_with(&self, element: &[u8]) -> bool
        ensures { result ≡ (self.now.state.has_error || is_named error_mark element.now) }
    {
        self.state.has_error || is_error(element)
    }

    // So many bytes are passed, and the stream stands there then.
    fn pass(&mut self, count: usize, stage: Stage)
        requires { count ≤ length self.old.kept }
        ensures kept { self.new.kept ≡ drop count self.old.kept }
        ensures scan { Scans self.new.scan [] }
        ensures state { self.new.state ≡ record self.old.state { place = self.new.state.place; stage = stage } }
        ensures place { (passed : ℕ) → self.old.state.place ≡ counted passed → self.new.state.place ≡ counted (passed + count) }
    {
        self.kept.skip(count);
        self.scan = Scan::new();
        self.state.place = counted_on(self.state.place, count);
        self.state.stage = stage;
    }

    // No stream goes on so.
    fn go_wrong(&mut self) -> Step
        ensures told { result ≡ Step.Found (StreamItem.Broken self.old.state.place) }
        ensures broken { self.new ≡ record self.old { state = record self.old.state { is_broken = true } } }
    {
        self.state.is_broken = true;
        Step::Found(StreamItem::Broken(self.state.place))
    }
}
