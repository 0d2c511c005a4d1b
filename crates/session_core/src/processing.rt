// Copies are processed in the order of their ids (XEP-0124, section 14.1), each by the streams that are open then (section 16).
ghost use Rattle.std.specs.Prelude.{◌≡◌, ◌&&◌, ◌++◌, IfOk, None, OnOk, Some, if◌then◌else◌, map, nat_lt};
ghost use Rattle.std.specs.Option.{option_copied};
ghost use Rattle.bosh_types.specs.Limits.{most_streams};
ghost use Rattle.bosh_types.specs.declared.inward.Inward.TheVariants.{Item, Restart, Close};
ghost use Rattle.stream_names.specs.PlainStreams.{after_open, with_all_closed};
ghost use Rattle.body_cutter.specs.Pieces.{bytes_at};
ghost use Rattle.session_core.specs.Copy.{is_add};
ghost use Rattle.session_core.specs.Processed.{close_items, items_by, open_items, restart_items, stanza_items, targets_among};
ghost use Rattle.session_core.specs.Machine.{advanced, as_processed, next_copy, process, unless_terminate, with_copy};
ghost use Rattle.session_core.specs.Rules.{asked_of, broken_rule};
ghost use Rattle.session_core.specs.StandsFor.{StandsFor};
ghost use Rattle.session_core.specs.State.{PlainSession};
ghost use Rattle.session_core.specs.Steps.{IsShort, ProcessesNext, period_of};

use crate::added::AddedStream;
use crate::copy::{RequestCopy, SharedCopy};
use crate::held::HeldRequest;
use crate::inbox::Inbox;
use crate::session::Session;
use body_cutter::Span;
use bosh_types::{CopyIn, Ending, Inward, SharedText, StreamNo, Text};
use pause_rules::Deadlines;
use std::alloc::{AllocError, Global};
use stream_names::{StreamSet, Streams};

const GREATEST_ID: u64 = 9007199254740991;

impl Session {
    /// The copies that follow the last one processed are processed one after the other.
    pub(crate) fn advance(&mut self, alloc: Global) -> Result<(), AllocError>
        ensures { (plain : PlainSession) → StandsFor self.old plain → OnOk result (StandsFor self.new (advanced plain)) }
    {
        for _id in self.last.value()..GREATEST_ID {
            if !self.process_next(alloc)? {
                return Ok(());
            }
        }
        Ok(())
    }

    // The copy that follows the last one processed, if it has come, is processed or ends the session.
    fn process_next(&mut self, alloc: Global) -> Result<bool, AllocError>
        ensures { (plain : PlainSession) → StandsFor self.old plain
            → IfOk result (λ found. ProcessesNext found self.new plain) }
    {
        let Some(copy) = self.next_copy(alloc)? else {
            return Ok(false);
        };
        self.process(alloc, copy.get())?;
        Ok(true)
    }

    // The next copy is processed, or ends the session by the first rule that it breaks.
    fn process(&mut self, alloc: Global, copy: &RequestCopy) -> Result<(), AllocError>
        ensures { (plain : PlainSession) → StandsFor self.old plain → next_copy plain ≡ Some copy.now
            → OnOk result (StandsFor self.new (process plain copy.now)) }
    {
        match self.broken_rule(copy) {
            Some(ending) => self.end(alloc, ending),
            None => self.accept(alloc, copy),
        }
    }

    // The copy that follows the last one processed, if it has come and the session goes on.
    #[tactic(auto, unfolding(crate::specs::StandsFor::StandsFor))]
    fn next_copy(&self, alloc: Global) -> Result<Option<SharedCopy>, AllocError>
        ensures { (plain : PlainSession) → StandsFor self.now plain → IfOk result (λ copy. copy ≡ next_copy plain) }
    {
        if self.ending.is_some() {
            return Ok(None);
        }
        match self.window.first() {
            Some(copy) => Ok(Some(copy.copy_in(alloc)?)),
            None => Ok(None),
        }
    }

    #[tactic(auto, unfolding(crate::specs::StandsFor::StandsFor))]
    // A copy that breaks no rule is processed. A terminate after which no stream is open then ends the session (XEP-0124, sections
    // 13 and 16).
    fn accept(&mut self, alloc: Global, copy: &RequestCopy) -> Result<(), AllocError>
        ensures { (plain : PlainSession) → StandsFor self.old plain → next_copy plain ≡ Some copy.now
            → broken_rule (asked_of plain) copy.now ≡ None
            → OnOk result (StandsFor self.new (unless_terminate (with_copy plain copy.now) (as_processed plain copy.now))) }
    {
        self.take_up(alloc, copy)?;
        if !copy.request.terminate {
            return Ok(());
        }
        if !self.streams.running().is_empty() {
            return Ok(());
        }
        let rid = copy.request.rid;
        self.end(alloc, Ending::Terminated { rid })
    }

    // The copy is taken off the window, and all that it says is taken up.
    #[tactic(auto, unfolding(crate::specs::StandsFor::StandsFor))]
    fn take_up(&mut self, alloc: Global, copy: &RequestCopy) -> Result<(), AllocError>
        ensures { (plain : PlainSession) → StandsFor self.old plain → next_copy plain ≡ Some copy.now
            → broken_rule (asked_of plain) copy.now ≡ None → OnOk result (StandsFor self.new (with_copy plain copy.now)) }
    {
        let request = &copy.request;
        let key = request.key.copy_in(alloc)?;
        let newkey = request.newkey.copy_in(alloc)?;
        let targets = targets_among(&self.streams, request.stream.as_ref());
        let opened = open_for(&mut self.streams, copy);
        pass_inward(alloc, &mut self.inward, copy, &targets, &opened)?;
        self.held.push(HeldRequest {
            rid: request.rid,
            arrived: copy.arrived,
            prompt: copy.is_prompt(),
            opened: AddedStream::new(&opened),
        })?;
        close_for(&mut self.streams, request.terminate, &targets);
        let _taken = self.window.take_ready();
        let _verdict = self.keys.accept(key, newkey);
        set_period(&mut self.deadlines, copy);
        self.acks.on_request(
            request.rid,
            request.ack,
            &mut self.keep,
            self.answered,
            self.moment,
        );
        self.latest = copy.mark();
        self.last = request.rid;
        Ok(())
    }
}

// The streams that a request is for: the one that it names, and all that are open where it names none.
pub(crate) fn targets_among(streams: &Streams, name: Option<&Text>) -> StreamSet
    ensures { result ≡ targets_among streams.now.running (option_copied name.entry) }
{
    let Some(name) = name else {
        return streams.running().copied();
    };
    match streams.running().find(name.as_slice()) {
        Some(stream) => StreamSet::only(stream),
        None => StreamSet::none(),
    }
}

// An add opens the next stream, where fewer than eight were opened.
fn open_for(streams: &mut Streams, copy: &RequestCopy) -> Option<StreamNo>
    ensures opened { result ≡ (if is_add copy.now && nat_lt streams.old.opened most_streams then Some streams.old.opened else None) }
    ensures after { streams.new ≡ (if is_add copy.now then after_open streams.old else streams.old) }
{
    if !copy.is_add() {
        return None;
    }
    streams.open()
}

// A terminate closes the streams that it is for.
fn close_for(streams: &mut Streams, terminate: bool, targets: &StreamSet)
    ensures { streams.new ≡ (if terminate then with_all_closed streams.old targets.now else streams.old) }
{
    if terminate {
        streams.close_all(targets);
    }
}

// What a processed copy does goes inward: its stanzas for each of its streams; then a restart of each (XEP-0206), where it asks for
// one; the close of a stream that a terminate names; the stream that it opened (XEP-0124, section 16).
pub(crate) fn pass_inward(
    alloc: Global,
    inbox: &mut Inbox,
    copy: &RequestCopy,
    targets: &StreamSet,
    opened: &Option<StreamNo>,
) -> Result<(), AllocError>
    ensures { OnOk result (inbox.new ≡ inbox.old ++ items_by copy.now targets.now opened.now) }
{
    pass_stanzas(
        alloc,
        inbox,
        copy.body.as_slice(),
        copy.request.stanzas.as_slice(),
        targets,
    )?;
    pass_restarts(inbox, copy.request.restart, targets)?;
    pass_closes(inbox, copy, targets)?;
    pass_opened(alloc, inbox, opened, &copy.request.to)
}

fn pass_stanzas(
    alloc: Global,
    inbox: &mut Inbox,
    body: &[u8],
    spans: &[Span],
    targets: &StreamSet,
) -> Result<(), AllocError>
    ensures { OnOk result (inbox.new ≡ inbox.old ++ stanza_items targets.now (map (bytes_at body.now) spans.now)) }
{
    for span in spans {
        pass_stanza(inbox, &stanza_at(alloc, body, *span)?, targets)?;
    }
    Ok(())
}

// One stanza for each of the streams. They hold its text together.
fn pass_stanza(inbox: &mut Inbox, text: &SharedText, targets: &StreamSet) -> Result<(), AllocError>
    ensures { OnOk result (inbox.new ≡ inbox.old ++ map (λ stream. Item stream text.now) targets.now) }
{
    for place in 0..targets.len() {
        let Some(stream) = targets.nth(place) else {
            return Ok(());
        };
        inbox.push(Inward::Item(stream, text.again()?))?;
    }
    Ok(())
}

fn pass_restarts(inbox: &mut Inbox, restart: bool, targets: &StreamSet) -> Result<(), AllocError>
    ensures { OnOk result (inbox.new ≡ inbox.old ++ restart_items targets.now restart) }
{
    if !restart {
        return Ok(());
    }
    restart_each(inbox, targets)
}

fn restart_each(inbox: &mut Inbox, targets: &StreamSet) -> Result<(), AllocError>
    ensures { OnOk result (inbox.new ≡ inbox.old ++ map Restart targets.now) }
{
    for place in 0..targets.len() {
        let Some(stream) = targets.nth(place) else {
            return Ok(());
        };
        inbox.push(Inward::Restart(stream))?;
    }
    Ok(())
}

fn pass_closes(inbox: &mut Inbox, copy: &RequestCopy, targets: &StreamSet) -> Result<(), AllocError>
    ensures { OnOk result (inbox.new ≡ inbox.old ++ close_items targets.now copy.now) }
{
    if !copy.request.terminate {
        return Ok(());
    }
    if copy.request.stream.is_none() {
        return Ok(());
    }
    close_each(inbox, targets)
}

fn close_each(inbox: &mut Inbox, targets: &StreamSet) -> Result<(), AllocError>
    ensures { OnOk result (inbox.new ≡ inbox.old ++ map Close targets.now) }
{
    for place in 0..targets.len() {
        let Some(stream) = targets.nth(place) else {
            return Ok(());
        };
        inbox.push(Inward::Close(stream))?;
    }
    Ok(())
}

fn pass_opened(
    alloc: Global,
    inbox: &mut Inbox,
    opened: &Option<StreamNo>,
    to: &Option<Text>,
) -> Result<(), AllocError>
    ensures { OnOk result (inbox.new ≡ inbox.old ++ open_items opened.now to.now) }
{
    let Some(stream) = opened else {
        return Ok(());
    };
    match to {
        None => Ok(()),
        Some(to) => inbox.push(Inward::Open(*stream, SharedText::new(alloc, to.copy_in(alloc)?)?)),
    }
}

// The bytes that lie here, as a text of their own.
fn stanza_at(alloc: Global, body: &[u8], span: Span) -> Result<SharedText, AllocError>
    ensures { IfOk result (λ text. text ≡ bytes_at body.now span) }
{
    let bytes = Vec::from_slice(alloc, piece(body, span))?;
    SharedText::new(alloc, Text::from_vec(bytes))
}

// The bytes of a body that lie here: those that there are.
fn piece(body: &[u8], span: Span) -> &[u8]
    ensures { result.now ≡ bytes_at body.now span }
{
    let end = span.end.min(body.len());
    let start = span.start.min(end);
    &body[start..end]
}

// The silence that is allowed until the next copy is processed: a pause that is short enough is for its seconds.
fn set_period(deadlines: &mut Deadlines, copy: &RequestCopy)
    ensures { IsShort deadlines.old copy.now → deadlines.new ≡ record deadlines.old { period = period_of deadlines.old copy.now } }
{
    deadlines.usual();
    if !copy.is_pause() {
        return;
    }
    if let Some(seconds) = copy.request.pause {
        deadlines.pause(seconds);
    }
}
