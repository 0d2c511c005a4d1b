// Held requests are answered, and the session ends (XEP-0124, sections 9, 13 and 14).
ghost use Rattle.std.specs.Prelude.{◌≡◌, ◌++◌, ◌==◌, ◌∷◌, ◌-◌, ◌≤◌, IfOk, List, None, OnOk, drop, false, if◌then◌else◌, length, nat_lt, true};
ghost use Rattle.std.specs.Option.{option_map, option_or};
ghost use Rattle.bosh_types.specs.Limits.{most_waiting};
ghost use Rattle.session_core.specs.Answers.{answer_oldest, has_reason, settled, settled_in};
ghost use Rattle.bosh_types.specs.declared.ending.Ending.TheVariants.{Closed};
ghost use Rattle.session_core.specs.Endings.{closing_condition, ended, terminal};
ghost use Rattle.session_core.specs.Outward.{first_stream, items_in, stanzas_in};
ghost use Rattle.session_core.specs.StandsFor.{StandsFor, held_of};
ghost use Rattle.session_core.specs.Processed.{Processed};
ghost use Rattle.session_core.specs.State.{PlainSession, answered_of, held, is_over};
ghost use Rattle.session_core.specs.Steps.{Answers, IsWritten, after_front, answer_by, closing_by, ending_closing, front_by, telling_of};
ghost use Rattle.session_core.specs.Words.{IsAnswerable};

use crate::held::HeldRequest;
use crate::outbox::Outbox;
use crate::outward::{Front, Outward};
use crate::session::Session;
use crate::words::LastWords;
use crate::written::Written;
use body_writer::{AnswerKind, AnswerParts, write_answer};
use bosh_types::{
    Closing, Condition, Ending, KeptAnswer, Rid, Row, SharedText, Stanzas, StreamNo, Text,
};
use std::alloc::{AllocError, Global};
use stream_names::Streams;

impl Session {
    #[tactic(auto, unfolding(crate::specs::StandsFor::StandsFor))]
    /// The session ends: each request that waits is given its last word.
    pub(crate) fn end(&mut self, alloc: Global, ending: Ending) -> Result<(), AllocError>
        ensures { (plain : PlainSession) → StandsFor self.old plain → is_over plain ≡ false
            → IsAnswerable (answered_of plain) ending → OnOk result (StandsFor self.new (ended ending plain)) }
    {
        let words = LastWords::at(self.answered, &ending);
        let word = words.word.text(alloc)?;
        let other = words.other.text(alloc)?;
        self.tickets.last_words(words.breaker, &word, &other)?;
        self.ending = Some(ending);
        Ok(())
    }

    /// The oldest held request is answered while it has a reason, and no other.
    pub(crate) fn settle(&mut self, alloc: Global) -> Result<(), AllocError>
        ensures { (plain : PlainSession) → StandsFor self.old plain → OnOk result (StandsFor self.new (settled plain)) }
    {
        for _request in 0..self.held.len() {
            if !self.has_reason() {
                return Ok(());
            }
            self.answer_oldest(alloc)?;
        }
        Ok(())
    }

    // The oldest held request is answered with what there is for it; a closing then ends the session.
    fn answer_oldest(&mut self, alloc: Global) -> Result<(), AllocError>
        ensures { (plain : PlainSession) → StandsFor self.old plain → has_reason plain ≡ true
            → OnOk result (StandsFor self.new (answer_oldest plain (held plain))) }
    {
        let Some(oldest) = self.held.oldest() else {
            return Ok(());
        };
        let rid = oldest.rid;
        match self.answer(alloc, oldest)? {
            None => Ok(()),
            Some(closing) => self.close(alloc, closing, rid),
        }
    }

    // The answer to this request took the closing of the last open stream.
    fn close(&mut self, alloc: Global, closing: Closing, rid: Rid) -> Result<(), AllocError>
        ensures { (plain : PlainSession) → StandsFor self.old plain → is_over plain ≡ false
            → OnOk result (StandsFor self.new (ended (Closed closing rid) plain)) }
    {
        self.end(alloc, Ending::Closed { closing, rid })
    }

    // A held request is given its answer. What it took may be the closing of the last open stream.
    fn answer(&mut self, alloc: Global, oldest: HeldRequest) -> Result<Option<Closing>, AllocError>
        ensures { (plain : PlainSession) (one : Processed) (later : List Processed) → StandsFor self.old plain
            → held plain ≡ one ∷ later → is_over plain ≡ false → oldest ≡ held_of one
            → IfOk result (λ closing. Answers self.new closing plain one) }
    {
        let front = take_front(alloc, &mut self.outbox, oldest.prompt)?;
        close_by(&mut self.streams, &front);
        let closing = ending_closing(&self.streams, &front);
        let Written { text, payloads } = self.write(alloc, &oldest, &front)?;
        self.tickets.answer(oldest.rid, &text)?;
        let _oldest = self.held.take_oldest();
        self.acks.reported();
        self.answered = oldest.rid;
        self.last_given = self.moment;
        self.last_bare = payloads == 0;
        let _fallen = self.keep.put(
            oldest.rid,
            KeptAnswer {
                bytes: text,
                given: self.moment,
                payloads,
            },
        );
        Ok(closing)
    }

    // The answer to a request that takes this.
    fn write(
        &self,
        alloc: Global,
        request: &HeldRequest,
        front: &Front,
    ) -> Result<Written, AllocError>
        requires few { length (stanzas_in (items_in front.now)) ≤ most_waiting }
        ensures { IfOk result (λ written. IsWritten self.now request.now front.now written) }
    {
        let parts = self.answer_parts(alloc, request, front)?;
        let payloads = parts.payloads.len() as u32;
        let text = SharedText::new(alloc, write_answer(alloc, &parts)?)?;
        Ok(Written { text, payloads })
    }

    fn answer_parts(
        &self,
        alloc: Global,
        request: &HeldRequest,
        front: &Front,
    ) -> Result<AnswerParts, AllocError>
        ensures { IfOk result (λ parts. parts ≡ answer_by (telling_of self.now) request.now front.now) }
    {
        match front {
            Front::OfClosing(stream, closing) => Ok(self.closing_parts(
                alloc,
                request.rid,
                *stream,
                *closing,
            )),
            Front::OfStanzas(items) => {
                let payloads = payloads_of(alloc, items.as_slice())?;
                Ok(AnswerParts {
                    created: None,
                    kind: AnswerKind::Usual,
                    condition: None,
                    stream: self.stream_for(request, items.as_slice()),
                    ack: self.acks.ack_for(request.rid, self.last),
                    report: self.report(),
                    payloads: Stanzas::from_vec(payloads),
                })
            }
        }
    }

    // The answer that tells of a closing: it is terminal where no stream is open any more.
    fn closing_parts(
        &self,
        alloc: Global,
        rid: Rid,
        stream: StreamNo,
        closing: Closing,
    ) -> AnswerParts
        ensures { result ≡ (if length self.now.streams.running == 0 then terminal (closing_condition closing) else closing_by (telling_of self.now) rid stream closing) }
    {
        if self.streams.running().is_empty() {
            return terminal_parts(alloc, closing);
        }
        AnswerParts {
            created: None,
            kind: AnswerKind::Terminate,
            condition: condition_of(closing),
            stream: Some(stream),
            ack: self.acks.ack_for(rid, self.last),
            report: self.report(),
            payloads: Stanzas::from_vec(Vec::new(alloc)),
        }
    }

    // The stream that an answer names (XEP-0124, section 16): that which its request opened; or that of the items, where more than
    // one was ever opened.
    fn stream_for(&self, request: &HeldRequest, items: &[Outward]) -> Option<StreamNo>
        ensures { result ≡ option_or request.now.opened (if nat_lt 1 self.now.streams.opened then first_stream items.now else None) }
    {
        let added = request.opened.stream();
        if added.is_some() {
            return added;
        }
        if self.streams.opened() < 2 {
            return None;
        }
        match items.first() {
            Some(item) => Some(item.stream()),
            None => None,
        }
    }

    // The due report, with the time since that answer was given.
    fn report(&self) -> Option<(Rid, u64)>
        ensures { result ≡ option_map (λ due. (due.0, self.now.moment - due.1)) self.now.acks.due }
    {
        match self.acks.report_due() {
            Some((rid, given)) => Some((rid, self.moment.millis().saturating_sub(given.millis()))),
            None => None,
        }
    }
}

// Takes what an answer takes of the items that wait.
fn take_front(alloc: Global, outbox: &mut Outbox, prompt: bool) -> Result<Front, AllocError>
    ensures front { IfOk result (λ front. front ≡ front_by prompt outbox.old.items) }
    ensures few { IfOk result (λ front. length (stanzas_in (items_in front)) ≤ most_waiting) }
    ensures after { IfOk result (λ front. outbox.new ≡ record outbox.old { items = drop (length (items_in front)) outbox.old.items }) }
{
    if prompt {
        return Ok(Front::OfStanzas(Row::from_vec(Vec::new(alloc))));
    }
    outbox.take_front()
}

// A closing that was taken closes its stream.
fn close_by(streams: &mut Streams, front: &Front)
    ensures { streams.new ≡ after_front streams.old front.now }
{
    if let Front::OfClosing(stream, _) = front {
        let _shut = streams.close(*stream);
    }
}

// The closing that a front is, where no stream is open any more.
fn ending_closing(streams: &Streams, front: &Front) -> Option<Closing>
    ensures { result ≡ ending_closing streams.now.running front.now }
{
    let Front::OfClosing(_, closing) = front else {
        return None;
    };
    if streams.running().is_empty() {
        return Some(*closing);
    }
    None
}

// The terminal answer that tells of a closing.
fn terminal_parts(alloc: Global, closing: Closing) -> AnswerParts
    ensures { result ≡ terminal (closing_condition closing) }
{
    AnswerParts {
        created: None,
        kind: AnswerKind::Terminate,
        condition: condition_of(closing),
        stream: None,
        ack: None,
        report: None,
        payloads: Stanzas::from_vec(Vec::new(alloc)),
    }
}

// What the client is told of a closing (XEP-0206, section 8).
fn condition_of(closing: Closing) -> Option<Condition>
    ensures { result ≡ closing_condition closing }
{
    match closing {
        Closing::Plain => None,
        Closing::RemoteConnectionFailed => Some(Condition::RemoteConnectionFailed),
        Closing::RemoteStreamError => Some(Condition::RemoteStreamError),
        Closing::SystemShutdown => Some(Condition::SystemShutdown),
    }
}

// The stanzas among these.
fn payloads_of(alloc: Global, items: &[Outward]) -> Result<Vec<Text>, AllocError>
    ensures { IfOk result (λ texts. texts.items ≡ stanzas_in items.now) }
{
    let mut texts = Vec::with_capacity(alloc, items.len())?;
    for item in items {
        if let Outward::Stanza(_, bytes) = item {
            texts.push(Text::from_vec(Vec::from_slice(alloc, bytes.as_slice())?))?;
        }
    }
    Ok(texts)
}
