// Where a wire's stream stands.
ghost use Rattle.std.specs.Prelude.{◌≡◌, ◌↔◌, IfOk, IfNone, IfSome, IsSome, IsTrue, OnErr, OnOk, false, true};
ghost use Rattle.stream_backend.specs.Flow.{IsFlow};
ghost use Rattle.stream_backend.specs.Serving.{KnowsStage};
ghost use Rattle.stream_backend.specs.Stages.{Finds, IsStage, LeavingFinds, OpenFinds, OwesTooMuch, StageCloses, StagePasses, Wants, left_from, leaves_until};
ghost use Rattle.stream_backend.specs.declared.stage.Found.TheVariants as found;

use crate::flow::Flow;
use bosh_types::{Closing, Inward, Moment, SharedText};
use std::alloc::AllocError;
use std::mem::replace;
use xmpp_stream::{Came, Paid, PollLink};

// How many bytes a wire may owe.
const MOST_OWED: usize = 4_194_304;

// How long a stream that was closed from this end is read on, in milliseconds.
const LEAVING_MILLIS: u64 = 2_000;

// How many stanzas of a stream that is closed are let go of in one look.
const MOST_LET_GO: u32 = 128;

#[derive(Drop)]
pub(crate) enum Stage<S> {
    Open(S),
    // It was closed from this end: what is owed is given, and what comes is let go of, until this moment.
    Leaving(S, Moment),
    // It failed, which is still to be told.
    Failed,
    // Nothing is left of it.
    Over,
}

// What a look at a stream found.
#[derive(Debug, Drop)]
pub(crate) enum Found {
    // There is nothing to be had now.
    Quiet,
    // Much was taken, and nothing is whole.
    Busy,
    Item(SharedText),
    // The stream came to its end or goes wrong, and its end tag is owed.
    Ended(Closing),
    // The link failed or came to its end before the stream's, or that is still to be told.
    Failed,
    // A stream that was closed from this end is over.
    Gone,
}

impl<L: PollLink + Drop> Stage<Flow<L>> {
    // Nothing is left of it.
    pub(crate) fn is_over(&self) -> bool
        ensures { IsTrue result ↔ (self.now ≡ Stage.Over) }
    {
        match self {
            Stage::Over => true,
            Stage::Open(_) | Stage::Leaving(_, _) | Stage::Failed => false,
        }
    }

    // What is known of every stream.
    pub(crate) fn see(&self)
        ensures { KnowsStage IsFlow self.now }
    {
        match self {
            Stage::Open(flow) => flow.see(),
            Stage::Leaving(flow, _) => flow.see(),
            Stage::Failed | Stage::Over => {}
        }
    }

    // Owes an item on an open stream, and says whether too much is owed then. The only error is want of memory, after which all is
    // as before.
    pub(crate) fn pass(&mut self, item: &Inward) -> Result<bool, AllocError>
        requires { IsStage self.old }
        ensures ok { OnOk result (StagePasses item.now self.old self.new) }
        ensures much { IfOk result (λ much. IsTrue much ↔ OwesTooMuch self.new) }
        ensures err { OnErr result (self.new ≡ self.old) }
    {
        match self {
            Stage::Open(flow) => {
                flow.pass(item)?;
                Ok(flow.owed() > MOST_OWED)
            }
            Stage::Leaving(_, _) | Stage::Failed | Stage::Over => Ok(false),
        }
    }

    // Owes the end tag on an open stream, and lets it leave from now on. The only error is want of memory, after which all is as
    // before.
    pub(crate) fn close(&mut self, now: Moment) -> Result<(), AllocError>
        ensures ok { OnOk result (StageCloses now self.old self.new) }
        ensures err { OnErr result (self.new ≡ self.old) }
    {
        match self {
            Stage::Open(flow) => flow.close()?,
            Stage::Leaving(_, _) => return Ok(()),
            Stage::Failed | Stage::Over => {
                *self = Stage::Over;
                return Ok(());
            }
        }
        self.leave(now);
        Ok(())
    }

    // An open stream leaves from now on.
    pub(crate) fn leave(&mut self, now: Moment)
        ensures { self.new ≡ left_from now self.old }
    {
        match replace(self, Stage::Over) {
            Stage::Open(flow) => *self = Stage::Leaving(flow, two_seconds_after(now)),
            other => *self = other,
        }
    }

    // Looks at the stream. The only error is want of memory, after which a look finds the same.
    pub(crate) fn look(
        &mut self,
        is_noisy: bool,
        is_held: bool,
        now: Moment,
    ) -> Result<Found, AllocError>
        ensures ok { IfOk result (λ what. Finds what is_held self.old self.new) }
        ensures err { OnErr result (Wants self.old self.new) }
    {
        match self {
            Stage::Open(flow) => look_open(flow, is_noisy, is_held),
            Stage::Leaving(flow, until) => Ok(look_leaving(flow, is_noisy, *until <= now)),
            Stage::Failed => Ok(look_failed(is_held)),
            Stage::Over => Ok(Found::Quiet),
        }
    }
}

// The link of a stream, if it has one.
pub(crate) fn link_of<L: PollLink + Drop>(stage: Stage<Flow<L>>) -> Option<L> {
    match stage {
        Stage::Open(flow) => Some(flow.into_link()),
        Stage::Leaving(flow, _) => Some(flow.into_link()),
        Stage::Failed | Stage::Over => None,
    }
}

fn two_seconds_after(now: Moment) -> Moment
    ensures { result ≡ leaves_until now }
{
    Moment::from_millis(now.millis().saturating_add(LEAVING_MILLIS))
}

fn look_failed(is_held: bool) -> Found
    ensures held { is_held ≡ true → result ≡ Found.Quiet }
    ensures told { is_held ≡ false → result ≡ Found.Failed }
{
    if is_held { Found::Quiet } else { Found::Failed }
}

fn look_open<L: PollLink + Drop>(
    flow: &mut Flow<L>,
    is_noisy: bool,
    is_held: bool,
) -> Result<Found, AllocError>
    ensures ok { IfOk result (λ what. OpenFinds what is_held flow.old flow.new) }
    ensures err { OnErr result (OpenFinds found.Quiet is_held flow.old flow.new) }
{
    if !is_noisy {
        return Ok(Found::Quiet);
    }
    if is_held {
        return Ok(give_only(flow));
    }
    read_on(flow)
}

// Gives what is owed, and reads nothing.
fn give_only<L: PollLink + Drop>(flow: &mut Flow<L>) -> Found
    ensures { OpenFinds result true flow.old flow.new }
{
    match flow.give() {
        Paid::Failed => Found::Failed,
        Paid::All | Paid::Waits => Found::Quiet,
    }
}

// Gives what is owed, and reads what comes next. Where that is the end of the stream, its end tag is owed.
fn read_on<L: PollLink + Drop>(flow: &mut Flow<L>) -> Result<Found, AllocError>
    ensures ok { IfOk result (λ what. OpenFinds what false flow.old flow.new) }
    ensures err { OnErr result (OpenFinds found.Quiet false flow.old flow.new) }
{
    match flow.poll()? {
        Came::Item(text) => Ok(Found::Item(text)),
        Came::Closed { error } => {
            flow.close()?;
            Ok(Found::Ended(closing_of(error)))
        }
        Came::Broken(_) => {
            flow.close()?;
            Ok(Found::Ended(Closing::RemoteStreamError))
        }
        Came::NotYet => Ok(Found::Quiet),
        Came::Busy => Ok(Found::Busy),
        Came::End | Came::Failed => Ok(Found::Failed),
    }
}

fn closing_of(error: bool) -> Closing
    ensures error { error ≡ true → result ≡ Closing.RemoteStreamError }
    ensures plain { error ≡ false → result ≡ Closing.Plain }
{
    if error {
        Closing::RemoteStreamError
    } else {
        Closing::Plain
    }
}

// A stream that was closed from this end goes on, or is over.
#[tactic(auto, using(crate::proofs::FlowLemmas::goes_on))]
fn look_leaving<L: PollLink + Drop>(flow: &mut Flow<L>, is_noisy: bool, is_past: bool) -> Found
    ensures { LeavingFinds result flow.old flow.new }
{
    if is_past {
        return Found::Gone;
    }
    if !is_noisy {
        return Found::Quiet;
    }
    if flow.give() == Paid::Failed {
        return Found::Gone;
    }
    if flow.owed() == 0 {
        flow.finish();
    }
    let_go(flow)
}

// Reads what comes, and lets go of it.
#[tactic(auto, using(crate::proofs::FlowLemmas::goes_on))]
fn let_go<L: PollLink + Drop>(flow: &mut Flow<L>) -> Found
    ensures { LeavingFinds result flow.old flow.new }
{
    for _ in 0..MOST_LET_GO {
        match flow.read() {
            Ok(Came::Item(_)) => {}
            Ok(Came::NotYet) => return Found::Quiet,
            Ok(Came::Busy) | Err(AllocError) => return Found::Busy,
            Ok(Came::Closed { .. } | Came::Broken(_) | Came::End | Came::Failed) => {
                return Found::Gone;
            }
        }
    }
    Found::Busy
}
