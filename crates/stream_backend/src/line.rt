// One wire, and where its stream stands.
ghost use Rattle.std.specs.Prelude.{◌≡◌, ◌↔◌, IfOk, IsTrue, OnErr, OnOk, false, true};
ghost use Rattle.stream_backend.specs.Flow.{IsFlow};
ghost use Rattle.stream_backend.specs.Serving.{KnowsStage};
ghost use Rattle.stream_backend.specs.Lines.{FindsLine, WantsLine};
ghost use Rattle.stream_backend.specs.Stages.{IsStage, OwesTooMuch, StageCloses, StagePasses, left_from};

use crate::flow::Flow;
use crate::lists::Lists;
use crate::stage::{Found, Stage};
use bosh_types::{Inward, Moment, Wire};
use std::alloc::AllocError;
use std::marker::Model;
use std::mem::replace;
use std::snapshot::Snapshot;
use xmpp_stream::PollLink;

#[derive(Drop)]
pub(crate) struct Line<L: PollLink + Drop> {
    wire: Wire,
    stage: Stage<Flow<L>>,
    is_held: bool,
    // Something may have happened since there was nothing to be had.
    is_noisy: bool,
    // What was told when the wire was opened.
    before: Snapshot<Lists>,
}

impl<L: PollLink + Drop> Model for Line<L> {
    ghost use Rattle.stream_backend.specs.Lines.{Line};

    ghost Value = { Line };

    ghost view = { λ l. record { wire = l.wire; stage = l.stage; held = l.is_held; noisy = l.is_noisy; before = l.before.value } };
}

impl<L: PollLink + Drop> Line<L> {
    // A line that begins in this stage. It takes no memory.
    pub(crate) fn new(wire: Wire, stage: Stage<Flow<L>>, lists: &Lists) -> Line<L>
        ensures { result ≡ record { wire = wire; stage = stage; held = false; noisy = true; before = lists.now } }
    {
        Line {
            wire,
            stage,
            is_held: false,
            is_noisy: true,
            before: Snapshot::of(lists),
        }
    }

    pub(crate) fn wire(&self) -> Wire
        ensures { result ≡ self.now.wire }
    {
        self.wire
    }

    pub(crate) fn is_held(&self) -> bool
        ensures { result ≡ self.now.held }
    {
        self.is_held
    }

    // Nothing is left of its stream.
    pub(crate) fn is_over(&self) -> bool
        ensures { IsTrue result ↔ (self.now.stage ≡ Stage.Over) }
    {
        self.stage.is_over()
    }

    // What is known of its stream.
    pub(crate) fn see(&self)
        ensures { KnowsStage IsFlow self.now.stage }
    {
        self.stage.see();
    }

    // Owes an item on an open stream, and says whether too much is owed then. The only error is want of memory, after which all is
    // as before.
    pub(crate) fn pass(&mut self, item: &Inward) -> Result<bool, AllocError>
        requires { IsStage self.old.stage }
        ensures ok { OnOk result (StagePasses item.now self.old.stage self.new.stage) }
        ensures noisy { OnOk result (self.new ≡ record self.old { stage = self.new.stage; noisy = true }) }
        ensures much { IfOk result (λ much. IsTrue much ↔ OwesTooMuch self.new.stage) }
        ensures err { OnErr result (self.new ≡ self.old) }
    {
        let much = self.stage.pass(item)?;
        self.is_noisy = true;
        Ok(much)
    }

    // Owes the end tag on an open stream, and lets it leave from now on. The only error is want of memory, after which all is as
    // before.
    pub(crate) fn close(&mut self, now: Moment) -> Result<(), AllocError>
        ensures ok { OnOk result (StageCloses now self.old.stage self.new.stage) }
        ensures others { OnOk result (self.new ≡ record self.old { stage = self.new.stage; held = false; noisy = true }) }
        ensures err { OnErr result (self.new ≡ self.old) }
    {
        self.stage.close(now)?;
        self.is_held = false;
        self.is_noisy = true;
        Ok(())
    }

    // An open stream leaves from now on.
    pub(crate) fn leave(&mut self, now: Moment)
        ensures { self.new ≡ record self.old { stage = left_from now self.old.stage } }
    {
        self.stage.leave(now);
    }

    // The stream stands so from now on. How it stood before.
    pub(crate) fn put(&mut self, stage: Stage<Flow<L>>) -> Stage<Flow<L>>
        ensures old { result ≡ self.old.stage }
        ensures new { self.new ≡ record self.old { stage = stage } }
    {
        replace(&mut self.stage, stage)
    }

    // Looks at the line. The only error is want of memory, after which a look finds the same.
    pub(crate) fn look(&mut self, now: Moment) -> Result<Found, AllocError>
        ensures ok { IfOk result (λ what. FindsLine what self.old self.new) }
        ensures err { OnErr result (WantsLine self.old self.new) }
    {
        self.stage.look(self.is_noisy, self.is_held, now)
    }

    // Something may have happened.
    pub(crate) fn wake(&mut self)
        ensures { self.new ≡ record self.old { noisy = true } }
    {
        self.is_noisy = true;
    }

    // There is nothing to be had until something happens.
    pub(crate) fn rest(&mut self)
        ensures { self.new ≡ record self.old { noisy = false } }
    {
        self.is_noisy = false;
    }

    // Nothing is read on it.
    pub(crate) fn hold(&mut self)
        ensures { self.new ≡ record self.old { held = true } }
    {
        self.is_held = true;
    }

    // It is read again.
    pub(crate) fn resume(&mut self)
        ensures { self.new ≡ record self.old { held = false; noisy = true } }
    {
        self.is_held = false;
        self.is_noisy = true;
    }
}
