// The lines are looked at, one after the other.
ghost use Rattle.std.specs.Prelude.{◌≡◌, ◌≢◌, ◌+◌, ◌<◌, ◌≤◌, IfNone, IfSome, length};
ghost use Rattle.stream_backend.specs.Lines.{AreStill, FindsLine, Sees, Tells};
ghost use Rattle.stream_backend.specs.Serving.{AllStill, SeesOne};
ghost use Rattle.stream_backend.specs.declared.looking.Look.TheVariants as looks;
ghost use Rattle.stream_backend.specs.declared.stage.Found.TheVariants as found;

use crate::dialling::part;
use crate::line::Line;
use crate::stage::{Found, Stage};
use crate::watch::Watch;
use bosh_types::{Closing, Moment, SharedText, Wire};
use server_ports::Network;
use std::alloc::AllocError;
use xmpp_stream::PollLink;

// What a look at a line has to tell.
#[derive(Debug, Drop)]
pub(crate) enum Look {
    Nothing,
    Item(SharedText),
    Closed(Closing),
    NoMemory,
}

// Looks at a line.
fn look_at<N: Network, W: Watch<N::Link>>(
    line: &mut Line<N::Link>,
    network: &mut N,
    watch: &mut W,
    now: Moment,
) -> Look
where
    N::Link: PollLink + Drop,
    ensures { Tells result line.old line.new }
{
    match line.look(now) {
        Ok(found) => settle(line, network, watch, now, found),
        Err(AllocError) => Look::NoMemory,
    }
}

// Does what follows from what was found.
fn settle<N: Network, W: Watch<N::Link>>(
    line: &mut Line<N::Link>,
    network: &mut N,
    watch: &mut W,
    now: Moment,
    found: Found,
) -> Look
where
    N::Link: PollLink + Drop,
    ensures { (start : _) → FindsLine found start line.old → Tells result start line.new }
{
    match found {
        Found::Quiet => {
            line.rest();
            Look::Nothing
        }
        Found::Busy => {
            watch.again(line.wire());
            Look::Nothing
        }
        Found::Item(text) => Look::Item(text),
        Found::Ended(closing) => {
            line.leave(now);
            Look::Closed(closing)
        }
        Found::Failed => fail(line, network),
        Found::Gone => {
            part(line, network, Stage::Over);
            Look::Nothing
        }
    }
}

// The line has failed, which is told now, or once it isn't held.
fn fail<N: Network>(line: &mut Line<N::Link>, network: &mut N) -> Look
where
    N::Link: PollLink + Drop,
    ensures { (start : _) → FindsLine found.Failed start line.old → Tells result start line.new }
{
    if line.is_held() {
        line.rest();
        part(line, network, Stage::Failed);
        return Look::Nothing;
    }
    part(line, network, Stage::Over);
    Look::Closed(Closing::RemoteConnectionFailed)
}

// What a look at many lines has to tell.
#[derive(Debug, Drop)]
pub(crate) struct Sight {
    pub(crate) wire: Wire,
    pub(crate) look: Look,
    // The place of the line.
    pub(crate) at: usize,
}

// Looks at the lines after this place and then at those up to it, until one has something to tell.
#[tactic(auto, using(crate::proofs::LineLemmas::still_round, crate::proofs::LineLemmas::sees_round, crate::proofs::LineLemmas::sees_first))]
pub(crate) fn look_round<N: Network, W: Watch<N::Link>>(
    lines: &mut Vec<Line<N::Link>>,
    network: &mut N,
    watch: &mut W,
    now: Moment,
    turn: usize,
) -> Option<Sight>
where
    N::Link: PollLink + Drop,
    ensures none { IfNone result (AllStill lines.old.items lines.new.items) }
    ensures some { IfSome result (λ sight. SeesOne sight.at sight.look sight.wire lines.old.items lines.new.items × (sight.look ≢ looks.Nothing)) }
{
    let len = lines.len();
    let from = if turn < len { turn + 1 } else { 0 };
    match look_from(lines, network, watch, now, from, len) {
        Some(sight) => Some(sight),
        None => match look_from(lines, network, watch, now, 0, from) {
            Some(sight) => Some(sight),
            None => None,
        },
    }
}

// Looks at the lines from one place to another, until one has something to tell.
#[tactic(auto, using(crate::proofs::LineLemmas::still_none, crate::proofs::LineLemmas::still_more, crate::proofs::LineLemmas::sees_more))]
fn look_from<N: Network, W: Watch<N::Link>>(
    lines: &mut Vec<Line<N::Link>>,
    network: &mut N,
    watch: &mut W,
    now: Moment,
    from: usize,
    to: usize,
) -> Option<Sight>
where
    N::Link: PollLink + Drop,
    requires { (from ≤ to) × (to ≤ length lines.old.items) }
    ensures none { IfNone result (AreStill from to lines.old.items lines.new.items) }
    ensures some { IfSome result (λ sight. (from ≤ sight.at) × (sight.at < to) × Sees from sight.at sight.look sight.wire lines.old.items lines.new.items × (sight.look ≢ looks.Nothing)) }
{
    for at in from..to {
        match look_at_place(lines, network, watch, now, at) {
            Some(sight) => return Some(sight),
            None => {}
        }
    }
    None
}

fn look_at_place<N: Network, W: Watch<N::Link>>(
    lines: &mut Vec<Line<N::Link>>,
    network: &mut N,
    watch: &mut W,
    now: Moment,
    at: usize,
) -> Option<Sight>
where
    N::Link: PollLink + Drop,
    requires { at < length lines.old.items }
    ensures none { IfNone result (AreStill at (at + 1) lines.old.items lines.new.items) }
    ensures some { IfSome result (λ sight. (sight.at ≡ at) × Sees at at sight.look sight.wire lines.old.items lines.new.items × (sight.look ≢ looks.Nothing)) }
{
    let line = &mut lines[at];
    let wire = line.wire();
    let look = look_at(line, network, watch, now);
    match look {
        Look::Nothing => None,
        look => Some(Sight { wire, look, at }),
    }
}
