// The lines of a back end, and what its calls do to the one of a wire.
ghost use Rattle.std.specs.Prelude.{◌≡◌, ◌≢◌, ◌<◌, ℕ, All, IfNone, IfSome, OnErr, OnOk, length, slice_index_or};
ghost use Rattle.stream_backend.specs.Flow.{IsFlow};
ghost use Rattle.stream_backend.specs.Serving.{AreApart, ClosesLine, Hears, HoldsLine, IsPlaceFor, KnowsStage, OnWire, PassesLine, ResumesLine};
ghost use Rattle.stream_backend.specs.Stages.{IsStage};

use crate::dialling::part;
use crate::line::Line;
use crate::stage::Stage;
use bosh_types::{Inward, Moment, Wire};
use server_ports::Network;
use std::alloc::AllocError;
use xmpp_stream::PollLink;

// What is known of their streams.
pub(crate) fn see<L: PollLink + Drop>(lines: &[Line<L>])
    ensures { All (λ line. KnowsStage IsFlow line.stage) lines.now }
{
    for line in lines {
        line.see();
    }
}

// The place of the line of this wire.
pub(crate) fn place_of<L: PollLink + Drop>(lines: &[Line<L>], wire: Wire) -> Option<usize>
    ensures some { IfSome result (λ at. (at < length lines.now) × ((d : _) → (slice_index_or lines.now at d).wire ≡ wire)) }
    ensures none { IfNone result (All (λ line. line.wire ≢ wire) lines.now) }
{
    for (at, line) in lines.iter().enumerate() {
        if line.wire().number() == wire.number() {
            return Some(at);
        }
    }
    None
}

// The place for a line of this wire: that of its line, or of one of which nothing is left.
pub(crate) fn place_for<L: PollLink + Drop>(lines: &[Line<L>], wire: Wire) -> Option<usize>
    requires { AreApart lines.now }
    ensures some { IfSome result (λ at. IsPlaceFor wire at lines.now) }
    ensures none { IfNone result (All (λ line. line.wire ≢ wire) lines.now) }
{
    match place_of(lines, wire) {
        Some(at) => Some(at),
        None => free_place(lines),
    }
}

// The place of a line of which nothing is left.
fn free_place<L: PollLink + Drop>(lines: &[Line<L>]) -> Option<usize>
    ensures some { IfSome result (λ at. (at < length lines.now) × ((d : _) → (slice_index_or lines.now at d).stage ≡ Stage.Over)) }
{
    for (at, line) in lines.iter().enumerate() {
        if line.is_over() {
            return Some(at);
        }
    }
    None
}

// Owes an item on the wire. The only error is want of memory, after which all is as before.
#[tactic(auto, using(crate::proofs::PlaceLemmas::on_no_wire))]
pub(crate) fn owe<N: Network>(
    lines: &mut Vec<Line<N::Link>>,
    network: &mut N,
    wire: Wire,
    item: &Inward,
) -> Result<(), AllocError>
where
    N::Link: PollLink + Drop,
    requires apart { AreApart lines.old.items }
    requires stages { All (λ line. IsStage line.stage) lines.old.items }
    ensures ok { OnOk result (OnWire wire (PassesLine item.now) lines.old.items lines.new.items) }
    ensures err { OnErr result (lines.new.items ≡ lines.old.items) }
{
    match place_of(lines, wire) {
        Some(at) => owe_at(&mut lines[at], network, item),
        None => Ok(()),
    }
}

fn owe_at<N: Network>(
    line: &mut Line<N::Link>,
    network: &mut N,
    item: &Inward,
) -> Result<(), AllocError>
where
    N::Link: PollLink + Drop,
    requires { IsStage line.old.stage }
    ensures ok { OnOk result (PassesLine item.now line.old line.new) }
    ensures err { OnErr result (line.new ≡ line.old) }
{
    if line.pass(item)? {
        part(line, network, Stage::Failed);
    }
    Ok(())
}

// Closes the stream of the wire. The only error is want of memory, after which all is as before.
#[tactic(auto, using(crate::proofs::PlaceLemmas::on_no_wire))]
pub(crate) fn end<L: PollLink + Drop>(
    lines: &mut Vec<Line<L>>,
    wire: Wire,
    now: Moment,
) -> Result<(), AllocError>
    requires { AreApart lines.old.items }
    ensures ok { OnOk result (OnWire wire (ClosesLine now) lines.old.items lines.new.items) }
    ensures err { OnErr result (lines.new.items ≡ lines.old.items) }
{
    match place_of(lines, wire) {
        Some(at) => end_at(&mut lines[at], now),
        None => Ok(()),
    }
}

fn end_at<L: PollLink + Drop>(line: &mut Line<L>, now: Moment) -> Result<(), AllocError>
    ensures ok { OnOk result (ClosesLine now line.old line.new) }
    ensures err { OnErr result (line.new ≡ line.old) }
{
    line.close(now)
}

// Nothing is read on this wire.
#[tactic(auto, using(crate::proofs::PlaceLemmas::on_no_wire))]
pub(crate) fn hold<L: PollLink + Drop>(lines: &mut Vec<Line<L>>, wire: Wire)
    requires { AreApart lines.old.items }
    ensures { OnWire wire HoldsLine lines.old.items lines.new.items }
{
    match place_of(lines, wire) {
        Some(at) => lines[at].hold(),
        None => {}
    }
}

// This wire is read again.
#[tactic(auto, using(crate::proofs::PlaceLemmas::on_no_wire))]
pub(crate) fn resume<L: PollLink + Drop>(lines: &mut Vec<Line<L>>, wire: Wire)
    requires { AreApart lines.old.items }
    ensures { OnWire wire ResumesLine lines.old.items lines.new.items }
{
    match place_of(lines, wire) {
        Some(at) => lines[at].resume(),
        None => {}
    }
}

// Notes on which lines something may have happened: those of these wires, or all.
pub(crate) fn note_news<L: PollLink + Drop>(lines: &mut [Line<L>], wires: &[u64], all: bool)
    ensures { Hears lines.old lines.new }
{
    for line in lines.iter_mut() {
        wake_if(line, wires, all);
    }
}

fn wake_if<L: PollLink + Drop>(line: &mut Line<L>, wires: &[u64], all: bool)
    ensures { line.new ≡ record line.old { noisy = line.new.noisy } }
{
    if all || wires.contains(&line.wire().number()) {
        line.wake();
    }
}
