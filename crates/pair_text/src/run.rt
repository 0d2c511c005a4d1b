// What a script of two ends is run over, and what a line of it does.
ghost use Rattle.std.specs.Prelude.{◌≡◌, IfOk, map};
ghost use Rattle.world_laws.specs.Setup.{IsAllowed};
ghost use Rattle.world_laws.specs.World.{PlainWorld};
ghost use Rattle.two_ends.specs.Worlds.{IsWorld};
ghost use Rattle.pair_text.specs.declared.line.PairLine.TheVariants.{Client};
ghost use Rattle.pair_text.specs.declared.report.PairReport.TheVariants.{Saw};
ghost use Rattle.pair_text.specs.Said.{IsSaid};
ghost use Rattle.pair_text.specs.Script.{PlainPairRun, bad_step, end_step, event_step, first_step, is_no_copy, is_past, later_step, said_step, second_step, setup_of};
ghost use Rattle.pair_text.specs.Stands.{Does, IsRun};

use crate::host::Host;
use crate::line::{ClientTerms, PairLine};
use crate::report::PairReport;
use bosh_client::ClientSetup;
use bosh_types::Text;
use script_text::{BadKind, Driven};
use std::alloc::{AllocError, Global};
use two_ends::World;
use world_laws::{Seen, SeenItem, WorldEvent};

// What the lines so far make of a script.
#[derive(Drop)]
pub(crate) enum Run {
    // No line was read.
    Beginning,
    // Its first line names the host and its greeting.
    Hosted(Host),
    // Its second line tells the client, and the world goes on.
    Meeting(Box<World>),
}

// What follows a line.
#[derive(Drop)]
pub(crate) enum Next {
    Goes(Run),
    Ends(Driven),
}

// What a line does: its lines of the report, and what follows it.
#[derive(Drop)]
pub(crate) struct Effect {
    pub(crate) lines: Vec<PairReport>,
    pub(crate) next: Next,
}

impl Effect {
    // The script is bad at this line.
    pub(crate) fn bad(alloc: Global, line: u64, kind: BadKind) -> Result<Effect, AllocError>
        ensures { IfOk result (λ effect. Does effect (bad_step line kind)) }
    {
        let mut lines = Vec::new(alloc);
        lines.push(PairReport::Bad { line, kind })?;
        Ok(Effect {
            lines,
            next: Next::Ends(Driven::Bad { line, kind }),
        })
    }
}

// What a line does that says this.
pub(crate) fn effect_by(
    alloc: Global,
    run: Run,
    n: u64,
    said: PairLine,
) -> Result<Effect, AllocError>
    requires { IsSaid said }
    ensures { IfOk result (λ effect. (plain : PlainPairRun) → IsRun run plain → Does effect (said_step plain n said)) }
{
    match run {
        Run::Beginning => first_effect(alloc, n, said),
        Run::Hosted(host) => second_effect(alloc, host, n, said),
        Run::Meeting(world) => later_effect(alloc, world, n, said),
    }
}

// The first line is that of the host.
fn first_effect(alloc: Global, n: u64, said: PairLine) -> Result<Effect, AllocError>
    requires { IsSaid said }
    ensures { IfOk result (λ effect. Does effect (first_step n said)) }
{
    match said {
        PairLine::Host { name, greeting } => Ok(Effect {
            lines: Vec::new(alloc),
            next: Next::Goes(Run::Hosted(Host { name, greeting })),
        }),
        _ => Effect::bad(alloc, n, BadKind::Grammar),
    }
}

// The second line is that of the client.
fn second_effect(alloc: Global, host: Host, n: u64, said: PairLine) -> Result<Effect, AllocError>
    requires { IsSaid said }
    ensures { IfOk result (λ effect. Does effect (second_step host.name host.greeting n said)) }
{
    match said {
        PairLine::Client(terms) => meet(alloc, host, n, terms),
        _ => Effect::bad(alloc, n, BadKind::Grammar),
    }
}

// The world begins, where the client may begin with these terms.
fn meet(alloc: Global, host: Host, n: u64, terms: ClientTerms) -> Result<Effect, AllocError>
    requires { IsSaid (Client terms) }
    ensures { IfOk result (λ effect. Does effect (second_step host.name host.greeting n (Client terms))) }
{
    let setup = setup_of(alloc, host.name.as_slice(), terms)?;
    if !setup.is_valid() {
        return Effect::bad(alloc, n, BadKind::Grammar);
    }
    let world = Box::new(alloc, World::new(alloc, host.name, host.greeting, setup)?)?;
    Ok(Effect {
        lines: Vec::new(alloc),
        next: Next::Goes(Run::Meeting(world)),
    })
}

// A client that wants to reach this host, and makes its keys from the word `seed`.
fn setup_of(alloc: Global, host: &[u8], terms: ClientTerms) -> Result<ClientSetup, AllocError>
    ensures { IfOk result (λ setup. setup ≡ setup_of host.now terms) }
{
    let ClientTerms {
        first,
        wait,
        hold,
        ack,
        keys,
    } = terms;
    Ok(ClientSetup {
        first,
        to: Text::from_vec(Vec::from_slice(alloc, host)?),
        wait,
        hold,
        ack,
        seed: Text::from_vec(Vec::from_slice(alloc, b"seed")?),
        keys,
    })
}

// A line after the first two.
fn later_effect(
    alloc: Global,
    world: Box<World>,
    n: u64,
    said: PairLine,
) -> Result<Effect, AllocError>
    requires { IsSaid said }
    ensures { IfOk result (λ effect. (w : PlainWorld) → IsWorld world.value w → Does effect (later_step w n said)) }
{
    match said {
        PairLine::Event(event) => happens(alloc, world, n, event),
        PairLine::End => end(alloc, &world, n),
        _ => Effect::bad(alloc, n, BadKind::Grammar),
    }
}

// This happens in the world.
fn happens(
    alloc: Global,
    mut world: Box<World>,
    n: u64,
    event: WorldEvent,
) -> Result<Effect, AllocError>
    requires { IsAllowed event }
    ensures { IfOk result (λ effect. (w : PlainWorld) → IsWorld world.value w → Does effect (event_step w n event)) }
{
    if is_past(&world, &event) {
        return Effect::bad(alloc, n, BadKind::Time);
    }
    let seen = world.step(alloc, event)?;
    if is_no_copy(seen.as_slice()) {
        return Effect::bad(alloc, n, BadKind::Copy);
    }
    let lines = saw_all(alloc, seen)?;
    Ok(Effect {
        lines,
        next: Next::Goes(Run::Meeting(world)),
    })
}

// Moments don't go back.
fn is_past(world: &World, event: &WorldEvent) -> bool
    ensures { (w : PlainWorld) → IsWorld world.now w → result ≡ is_past w event.now }
{
    match event {
        WorldEvent::At(moment) => moment.millis() < world.moment().millis(),
        _ => false,
    }
}

// Whether it was a copy that was never made, or an answer that was never written.
fn is_no_copy(seen: &[SeenItem]) -> bool
    ensures { result ≡ is_no_copy seen.now }
{
    match seen {
        [SeenItem::NoCopy, ..] => true,
        _ => false,
    }
}

// The lines that tell what was seen.
fn saw_all(alloc: Global, seen: Seen) -> Result<Vec<PairReport>, AllocError>
    ensures { IfOk result (λ lines. lines.items ≡ map Saw seen) }
{
    let mut lines = Vec::new(alloc);
    for item in seen.into_vec() {
        lines.push(PairReport::Saw(item))?;
    }
    Ok(lines)
}

// The last line.
fn end(alloc: Global, world: &World, n: u64) -> Result<Effect, AllocError>
    ensures { IfOk result (λ effect. (w : PlainWorld) → IsWorld world.now w → Does effect (end_step w n)) }
{
    let mut lines = Vec::new(alloc);
    lines.push(PairReport::Summed(world.sums()))?;
    lines.push(PairReport::Done { line: n })?;
    Ok(Effect {
        lines,
        next: Next::Ends(Driven::Done),
    })
}
