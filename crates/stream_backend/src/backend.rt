// A back end with one stream for each wire.
ghost use Rattle.std.specs.Prelude.{◌≡◌, ◌≢◌, ◌<◌, [], ℕ, List, vec_capacity, vec_len};
ghost use Rattle.xmpp_backend.specs.Counts.{counted_on};
ghost use Rattle.xmpp_backend.specs.declared.backend.Given.TheVariants as given;
ghost use Rattle.stream_backend.specs.Begins.{AreEnds};
ghost use Rattle.stream_backend.specs.Serving.{AreApart, BeginsAt, BeginsIn, Hears, Holds, TellsPolled, answers_after};
ghost use Rattle.stream_backend.specs.declared.looking.Look.TheVariants as looks;

use crate::dialling::{Ends, dial, part};
use crate::line::Line;
use crate::lines::{end, hold, note_news, owe, place_for, resume, see};
use crate::lists::Lists;
use crate::looking::{Look, Sight, look_round};
use crate::stage::Stage;
use crate::watch::Watch;
use bosh_types::{Inward, Text, Wire};
use server_ports::{Clock, Network};
use std::alloc::{AllocError, Global};
use std::marker::Model;
use xmpp_backend::{Backend, Given, Passed, Polled};
use xmpp_stream::PollLink;

/// Has one stream for each wire, over a link to who listens at a port of the network. What is passed is owed until the link has
/// room for it, and a poll takes what the links have by then: nothing waits. What it tells, only proofs read, and it takes no
/// memory.
#[derive(Drop)]
pub struct StreamBackend<N: Network + Drop, W: Watch<N::Link> + Drop, C: Clock + Drop>
where
    N::Link: PollLink + Drop,
{
    alloc: Global,
    network: N,
    port: u16,
    watch: W,
    clock: C,
    lines: Vec<Line<N::Link>>,
    // Where the next poll begins: the lines take turns.
    turn: usize,
    news: Vec<u64>,
    lists: Lists,
    idle: u64,
    answers: u64,
}

impl<N: Network + Drop, W: Watch<N::Link> + Drop, C: Clock + Drop> Model for StreamBackend<N, W, C>
where
    N::Link: PollLink + Drop,
{
    ghost use Rattle.stream_backend.specs.Serving.{IsServing, Serving};

    ghost Value = { Serving };

    ghost view = { λ b. record {
      told = b.lists;
      counts = record { faults = 0; idle = b.idle; answers = b.answers };
      lines = b.lines.items;
      net = N.counts b.network;
      events = N.events b.network;
    } };

    ghost invariant = { λ b. IsServing b.lists b.lines.items };
}

// One more, where the type has it.
fn counted_on(count: u64) -> u64
    ensures { result ≡ counted_on count }
{
    if count < u64::MAX { count + 1 } else { count }
}

impl<N: Network + Drop, W: Watch<N::Link> + Drop, C: Clock + Drop> StreamBackend<N, W, C>
where
    N::Link: PollLink + Drop,
{
    /// No wire was opened. It takes no memory.
    pub fn new(alloc: Global, network: N, port: u16, watch: W, clock: C) -> StreamBackend<N, W, C>
        ensures told { result.told ≡ record { opened = []; passed = []; given = []; closed = []; held = [] } }
        ensures counts { result.counts ≡ record { faults = 0; idle = 0; answers = 0 } }
        ensures lines { result.lines ≡ [] }
        ensures net { result.net ≡ N.counts network }
        ensures events { result.events ≡ N.events network }
    {
        StreamBackend {
            alloc,
            network,
            port,
            watch,
            clock,
            lines: Vec::new(alloc),
            turn: 0,
            news: Vec::new(alloc),
            lists: Lists::new(),
            idle: 0,
            answers: 0,
        }
    }

    /// Its network, which tells what links that are retired carried.
    pub fn network(&self) -> &N
        ensures counts { N.counts result.now ≡ self.now.net }
        ensures events { N.events result.now ≡ self.now.events }
    {
        &self.network
    }

    /// What holds of it after any calls. It does nothing.
    pub fn laws(&self)
        ensures { Holds self.now.told self.now.lines }
    {
        see(&self.lines);
    }
}

// Begins the stream of a wire, for which there is a place.
fn begin<N: Network, W: Watch<N::Link>>(
    lines: &mut Vec<Line<N::Link>>,
    network: &mut N,
    watch: &mut W,
    port: u16,
    wire: Wire,
    ends: Ends,
    lists: &Lists,
)
where
    N::Link: PollLink + Drop,
    requires apart { AreApart lines.old.items }
    requires ends { AreEnds ends.outgoing ends.incoming }
    requires room { vec_len lines.old < vec_capacity lines.old }
    ensures { BeginsIn wire lists.now ends.outgoing.to (N.counts network.old) (N.counts network.new) lines.old.items lines.new.items }
{
    match place_for(lines, wire) {
        Some(at) => begin_at(&mut lines[at], network, watch, port, wire, ends, lists),
        None => {
            let line = dial(network, watch, port, wire, ends, lists);
            lines.push_reserved(line);
        }
    }
}

// What is left of a line is retired, and the stream of a wire begins in its place.
fn begin_at<N: Network, W: Watch<N::Link>>(
    line: &mut Line<N::Link>,
    network: &mut N,
    watch: &mut W,
    port: u16,
    wire: Wire,
    ends: Ends,
    lists: &Lists,
)
where
    N::Link: PollLink + Drop,
    requires { AreEnds ends.outgoing ends.incoming }
    ensures { BeginsAt wire lists.now ends.outgoing.to (N.counts network.old) (N.counts network.new) line.new }
{
    part(line, network, Stage::Over);
    *line = dial(network, watch, port, wire, ends, lists);
}

// Hears on which lines something may have happened.
fn hear<L: PollLink + Drop, W: Watch<L>>(
    watch: &mut W,
    news: &mut Vec<u64>,
    lines: &mut Vec<Line<L>>,
)
    ensures { Hears lines.old.items lines.new.items }
{
    let all = !watch.take(news);
    note_news(lines, news, all);
    news.clear();
}

// Tells what a look found on a wire.
fn tell(lists: &mut Lists, wire: Wire, look: Look) -> Polled
    requires { look ≢ looks.Nothing }
    ensures { TellsPolled look wire lists.old lists.new result }
{
    match look {
        Look::Item(text) => {
            let given = Given::Stanza(text);
            lists.give(wire, &given);
            polled_on(wire, given)
        }
        Look::Closed(closing) => {
            lists.give(wire, &Given::Closed(closing));
            Polled::Closed(wire, closing)
        }
        Look::NoMemory | Look::Nothing => Polled::NoMemory,
    }
}

// What is given on a wire, as the answer of a poll.
fn polled_on(wire: Wire, what: Given) -> Polled
    ensures stanza { (text : List ℕ) → what ≡ given.Stanza text → result ≡ Polled.Out wire text }
{
    match what {
        Given::Stanza(stanza) => Polled::Out(wire, stanza),
        Given::Closed(closing) => Polled::Closed(wire, closing),
    }
}

// How many answers there were, with this one.
fn answers_with(answers: u64, polled: &Polled) -> u64
    ensures { result ≡ answers_after polled.now answers }
{
    match polled {
        Polled::Out(_, _) | Polled::Closed(_, _) => counted_on(answers),
        Polled::Nothing | Polled::Failed | Polled::NoMemory => answers,
    }
}

impl<N: Network + Drop, W: Watch<N::Link> + Drop, C: Clock + Drop> Backend
    for StreamBackend<N, W, C>
where
    N::Link: PollLink + Drop,
{
    ghost use Rattle.std.specs.Prelude.{Some};
    ghost use Rattle.xmpp_backend.specs.Told.{GivesStanza};
    ghost use Rattle.stream_backend.specs.Serving.{ClosesWire, GivesOn, HoldsWire, OpensWire, PassesOn, PollsLines, ResumesWire};

    ghost told = { λ b. Some b.told };

    ghost counts = { λ b. b.counts };

    fn open(&mut self, wire: Wire, to: &[u8]) -> Passed
        ensures { OpensWire wire to.now self.old self.new result }
    {
        let Ok(name) = to.to_vec(self.alloc) else {
            return Passed::NoMemory;
        };
        let Ok(ends) = Ends::new(self.alloc, to) else {
            return Passed::NoMemory;
        };
        match self.lines.reserve(1) {
            Ok(()) => {}
            Err(AllocError) => return Passed::NoMemory,
        }
        begin(
            &mut self.lines,
            &mut self.network,
            &mut self.watch,
            self.port,
            wire,
            ends,
            &self.lists,
        );
        self.lists.open(wire, &Text::from_vec(name));
        Passed::Done
    }

    fn pass(&mut self, wire: Wire, item: &Inward) -> Passed
        ensures { PassesOn wire item.now self.old self.new result }
    {
        match owe(&mut self.lines, &mut self.network, wire, item) {
            Ok(()) => {
                self.lists.pass(wire, item);
                Passed::Done
            }
            Err(AllocError) => Passed::NoMemory,
        }
    }

    fn poll(&mut self) -> Polled
        ensures polls { PollsLines self.old self.new result }
        ensures stanza { GivesStanza result }
        ensures opened { GivesOn self.old.told result }
    {
        hear(&mut self.watch, &mut self.news, &mut self.lines);
        let now = self.clock.now();
        match look_round(
            &mut self.lines,
            &mut self.network,
            &mut self.watch,
            now,
            self.turn,
        ) {
            None => {
                self.idle = counted_on(self.idle);
                Polled::Nothing
            }
            Some(sight) => {
                let Sight { wire, look, at } = sight;
                self.turn = at;
                let polled = tell(&mut self.lists, wire, look);
                self.answers = answers_with(self.answers, &polled);
                polled
            }
        }
    }

    fn close(&mut self, wire: Wire) -> Passed
        ensures { ClosesWire wire self.old self.new result }
    {
        let now = self.clock.now();
        match end(&mut self.lines, wire, now) {
            Ok(()) => {
                self.lists.close(wire);
                Passed::Done
            }
            Err(AllocError) => Passed::NoMemory,
        }
    }

    fn hold(&mut self, wire: Wire)
        ensures { HoldsWire wire self.old self.new }
    {
        hold(&mut self.lines, wire);
        self.lists.hold(wire);
    }

    fn resume(&mut self, wire: Wire)
        ensures { ResumesWire wire self.old self.new }
    {
        resume(&mut self.lines, wire);
        self.lists.resume(wire);
    }
}
