// A run made from a number, and the line that tells of it.
ghost use Rattle.std.specs.Prelude.{◌≡◌, ◌≤◌, ◌++◌, IfOk, OnErr, OnOk, IsErrOf, Some};
ghost use Rattle.bosh_ports.specs.Faults.{HasRisen};
ghost use Rattle.bosh_ports.specs.Sink.{AppendsFront};
ghost use Rattle.bosh_types.specs.Rid.{IsRid};
ghost use Rattle.two_ends.specs.Worlds.{IsWorld};
ghost use Rattle.world_laws.specs.declared.event.WorldEvent.TheVariants.{Return, Send};
ghost use Rattle.world_laws.specs.Setup.{IsAllowed};
ghost use Rattle.world_laws.specs.World.{new_world};
ghost use Rattle.pair_text.specs.Load.{GivesItsLoad, PlainLoad, begun, beginning, carries, carries_greatest, carries_lowest, carries_some, first_id, gives_one, happens, load_of, load_text, message_text, puts_one, returns_for, returns_lowest, round, greeting, host, seed_of, setup_of, told_of, turn, waits};
ghost use Rattle.pair_text.specs.Loads.{IsLoad};

use crate::load_line::{LoadLine, print_load_line};
use body_cutter::texts_are_cut_by_the_grammar;
use bosh_client::ClientSetup;
use bosh_ports::{Sink, give_all};
use bosh_types::{Moment, Rid, Stanzas, Text};
use rand_chacha::ChaCha8Rng;
use rand_core::SeedableRng;
use rand_core::utils::NextWord;
use script_text::{DriveError, push_number};
use std::alloc::{AllocError, Global};
use two_ends::{World, WorldEvent, every_world_keeps_both_prefixes, timely_worlds_are_complete};

const TURNS: u32 = 2000;

const ROUNDS: u32 = 100;

// A world that is driven by the words of a generator.
#[derive(Drop)]
pub struct Load {
    pub(crate) world: Box<World>,
    // How many copies were carried, and how many stanzas were put and given, or were to be.
    pub(crate) copies: u64,
    pub(crate) puts: u64,
    pub(crate) gives: u64,
}

/// Makes the run of this number, in which no copy comes after its answer was taken, and gives the line that tells of it: `over
/// none`, or one of the endings that such a run may have. After an error what was given stays given.
pub fn run_load<K: Sink>(alloc: Global, number: u64, sink: &mut K) -> Result<(), DriveError>
    // What was given is the line of this number's run and nothing else; after an error it is a front of it.
    ensures given { OnOk result (GivesItsLoad number (K.given sink.old) (K.given sink.new)) }
    ensures part { OnErr result (AppendsFront (K.given sink.old) (K.given sink.new) (load_text number)) }

    // A fault rises with the error that names it, and with nothing else.
    ensures no_read_fault { IsErrOf result DriveError.ReadFault → ⊥ }
    ensures write_fault { IsErrOf result DriveError.WriteFault → HasRisen (K.faults sink.old) (K.faults sink.new) }
    ensures counts { OnOk result (K.faults sink.new ≡ K.faults sink.old) }
    ensures no_memory { IsErrOf result DriveError.NoMemory → K.faults sink.new ≡ K.faults sink.old }
    ensures faults { K.faults sink.old ≤ K.faults sink.new }
{
    every_world_keeps_both_prefixes();
    timely_worlds_are_complete();
    texts_are_cut_by_the_grammar();
    let line = line_of(alloc, number)?;
    let text = print_load_line(alloc, &line)?;
    give_all(sink, text.as_slice())?;
    Ok(())
}

fn load_of(alloc: Global, number: u64) -> Result<Load, AllocError>
    ensures { IfOk result (λ load. IsLoad load (load_of number)) }
{
    let mut words = ChaCha8Rng::from_seed(seed_of(number));
    let mut load = begun(alloc, words.next_word())?;
    for _ in 0..TURNS {
        load.turn(alloc, words.next_word())?;
    }
    for _ in 0..ROUNDS {
        load.round(alloc)?;
    }
    Ok(load)
}

// The bytes of the number, the least first, and zeros.
fn seed_of(number: u64) -> [u8; 32]
    ensures { result ≡ seed_of number }
{
    let mut seed = [0u8; 32];
    seed[..8].copy_from_slice(&number.to_le_bytes());
    seed
}

// The client is answered its first request, whose id this word gives.
fn begun(alloc: Global, word: u32) -> Result<Load, AllocError>
    ensures { IfOk result (λ load. IsLoad load (begun (first_id word))) }
{
    let first = first_id(word);
    let mut load = Load {
        world: new_world(alloc, first)?,
        copies: 0,
        puts: 0,
        gives: 0,
    };
    load.begin(alloc, first)?;
    Ok(load)
}

fn first_id(word: u32) -> Rid
    ensures { result ≡ first_id word }
{
    match Rid::new(1000 + u64::from(word % 1_000_000)) {
        Some(rid) => rid,
        None => unreachable!(),
    }
}

// A host with a greeting, and a client that wants to reach it.
fn new_world(alloc: Global, first: Rid) -> Result<Box<World>, AllocError>
    requires { IsRid first }
    ensures { IfOk result (λ world. IsWorld world.value (new_world host greeting (setup_of first))) }
{
    let mut greeting = Vec::new(alloc);
    greeting.push(text(alloc, b"<stream:features/>")?)?;
    let setup = ClientSetup {
        first,
        to: text(alloc, b"load.example")?,
        wait: 60,
        hold: 1,
        ack: true,
        seed: text(alloc, b"seed")?,
        keys: 16,
    };
    let host = text(alloc, b"load.example")?;
    let world = World::new(alloc, host, Stanzas::from_vec(greeting), setup)?;
    Ok(Box::new(alloc, world)?)
}

fn text(alloc: Global, bytes: &[u8]) -> Result<Text, AllocError>
    ensures { IfOk result (λ text. text ≡ bytes.now) }
{
    Ok(Text::from_vec(Vec::from_slice(alloc, bytes)?))
}

impl Load {
    // The client's first request is made, carried and answered.
    fn begin(&mut self, alloc: Global, first: Rid) -> Result<(), AllocError>
        ensures { OnOk result ((plain : PlainLoad) → IsLoad self.old plain → IsLoad self.new (happens (Return 1) (carries first (happens Send plain)))) }
    {
        self.happens(alloc, WorldEvent::Send)?;
        self.carry(alloc, first)?;
        self.happens(alloc, WorldEvent::Return(1))
    }

    fn happens(&mut self, alloc: Global, event: WorldEvent) -> Result<(), AllocError>
        requires { IsAllowed event }
        ensures { OnOk result ((plain : PlainLoad) → IsLoad self.old plain → IsLoad self.new (happens event plain)) }
    {
        let _seen = self.world.step(alloc, event)?;
        Ok(())
    }

    fn carry(&mut self, alloc: Global, rid: Rid) -> Result<(), AllocError>
        ensures { OnOk result ((plain : PlainLoad) → IsLoad self.old plain → IsLoad self.new (carries rid plain)) }
    {
        self.copies = self.copies.saturating_add(1);
        self.happens(alloc, WorldEvent::Carry(rid))
    }

    // What a word brings.
    fn turn(&mut self, alloc: Global, word: u32) -> Result<(), AllocError>
        ensures { OnOk result ((plain : PlainLoad) → IsLoad self.old plain → IsLoad self.new (turn word plain)) }
    {
        match word % 8 {
            0 => self.put(alloc),
            1 => self.put(alloc),
            2 => self.give(alloc),
            3 => self.happens(alloc, WorldEvent::Send),
            4 => self.carry_lowest(alloc),
            5 => self.carry_greatest(alloc),
            6 => self.return_lowest(alloc),
            7 => self.wait(alloc, word / 8 % 10),
            _ => unreachable!(),
        }
    }

    // What can be brought to an end is.
    fn round(&mut self, alloc: Global) -> Result<(), AllocError>
        ensures { OnOk result ((plain : PlainLoad) → IsLoad self.old plain → IsLoad self.new (round plain)) }
    {
        self.happens(alloc, WorldEvent::Send)?;
        self.carry_lowest(alloc)?;
        self.carry_greatest(alloc)?;
        self.return_lowest(alloc)
    }

    fn put(&mut self, alloc: Global) -> Result<(), AllocError>
        ensures { OnOk result ((plain : PlainLoad) → IsLoad self.old plain → IsLoad self.new (puts_one plain)) }
    {
        texts_are_cut_by_the_grammar();
        self.puts = self.puts.saturating_add(1);
        let stanza = message(alloc, b'c', self.puts)?;
        self.happens(alloc, WorldEvent::Put(stanza))
    }

    fn give(&mut self, alloc: Global) -> Result<(), AllocError>
        ensures { OnOk result ((plain : PlainLoad) → IsLoad self.old plain → IsLoad self.new (gives_one plain)) }
    {
        texts_are_cut_by_the_grammar();
        self.gives = self.gives.saturating_add(1);
        let stanza = message(alloc, b's', self.gives)?;
        self.happens(alloc, WorldEvent::Give(stanza))
    }

    // Time passes.
    fn wait(&mut self, alloc: Global, millis: u32) -> Result<(), AllocError>
        ensures { OnOk result ((plain : PlainLoad) → IsLoad self.old plain → IsLoad self.new (waits millis plain)) }
    {
        let now = self.world.moment().millis();
        let moment = Moment::from_millis(now.saturating_add(u64::from(millis)));
        self.happens(alloc, WorldEvent::At(moment))
    }

    // A copy of this request comes, if there is one.
    fn carry_some(&mut self, alloc: Global, rid: Option<Rid>) -> Result<(), AllocError>
        ensures { OnOk result ((plain : PlainLoad) → IsLoad self.old plain → IsLoad self.new (carries_some rid plain)) }
    {
        match rid {
            Some(rid) => self.carry(alloc, rid),
            None => Ok(()),
        }
    }

    fn carry_lowest(&mut self, alloc: Global) -> Result<(), AllocError>
        ensures { OnOk result ((plain : PlainLoad) → IsLoad self.old plain → IsLoad self.new (carries_lowest plain)) }
    {
        let rid = self.world.lowest_open();
        self.carry_some(alloc, rid)
    }

    fn carry_greatest(&mut self, alloc: Global) -> Result<(), AllocError>
        ensures { OnOk result ((plain : PlainLoad) → IsLoad self.old plain → IsLoad self.new (carries_greatest plain)) }
    {
        let rid = self.world.greatest_open();
        self.carry_some(alloc, rid)
    }

    // The last answer that was written for the lowest request comes back, if there is one.
    fn return_lowest(&mut self, alloc: Global) -> Result<(), AllocError>
        ensures { OnOk result ((plain : PlainLoad) → IsLoad self.old plain → IsLoad self.new (returns_lowest plain)) }
    {
        match self.world.lowest_open() {
            Some(rid) => self.return_for(alloc, rid),
            None => Ok(()),
        }
    }

    fn return_for(&mut self, alloc: Global, rid: Rid) -> Result<(), AllocError>
        ensures { OnOk result ((plain : PlainLoad) → IsLoad self.old plain → IsLoad self.new (returns_for (Some rid) plain)) }
    {
        match self.world.last_answer(rid) {
            Some(number) => self.happens(alloc, WorldEvent::Return(number)),
            None => Ok(()),
        }
    }
}

// `<message id='c1'/>`, with this letter and number.
fn message(alloc: Global, letter: u8, number: u64) -> Result<Text, AllocError>
    ensures { IfOk result (λ text. text ≡ message_text letter number) }
{
    let mut text = Vec::from_slice(alloc, b"<message id='")?;
    text.push(letter)?;
    push_number(alloc, &mut text, number)?;
    text.extend_from_slice(b"'/>")?;
    Ok(Text::from_vec(text))
}

// The line that tells of this number's run.
fn line_of(alloc: Global, number: u64) -> Result<LoadLine, AllocError>
    ensures { IfOk result (λ line. line ≡ told_of number (load_of number)) }
{
    let load = load_of(alloc, number)?;
    Ok(told_of(number, &load))
}

fn told_of(number: u64, load: &Load) -> LoadLine
    ensures { (plain : PlainLoad) → IsLoad load.now plain → result ≡ told_of number plain }
{
    LoadLine {
        number,
        requests: load.world.requests(),
        copies: load.copies,
        sums: load.world.sums(),
        ending: load.world.ending(),
    }
}
