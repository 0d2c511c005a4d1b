ghost use Rattle.std.specs.Prelude.{◌≡◌, ◌≤◌, ◌∷◌, IfOk, None, Some, length};
ghost use Rattle.key_sequence.specs.Chain.{key_of};
ghost use Rattle.bosh_client.specs.Keys.{announcement, seed_of};
ghost use Rattle.bosh_client.specs.KeyPlace.{IsSequence, NextSequence, first_place, next_place};

use bosh_types::Text;
use key_sequence::{Key, KeyMaker};
use std::alloc::{AllocError, Global};
use std::marker::Model;

/// The keys of a client, one sequence after another (XEP-0124, sections 15.3 and 15.5): which key is sent next.
#[derive(Drop)]
pub(crate) struct Keys {
    // What the sequences are made from, and how many keys each has.
    seed: Text,
    count: u32,
    // Which sequence the next key is of, and its number there, from the last but one down to 1.
    sequence: u64,
    number: u32,
    key: Key,
    // The keys of the sequence that come after it.
    maker: KeyMaker,
}

// Clauses see the place of the next key.
impl Model for Keys {
    ghost use Rattle.bosh_client.specs.KeyPlace.{KeyPlace, IsAtPlace};

    ghost Value = { KeyPlace };

    ghost view = { λ k. record { seed = k.seed; keys = k.count; sequence = k.sequence; number = k.number } };

    ghost invariant = { λ k. IsAtPlace k.seed k.count k.sequence k.number k.key k.maker };
}

impl Keys {
    /// The first key of the first sequence comes next. A sequence has `count` keys.
    pub(crate) fn new(alloc: Global, seed: Text, count: u32) -> Result<Self, AllocError>
        requires some { 2 ≤ count }
        requires few { count ≤ 4096 }
        ensures { IfOk result (λ keys. keys ≡ first_place seed count) }
    {
        let mut maker = sequence(alloc, seed.as_slice(), 0, count)?;
        let key = take_key(&mut maker);
        Ok(Keys {
            seed,
            count,
            sequence: 0,
            number: count - 1,
            key,
            maker,
        })
    }

    /// The key that announces the sequence.
    pub(crate) fn newkey(&self) -> Key
        ensures { result ≡ announcement self.now.seed self.now.keys self.now.sequence }
    {
        self.maker.newkey()
    }

    /// The key that is sent next.
    pub(crate) fn key(&self) -> Key
        ensures { result ≡ key_of (seed_of self.now.seed self.now.sequence) self.now.number }
    {
        self.key
    }

    /// The sequence that has to follow once the next key was sent, where that is the last to be sent of its own.
    pub(crate) fn next_sequence(&self, alloc: Global) -> Result<Option<KeyMaker>, AllocError>
        ensures { IfOk result (λ maker. NextSequence self.now maker) }
    {
        if self.number != 1 {
            return Ok(None);
        }
        let later = self.sequence.saturating_add(1);
        let maker = sequence(alloc, self.seed.as_slice(), later, self.count)?;
        Ok(Some(maker))
    }

    /// The next key was sent; what follows its sequence is at hand. It takes no memory.
    pub(crate) fn turn(&mut self, follows: Option<KeyMaker>)
        requires { NextSequence self.old follows }
        ensures { self.new ≡ next_place self.old }
    {
        match follows {
            Some(maker) => self.begin(maker),
            None => self.go_on(),
        }
    }

    fn begin(&mut self, follows: KeyMaker)
        requires { NextSequence self.old (Some follows) }
        ensures { self.new ≡ next_place self.old }
    {
        let number = self.count - 1;
        let mut maker = follows;
        self.key = take_key(&mut maker);
        self.maker = maker;
        self.sequence = self.sequence.saturating_add(1);
        self.number = number;
    }

    fn go_on(&mut self)
        requires { NextSequence self.old None }
        ensures { self.new ≡ next_place self.old }
    {
        self.key = take_key(&mut self.maker);
        self.number -= 1;
    }
}

// The next key of a sequence, of which one is left.
fn take_key(maker: &mut KeyMaker) -> Key
    requires { 1 ≤ length maker.old.left }
    ensures taken { maker.old.left ≡ result ∷ maker.new.left }
    ensures newkey { maker.new.newkey ≡ maker.old.newkey }
{
    match maker.next_key() {
        Some(key) => key,
        None => maker.newkey(),
    }
}

// The key sequence with this number.
fn sequence(alloc: Global, seed: &[u8], number: u64, count: u32) -> Result<KeyMaker, AllocError>
    requires some { 2 ≤ count }
    requires few { count ≤ 4096 }
    ensures { IfOk result (λ maker. IsSequence seed.now number count maker) }
{
    let mut text = Vec::from_slice(alloc, seed)?;
    text.push(b'-')?;
    let digits = number.to_string(alloc)?;
    text.extend_from_slice(digits.as_bytes())?;
    KeyMaker::new(alloc, &text, count)
}
