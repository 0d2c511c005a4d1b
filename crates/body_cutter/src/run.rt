// Runs of bytes that the reader takes at once, since each of them alone would lead it back to the same place.
ghost use Rattle.std.specs.Prelude.{◌≡◌, ◌≤◌, true, take, length, IfOk, Some, None};
ghost use Rattle.std.specs.List.{list_all};
ghost use Rattle.body_cutter.specs.declared.place.Run.TheVariants.{Data, Section, Value, Name, Zeros};
ghost use Rattle.body_cutter.specs.declared.place.Place.TheVariants as places;
ghost use Rattle.body_cutter.specs.Reading.{state_of};
ghost use Rattle.body_cutter.specs.Scanning.{IsRun, ReadsFront, TakesRun, is_child, is_plain_byte, is_run_byte, is_text_byte, is_zero, stops_of};

use crate::chars::{is_name_byte, wide_next};
use crate::place::{Around, Place, Reference, Run, Wide};
use crate::reader::Reader;
use crate::refusing::is_whole;
use std::alloc::AllocError;

/// How many bytes are tested at once.
const BLOCK: usize = 32;

#[inline]
#[tactic(auto, unfolding(crate::specs::Scanning::is_text_byte))]
fn is_text_byte(first: u8, second: u8, third: u8, b: u8) -> bool
    ensures { result ≡ is_text_byte first second third b }
{
    32 <= b && b != first && b != second && b != third
}

/// Whether a byte goes on with a run.
#[inline]
#[tactic(auto, unfolding(crate::specs::Scanning::is_run_byte))]
fn is_run_byte(run: Run, b: u8) -> bool
    ensures { result ≡ is_run_byte run b }
{
    match run {
        Run::Data => is_text_byte(b'<', b'&', b']', b),
        Run::Section => is_text_byte(b']', b']', b']', b),
        Run::Value(quote) => is_text_byte(quote, b'<', b'&', b),
        Run::Name => is_name_byte(b),
        Run::Zeros => b == b'0',
        Run::Brackets => b == b']',
    }
}

/// The three bytes that end a run of text, if it is one.
#[inline]
fn stops_of(run: Run) -> Option<(u8, u8, u8)>
    ensures { result ≡ stops_of run }
{
    match run {
        Run::Data => Some((b'<', b'&', b']')),
        Run::Section => Some((b']', b']', b']')),
        Run::Value(quote) => Some((quote, b'<', b'&')),
        Run::Name => None,
        Run::Zeros => None,
        Run::Brackets => None,
    }
}

/// Whether each byte is a character of text, and none of three. It takes no branch for a byte, so that many are tested at once.
fn is_plain_block(stops: (u8, u8, u8), block: &[u8]) -> bool
    ensures { result ≡ list_all (is_plain_byte stops.0 stops.1 stops.2) block.now }
{
    let (first, second, third) = stops;
    let mut is_plain = true;
    for b in block {
        is_plain &= (32 <= *b) & (*b < 128) & (*b != first) & (*b != second) & (*b != third);
    }
    is_plain
}

/// How many bytes at the front lie in blocks of such characters.
fn plain_blocks(stops: (u8, u8, u8), bytes: &[u8]) -> usize
    ensures within { result ≤ length bytes.now }
    ensures each { list_all (is_plain_byte stops.0 stops.1 stops.2) (take result bytes.now) ≡ true }
{
    let mut at = 0;
    while bytes.len() - at >= BLOCK {
        if !is_plain_block(stops, &bytes[at..at + BLOCK]) {
            return at;
        }
        at += BLOCK;
    }
    at
}

/// How many bytes at the front go on with a run at once.
fn skipped(run: Run, wide: Wide, bytes: &[u8]) -> usize
    ensures { IsRun run wide bytes.now result wide }
{
    if !is_whole(wide) {
        return 0;
    }
    match stops_of(run) {
        Some(stops) => plain_blocks(stops, bytes),
        None => 0,
    }
}

/// How many bytes at the front go on with a run, and what is left of their last character.
fn run_of(run: Run, wide: Wide, bytes: &[u8]) -> (usize, Wide)
    ensures { IsRun run wide bytes.now result.0 result.1 }
{
    let mut left = wide;
    let mut count = skipped(run, wide, bytes);
    while count < bytes.len() {
        let b = bytes[count];
        if !is_run_byte(run, b) {
            return (count, left);
        }
        let Some(next) = wide_next(left, b) else {
            return (count, left);
        };
        left = next;
        count += 1;
    }
    (count, left)
}

#[inline]
fn is_child(around: Around) -> bool
    ensures { result ≡ is_child around }
{
    match around {
        Around::Child => true,
        _ => false,
    }
}

/// Whether a number has this value so far.
#[inline]
fn is_zero(reference: Reference) -> bool
    ensures { result ≡ is_zero reference }
{
    match reference {
        Reference::Decimal(value) => value == 0,
        Reference::Hex(value) => value == 0,
        _ => false,
    }
}

impl Reader {
    /// Takes a run of bytes that are not kept.
    #[inline]
    fn pass(&mut self, run: Run, bytes: &[u8]) -> usize
        ensures run { IsRun run self.old.wide bytes.now result self.new.wide }
        ensures same { state_of self.new ≡ record (state_of self.old) { wide = self.new.wide } }
    {
        let (count, left) = run_of(run, self.wide, bytes);
        self.wide = left;
        count
    }

    /// Takes a run of a value.
    fn pass_value(&mut self, quote: u8, bytes: &[u8]) -> Result<usize, AllocError>
        ensures { IfOk result (λ count. TakesRun (Value quote) (state_of self.old) bytes.now count (state_of self.new)) }
    {
        let (count, left) = run_of(Run::Value(quote), self.wide, bytes);
        self.wide = left;
        self.grow_value(&bytes[..count])?;
        Ok(count)
    }

    /// Takes a run of a name.
    fn pass_name(&mut self, bytes: &[u8]) -> Result<usize, AllocError>
        ensures { IfOk result (λ count. TakesRun Name (state_of self.old) bytes.now count (state_of self.new)) }
    {
        let (count, left) = run_of(Run::Name, self.wide, bytes);
        self.name.extend_from_slice(&bytes[..count])?;
        self.wide = left;
        Ok(count)
    }

    #[inline]
    fn run_in_content(&mut self, brackets: u8, bytes: &[u8]) -> usize
        ensures { (state_of self.old).place ≡ places.Content brackets → (state_of self.old).reference ≡ None → ReadsFront (state_of self.old) bytes.now result (state_of self.new) }
    {
        if !is_child(self.elements.around(self.kind)) {
            return 0;
        }
        if brackets == 0 {
            return self.pass(Run::Data, bytes);
        }
        if brackets != 2 {
            return 0;
        }
        self.pass(Run::Brackets, bytes)
    }

    #[inline]
    fn run_in_section(&mut self, brackets: u8, bytes: &[u8]) -> usize
        ensures { (state_of self.old).place ≡ places.Section brackets → (state_of self.old).reference ≡ None → ReadsFront (state_of self.old) bytes.now result (state_of self.new) }
    {
        if brackets != 0 {
            return 0;
        }
        self.pass(Run::Section, bytes)
    }

    #[inline]
    fn run_in_value(&mut self, quote: u8, after_cr: bool, bytes: &[u8]) -> Result<usize, AllocError>
        ensures { (state_of self.old).place ≡ places.Value quote after_cr → (state_of self.old).reference ≡ None → IfOk result (λ count. ReadsFront (state_of self.old) bytes.now count (state_of self.new)) }
    {
        if after_cr {
            return Ok(0);
        }
        self.pass_value(quote, bytes)
    }

    #[inline]
    fn run_in_reference(&mut self, reference: Reference, bytes: &[u8]) -> usize
        ensures { (state_of self.old).reference ≡ Some reference → ReadsFront (state_of self.old) bytes.now result (state_of self.new) }
    {
        if !is_zero(reference) {
            return 0;
        }
        self.pass(Run::Zeros, bytes)
    }

    /// Takes the bytes at the front that lead back to this place, and answers how many these are.
    #[inline]
    pub(crate) fn run(&mut self, bytes: &[u8]) -> Result<usize, AllocError>
        ensures { IfOk result (λ count. ReadsFront (state_of self.old) bytes.now count (state_of self.new)) }
    {
        if let Some(reference) = self.reference {
            return Ok(self.run_in_reference(reference, bytes));
        }
        match self.place {
            Place::Content(brackets) => Ok(self.run_in_content(brackets, bytes)),
            Place::Section(brackets) => Ok(self.run_in_section(brackets, bytes)),
            Place::Value(quote, after_cr) => self.run_in_value(quote, after_cr, bytes),
            Place::TagName => self.pass_name(bytes),
            Place::AttrName => self.pass_name(bytes),
            _ => Ok(0),
        }
    }
}
