ghost use Rattle.std.specs.Prelude.{◌≡◌, ◌<◌, ◌≤◌, ◌+◌, ◌^◌, ◌++◌, List, ℕ, [], drop, length, take, true, IfOk, OnOk, OnErr, IsTrue, ◌↔◌};
ghost use Rattle.std.specs.Str.{is_utf8};
ghost use Rattle.body_cutter.specs.declared.place.Kind.{Kind};
ghost use Rattle.body_cutter.specs.Chars.{is_whole};
ghost use Rattle.body_cutter.specs.Ends.{last_bytes};
ghost use Rattle.body_cutter.specs.Cutting.{Answers};
ghost use Rattle.body_cutter.specs.Reader.{State};
ghost use Rattle.body_cutter.specs.Reading.{state_of};
ghost use Rattle.body_cutter.specs.Refusal.{ended_refusal, reading, text_answer};
ghost use Rattle.body_cutter.specs.Feeding.{ReadsPiece, end_answer, longest_of, reading_from, refusal_after, refusal_with, start_of};
ghost use Rattle.body_cutter.specs.Utf8.{rest_with, utf8_next, utf8_rest};
ghost use Rattle.body_cutter.specs.Viable.{has_state};

use crate::chars::utf8_next;
use crate::parts::{Cut, CutError, CutRefusal};
use crate::place::{Kind, Place, Wide};
use crate::reader::Reader;
use crate::refusing::{ended_refusal, is_whole, refusal_after};
use crate::tail::Tail;
use bosh_types::limits::{LONGEST_BODY, LONGEST_STANZA};
use std::alloc::{AllocError, Global};

/// As many bytes as a reader counts.
const MOST_COUNTED: usize = isize::MAX as usize;

/// How far a text that comes in pieces was read.
#[derive(Clone, Copy)]
pub enum Progress {
    /// To the end of what came: some bytes make a text of it.
    Alive,
    /// To a byte after which nothing makes a text of it. If it is UTF-8, this refuses it; and this is left of its last
    /// character.
    Refused(CutRefusal, Option<Wide>),
    /// Memory ran out while some bytes made a text of it.
    Spent,
}

/// A text that comes in pieces, and is read once.
#[derive(Drop)]
pub(crate) struct FedText {
    pub(crate) kind: Kind,
    pub(crate) reader: Reader,
    pub(crate) tail: Tail,
    pub(crate) len: usize,
    pub(crate) progress: Progress,
}

fn start_of(kind: Kind) -> Place
    ensures { result ≡ start_of kind }
{
    match kind {
        Kind::Body => Place::Start,
        Kind::Stanza => Place::StanzaStart,
    }
}

/// How many bytes a text may have.
pub(crate) fn longest_of(kind: Kind) -> usize
    ensures { result ≡ longest_of kind }
{
    match kind {
        Kind::Body => LONGEST_BODY,
        Kind::Stanza => LONGEST_STANZA,
    }
}

/// What is left of the last character after these bytes.
#[tactic(auto, unfolding(crate::specs::Utf8::utf8_rest))]
fn utf8_rest(wide: Wide, bytes: &[u8]) -> Option<Wide>
    ensures { result ≡ utf8_rest wide bytes.now }
{
    let mut rest = wide;
    for b in bytes {
        let Some(next) = utf8_next(rest, *b) else {
            return None;
        };
        rest = next;
    }
    Some(rest)
}

fn rest_with(rest: Option<Wide>, piece: &[u8]) -> Option<Wide>
    ensures { result ≡ rest_with rest piece.now }
{
    match rest {
        Some(wide) => utf8_rest(wide, piece),
        None => None,
    }
}

/// Reads a piece that begins at this place to its end, or to the first byte that is wrong.
#[tactic(auto, unfolding(crate::specs::Refusal::reading))]
pub(crate) fn read_piece(
    reader: &mut Reader,
    start: usize,
    piece: &[u8],
) -> Result<Option<(usize, u8)>, AllocError>
    requires { start + length piece.now < 2 ^ 63 }
    ensures { IfOk result (λ stop. ReadsPiece (reading start (state_of reader.old) piece.now) start piece.now stop (state_of reader.new)) }
{
    let mut at = 0;
    while at < piece.len() {
        at += reader.run(&piece[at..])?;
        if at == piece.len() {
            return Ok(None);
        }
        let b = piece[at];
        if !reader.step(start + at, b)? {
            return Ok(Some((at, b)));
        }
        at += 1;
    }
    Ok(None)
}

/// The answer for a text of this length that was read to its end.
fn end(len: usize, reader: Reader) -> Result<Cut, CutError>
    ensures { Answers result (end_answer len (state_of reader)) }
{
    if !is_whole(reader.wide) {
        return Err(CutError::Refused(CutRefusal::NotUtf8));
    }
    match ended_refusal(len, &reader) {
        Some(refusal) => Err(CutError::Refused(refusal)),
        None => Ok(reader.into_cut()),
    }
}

/// The answer for a text that is refused, if it is UTF-8.
fn refusal_with(refusal: CutRefusal, rest: Option<Wide>) -> CutRefusal
    ensures { result ≡ refusal_with refusal rest }
{
    match rest {
        Some(wide) => {
            if is_whole(wide) {
                refusal
            } else {
                CutRefusal::NotUtf8
            }
        }
        None => CutRefusal::NotUtf8,
    }
}

impl FedText {
    ghost use Rattle.body_cutter.specs.Feeding.{IsFed, IsRead, IsRefused};

    pub(crate) fn new(alloc: Global, kind: Kind) -> Self
        ensures { IsFed kind result [] }
    {
        FedText {
            kind,
            reader: Reader::new(alloc, kind, start_of(kind)),
            tail: Tail::new(),
            len: 0,
            progress: Progress::Alive,
        }
    }

    /// Whether some bytes make a text of what came.
    pub(crate) fn is_alive(&self) -> bool
        ensures { (kind : Kind) (text : List ℕ) → IsFed kind self.now text → result ≡ has_state (reading_from kind text) }
    {
        match self.progress {
            Progress::Refused(_, _) => false,
            _ => true,
        }
    }

    /// Notes that the reader can't take the byte `b`, which lies in the piece at `at`.
    fn refuse(&mut self, piece: &[u8], at: usize, b: u8)
        requires within { at < length piece.now }
        requires few { self.old.len + length piece.now < 2 ^ 63 }
        ensures { self.new ≡ record self.old {
          tail = last_bytes (self.old.tail ++ take at piece.now);
          len = self.old.len + length piece.now;
          progress = Progress.Refused (refusal_after (last_bytes (self.old.tail ++ take at piece.now)) (self.old.len + at) b (state_of self.old.reader)) (utf8_rest self.old.reader.wide (drop at piece.now));
        } }
    {
        let place = self.len + at;
        self.tail.grow(&piece[..at]);
        let refusal = refusal_after(self.tail.as_slice(), place, b, &self.reader);
        let rest = utf8_rest(self.reader.wide, &piece[at..]);
        self.progress = Progress::Refused(refusal, rest);
        self.len += piece.len();
    }

    /// Takes a piece where all that came was read.
    fn read_on(&mut self, piece: &[u8]) -> Result<(), AllocError>
        ensures fed { (kind : Kind) (text : List ℕ) → IsFed kind self.old text → self.old.progress ≡ Progress.Alive → OnOk result (IsFed kind self.new (text ++ piece.now)) }
        ensures unfed { (kind : Kind) (text : List ℕ) → IsFed kind self.old text → self.old.progress ≡ Progress.Alive → OnErr result (IsFed kind self.new text) }
    {
        if self.len.saturating_add(piece.len()) > MOST_COUNTED {
            self.progress = Progress::Spent;
            return Err(AllocError);
        }
        match read_piece(&mut self.reader, self.len, piece) {
            Ok(Some((at, b))) => {
                self.refuse(piece, at, b);
                Ok(())
            }
            Ok(None) => {
                self.tail.grow(piece);
                self.len += piece.len();
                Ok(())
            }
            Err(error) => {
                self.progress = Progress::Spent;
                Err(error)
            }
        }
    }

    /// Takes the next piece. After an error no piece is taken, and nothing is forgotten of those before.
    pub(crate) fn feed(&mut self, piece: &[u8]) -> Result<(), AllocError>
        ensures fed { (kind : Kind) (text : List ℕ) → IsFed kind self.old text → OnOk result (IsFed kind self.new (text ++ piece.now)) }
        ensures unfed { (kind : Kind) (text : List ℕ) → IsFed kind self.old text → OnErr result (IsFed kind self.new text) }
        ensures alive { (kind : Kind) (text : List ℕ) → IsFed kind self.old text → OnErr result (has_state (reading_from kind text) ≡ true) }
    {
        match self.progress {
            Progress::Alive => self.read_on(piece),
            Progress::Refused(refusal, rest) => {
                self.progress = Progress::Refused(refusal, rest_with(rest, piece));
                self.len = self.len.saturating_add(piece.len());
                Ok(())
            }
            Progress::Spent => Err(AllocError),
        }
    }

    /// What the text gives.
    pub(crate) fn finish(self) -> Result<Cut, CutError>
        ensures { (kind : Kind) (text : List ℕ) → IsFed kind self text → Answers result (text_answer kind (start_of kind) (longest_of kind) (is_utf8 text) text) }
    {
        if self.len > longest_of(self.kind) {
            return Err(CutError::Refused(CutRefusal::TooLong));
        }
        match self.progress {
            Progress::Alive => end(self.len, self.reader),
            Progress::Refused(refusal, rest) => Err(CutError::Refused(refusal_with(refusal, rest))),
            Progress::Spent => Err(CutError::Memory),
        }
    }
}
