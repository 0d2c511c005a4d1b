// Reading a source line by line.
ghost use Rattle.std.specs.Prelude.{◌≡◌, ◌≤◌, ◌<◌, ◌++◌, ℕ, List, [], Option, IfOk, OnOk, OnErr, IfErr, IsTrue, IsErrOf, false, length, position, ◌==◌};
ghost use Rattle.line_reader.specs.Lines.{ended_line_of, last_line_of};

use bosh_ports::{Got, Source};
use bosh_types::Text;
use bosh_types::limits::LONGEST_LINE;
use std::alloc::{AllocError, Global};
use std::marker::Model;

const ROOM: usize = 8192;

/// What reading the next line gives.
#[derive(Debug, Drop)]
pub enum NextLine {
    /// A line, without its LF.
    Line(Text),
    /// The next line has more than 2,097,152 bytes; no more than these are read of it.
    TooLong,
    /// The source came to its end.
    NoLine,
}

/// Why the next line can't be read.
#[derive(Clone, Copy, Debug, PartialEq, Eq)]
pub enum ReadError {
    ReadFault,
    NoMemory,
}

impl From<AllocError> for ReadError {
    ghost use Rattle.std.specs.Prelude.{◌≡◌};
    ghost use Rattle.line_reader.specs.declared.lines.ReadError.TheVariants.{NoMemory};

    ghost from_gives = { λ _ e. e ≡ NoMemory };

    fn from(_error: AllocError) -> ReadError {
        ReadError::NoMemory
    }
}

/// Reads a source line by line, in pieces of at most 8192 bytes. It is seen as the bytes that it took and no line has
/// given yet.
#[derive(Drop)]
pub struct LineReader {
    room: Vec<u8>,
    start: usize,
    end: usize,
}

impl Model for LineReader {
    ghost use Rattle.std.specs.Prelude.{ℕ, ◌≤◌, ◌<◌, ◌-◌, List, take, drop, vec_len};

    ghost Value = { List ℕ };

    ghost view = { λ r. take (r.end - r.start) (drop r.start r.room.items) };

    ghost invariant = { λ r. (r.start ≤ r.end) × (r.end ≤ vec_len r.room) × (0 < vec_len r.room) };
}

impl LineReader {
    ghost use Rattle.std.specs.Io.KnownBytes.{Keeps, IsAtEnd, prepend_known};
    ghost use Rattle.bosh_ports.specs.Faults.{HasRisen};
    ghost use Rattle.line_reader.specs.Lines.{Reads, MovesPiece};

    /// A reader that took nothing yet. The only error is want of memory.
    pub fn new(alloc: Global) -> Result<Self, AllocError>
        ensures { IfOk result (λ reader. reader ≡ []) }
    {
        let room = vec![in alloc; 0u8; ROOM]?;
        Ok(LineReader {
            room,
            start: 0,
            end: 0,
        })
    }

    /// Reads the next line. After an error what was taken of it is lost.
    pub fn next_line<S: Source>(
        &mut self,
        alloc: Global,
        source: &mut S,
    ) -> Result<NextLine, ReadError>
        ensures reads { IfOk result (λ read. Reads (prepend_known self.old (S.left source.old)) (prepend_known self.new (S.left source.new)) read) }
        ensures read_fault { IsErrOf result ReadError.ReadFault → HasRisen (S.faults source.old) (S.faults source.new) }
        ensures counts { OnOk result (S.faults source.new ≡ S.faults source.old) }
        ensures no_memory { IsErrOf result ReadError.NoMemory → S.faults source.new ≡ S.faults source.old }
        ensures faults { S.faults source.old ≤ S.faults source.new }
    {
        let mut line = Vec::new(alloc);
        while line.len() <= LONGEST_LINE {
            if !self.fill(source)? {
                return Ok(last_line(line));
            }
            if self.move_piece(&mut line)? {
                return Ok(ended_line(line));
            }
        }
        Ok(NextLine::TooLong)
    }

    // Takes more from the source where nothing is left: false at its end.
    fn fill<S: Source>(&mut self, source: &mut S) -> Result<bool, ReadError>
        ensures keeps { Keeps (prepend_known self.old (S.left source.old)) (prepend_known self.new (S.left source.new)) }
        ensures more { IfOk result (λ more. IsTrue more → 0 < length self.new) }
        ensures end { IfOk result (λ more. more ≡ false → IsAtEnd (prepend_known self.old (S.left source.old))) }
        ensures fault { IfErr result (λ error. error ≡ ReadError.ReadFault) }
        ensures read_fault { OnErr result (HasRisen (S.faults source.old) (S.faults source.new)) }
        ensures counts { OnOk result (S.faults source.new ≡ S.faults source.old) }
        ensures faults { S.faults source.old ≤ S.faults source.new }
    {
        if self.start < self.end {
            return Ok(true);
        }
        self.start = 0;
        self.end = 0;
        match source.take(&mut self.room) {
            Got::Bytes(n) => {
                self.end = n;
                Ok(true)
            }
            Got::End => Ok(false),
            Got::Failed => Err(ReadError::ReadFault),
        }
    }

    // Moves the bytes that are left up to the next LF onto the line, and says whether there is one.
    fn move_piece(&mut self, line: &mut Vec<u8>) -> Result<bool, AllocError>
        ensures { IfOk result (λ ended. MovesPiece ended self.old self.new line.old.items line.new.items) }
    {
        let left = &self.room[self.start..self.end];
        match line_feed(left) {
            Some(i) => {
                line.extend_from_slice(&left[..i])?;
                self.start += i + 1;
                Ok(true)
            }
            None => {
                line.extend_from_slice(left)?;
                self.start = self.end;
                Ok(false)
            }
        }
    }
}

// Where the next LF is.
fn line_feed(bytes: &[u8]) -> Option<usize>
    ensures { result ≡ position (λ byte. byte == 10) bytes.now }
{
    bytes.iter().position(|byte| *byte == b'\n')
}

// What a line is that an LF ended.
fn ended_line(line: Vec<u8>) -> NextLine
    ensures { result ≡ ended_line_of line.items }
{
    if line.len() > LONGEST_LINE {
        return NextLine::TooLong;
    }
    NextLine::Line(Text::from_vec(line))
}

// What is left at the end of the source: a last line that no LF ended, or none.
fn last_line(line: Vec<u8>) -> NextLine
    ensures { result ≡ last_line_of line.items }
{
    if line.is_empty() {
        return NextLine::NoLine;
    }
    NextLine::Line(Text::from_vec(line))
}
