// A body that comes in pieces.
ghost use Rattle.std.specs.Prelude.{◌≡◌, ◌↔◌, ◌++◌, ℕ, List, [], IsTrue, OnErr, OnOk, flat_map};
ghost use Rattle.body_cutter.specs.BodyText.{IsBodyText};
ghost use Rattle.body_cutter.specs.Cutting.{Answers, body_cut_of};
ghost use Rattle.body_cutter.specs.Feeding.{StandsFor};
ghost use Rattle.body_cutter.specs.Viable.{IsViable};

use crate::feeding::FedText;
use crate::parts::{Cut, CutError};
use crate::place::Kind;
use std::alloc::{AllocError, Global};

/// Cuts a body that comes in pieces, wherever these end, and reads each byte once. It stands for the bytes that it was fed,
/// and keeps of them what the parts of the body need. From the first byte after which no body goes on so it takes no memory,
/// and only tells whether what follows is UTF-8.
#[derive(Drop)]
pub struct Cutter {
    pub(crate) fed: FedText,
}

impl Cutter {
    /// A cutter that was fed nothing. Takes no memory.
    pub fn new(alloc: Global) -> Self
        ensures { StandsFor result [] }
    {
        Cutter {
            fed: FedText::new(alloc, Kind::Body),
        }
    }

    /// Takes the next piece. An error is want of memory, and comes only where some bytes make a body of those before. The
    /// cutter then stands for those, takes no further piece, and gives want of memory at its end.
    pub fn feed(&mut self, piece: &[u8]) -> Result<(), AllocError>
        ensures fed { (text : List ℕ) → StandsFor self.old text → OnOk result (StandsFor self.new (text ++ piece.now)) }
        ensures unfed { (text : List ℕ) → StandsFor self.old text → OnErr result (StandsFor self.new text) }
        ensures viable { (text : List ℕ) → StandsFor self.old text → OnErr result (IsViable IsBodyText text) }
    {
        self.fed.feed(piece)
    }

    /// Whether some bytes make a body's text of those that it was fed, whatever the limits. Takes no memory.
    pub fn viable(&self) -> bool
        ensures { (text : List ℕ) → StandsFor self.now text → IsTrue result ↔ IsViable IsBodyText text }
    {
        self.fed.is_alive()
    }

    /// What the bytes are cut into, or their refusal, unless memory ran out.
    pub fn finish(self) -> Result<Cut, CutError>
        ensures { (text : List ℕ) → StandsFor self text → Answers result (body_cut_of text) }
    {
        self.fed.finish()
    }
}

/// Cuts a body that comes in these pieces: it is cut as all of them joined, however they were parted.
pub fn cut_pieces(alloc: Global, pieces: &[Vec<u8>]) -> Result<Cut, CutError>
    ensures { Answers result (body_cut_of (flat_map (λ piece. piece.items) pieces.now)) }
{
    let mut cutter = Cutter::new(alloc);
    for piece in pieces {
        cutter.feed(piece.as_slice())?;
    }
    cutter.finish()
}
