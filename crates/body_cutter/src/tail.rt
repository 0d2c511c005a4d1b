ghost use Rattle.std.specs.Prelude.{◌≡◌, [], ◌∷◌, ◌++◌};
ghost use Rattle.body_cutter.specs.Ends.{last_bytes};

use std::marker::Model;

const KEPT: usize = 8;

/// The last bytes of a text: eight, or all if it has fewer.
#[derive(Drop)]
pub(crate) struct Tail {
    bytes: [u8; KEPT],
    count: usize,
}

impl Model for Tail {
    ghost use Rattle.std.specs.Prelude.{ℕ, List, take, ◌≤◌};

    ghost Value = { List ℕ };

    ghost view = { λ t. take t.count t.bytes };

    ghost invariant = { λ t. t.count ≤ 8 };
}

impl Tail {
    pub(crate) fn new() -> Self
        ensures { result ≡ [] }
    {
        Tail {
            bytes: [0; KEPT],
            count: 0,
        }
    }

    pub(crate) fn as_slice(&self) -> &[u8]
        ensures { result.now ≡ self.now }
    {
        &self.bytes[..self.count]
    }

    fn push(&mut self, b: u8)
        ensures { self.new ≡ last_bytes (self.old ++ b ∷ []) }
    {
        if self.count < KEPT {
            self.bytes[self.count] = b;
            self.count += 1;
            return;
        }
        self.bytes.rotate_left(1);
        self.bytes[KEPT - 1] = b;
    }

    /// Takes the last bytes of the text with a piece more.
    pub(crate) fn grow(&mut self, piece: &[u8])
        ensures { self.new ≡ last_bytes (self.old ++ piece.now) }
    {
        if piece.len() >= KEPT {
            self.bytes.copy_from_slice(&piece[piece.len() - KEPT..]);
            self.count = KEPT;
            return;
        }
        for b in piece {
            self.push(*b);
        }
    }
}
