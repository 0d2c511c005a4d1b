// Where the content of a message goes while it comes.
ghost use Rattle.std.specs.Prelude.{◌≡◌, ℕ, List, [], ◌++◌};

use std::alloc::Global;
use std::marker::Model;

/// What a piece did.
#[derive(Clone, Copy, Debug, PartialEq, Eq)]
pub enum Fed {
    /// It was taken whole.
    Done,
    /// Memory is wanting, and nothing of it was taken.
    Memory,
}

/// What takes a content in pieces. It is told where one begins, so that it serves for one content after the other.
pub trait Feed {
    // The bytes that it took since the last beginning.
    ghost fed: { Self → List ℕ };

    /// Begins anew: it has taken nothing.
    fn begin(&mut self)
        ensures { fed self.new ≡ [] };

    /// Takes the next piece, or, where memory is wanting, nothing of it.
    fn piece(&mut self, bytes: &[u8]) -> Fed
        ensures done { result ≡ Fed.Done → fed self.new ≡ fed self.old ++ bytes.now }
        ensures memory { result ≡ Fed.Memory → fed self.new ≡ fed self.old };
}

/// A feed that keeps what it takes. It is seen as these bytes.
#[derive(Debug, Drop)]
pub struct KeptContent {
    bytes: Vec<u8>,
}

impl Model for KeptContent {
    ghost use Rattle.std.specs.Prelude.{ℕ, List};

    ghost Value = { List ℕ };

    ghost view = { λ k. k.bytes.items };
}

impl KeptContent {
    /// Takes no memory.
    pub fn new(alloc: Global) -> Self
        ensures { result ≡ [] }
    {
        KeptContent {
            bytes: Vec::new(alloc),
        }
    }

    /// The bytes that it took since the last beginning.
    pub fn into_vec(self) -> Vec<u8>
        ensures { result.items ≡ self }
    {
        self.bytes
    }
}

impl Feed for KeptContent {
    ghost fed = { λ k. k };

    fn begin(&mut self)
        ensures { self.new ≡ [] }
    {
        self.bytes.clear();
    }

    fn piece(&mut self, bytes: &[u8]) -> Fed
        ensures done { result ≡ Fed.Done → self.new ≡ self.old ++ bytes.now }
        ensures memory { result ≡ Fed.Memory → self.new ≡ self.old }
    {
        if self.bytes.extend_from_slice(bytes).is_err() {
            return Fed::Memory;
        }
        Fed::Done
    }
}
