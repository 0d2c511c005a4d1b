// What was heard of a request on a connection.
ghost use Rattle.std.specs.Prelude.{◌≡◌, ℕ, List, ◌∷◌, ◌++◌};
ghost use Rattle.stop_net.specs.Heard.{asked_by};

/// Whether the whole head of a request came: an empty line behind another one. One too early does no harm.
#[derive(Clone, Copy, Debug, PartialEq, Eq)]
pub(crate) struct Heard {
    pub(crate) is_asked: bool,
    /// The line so far has no byte but CR, and isn't the first.
    is_empty: bool,
}

impl Heard {
    pub(crate) const NOTHING: Heard = Heard {
        is_asked: false,
        is_empty: false,
    };

    /// These bytes came too.
    pub(crate) fn hear(&mut self, bytes: &[u8])
        ensures { (more : List ℕ) → asked_by self.new more ≡ asked_by self.old (bytes.now ++ more) }
    {
        for byte in bytes {
            *self = self.with(*byte);
        }
    }

    // What is heard once this byte came too.
    fn with(self, byte: u8) -> Heard
        ensures { (more : List ℕ) → asked_by result more ≡ asked_by self (byte ∷ more) }
    {
        if byte == b'\n' {
            return Heard {
                is_asked: self.is_asked || self.is_empty,
                is_empty: true,
            };
        }
        if byte == b'\r' {
            return self;
        }
        Heard {
            is_asked: self.is_asked,
            is_empty: false,
        }
    }
}
