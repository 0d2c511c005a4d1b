// A history that only clauses read.
ghost use Rattle.std.specs.Prelude.{◌≡◌, ◌+◌, ◌<◌, ◌^◌, ◌∷◌, ◌++◌, [], OnOk, length};

use http_server::Log;
use std::alloc::AllocError;
use std::marker::Model;

/// A list of entries of which the program keeps the count alone: it takes no memory. Clauses see the entries.
#[derive(Drop)]
pub struct History<E> {
    made: Log<E, ()>,
    count: u64,
}

impl<E> Model for History<E> {
    ghost use Rattle.std.specs.Prelude.{List};

    ghost Value = { List E };

    ghost use Rattle.std.specs.Prelude.{◌≡◌, length};
    ghost use Rattle.session_journal.specs.Recording.{entries_of};

    ghost view = { λ h. entries_of h.made.items };

    ghost invariant = { λ h. h.count ≡ length (entries_of h.made.items) };
}

impl<E> History<E> {
    /// No entry.
    pub fn new() -> History<E>
        ensures { result ≡ [] }
    {
        History {
            made: Log::new(),
            count: 0,
        }
    }

    /// Whether one entry more can be counted; where it can't, it is as where memory is wanting.
    pub fn room(&self) -> Result<(), AllocError>
        ensures { OnOk result (length self.now + 1 < 2 ^ 64) }
    {
        match self.count.checked_add(1) {
            Some(_) => Ok(()),
            None => Err(AllocError),
        }
    }

    /// One entry more.
    pub fn add(&mut self, entry: &E)
        requires { length self.old + 1 < 2 ^ 64 }
        ensures { self.new ≡ self.old ++ entry.now ∷ [] }
    {
        self.made = self.made.and(entry, &());
        self.count += 1;
    }

    /// How many entries there are.
    pub fn len(&self) -> u64
        ensures { result ≡ length self.now }
    {
        self.count
    }
}
