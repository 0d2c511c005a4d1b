// News of the links of one back end.
ghost use Rattle.std.specs.Prelude.{◌≡◌, false, true};

use std::alloc::Global;
use std::mem::swap;
use std::sync::{Mutex, Wait};

#[derive(Drop)]
struct News {
    wires: Vec<u64>,
    // There was no memory for some of them.
    is_short: bool,
}

impl News {
    // Exchanges the wires for these, and begins anew. Whether there was memory for all of them.
    fn hand_out(&mut self, wires: &mut Vec<u64>) -> bool
        ensures given { wires.new.items ≡ self.old.wires.items }
        ensures taken { self.new.wires.items ≡ wires.old.items }
        ensures whole { result ≡ true → self.old.is_short ≡ false }
        ensures anew { self.new.is_short ≡ false }
    {
        swap(&mut self.wires, wires);
        let is_whole = !self.is_short;
        self.is_short = false;
        is_whole
    }
}

/// Where it is noted on which links of a back end something may have happened.
#[derive(Drop)]
pub(crate) struct Desk {
    news: Mutex<News>,
}

impl Desk {
    /// Nothing happened. It takes no memory.
    pub(crate) fn new(alloc: Global) -> Desk {
        Desk {
            news: Mutex::new(News {
                wires: Vec::new(alloc),
                is_short: false,
            }),
        }
    }

    /// Something may have happened on the link of the wire with this number.
    pub(crate) fn note<R: Wait>(&self, rt: &R, wire: u64) {
        let mut news = self.news.lock(rt);
        if news.wires.push(wire).is_err() {
            news.is_short = true;
        }
    }

    /// Something may have happened on each link.
    pub(crate) fn note_all<R: Wait>(&self, rt: &R) {
        self.news.lock(rt).is_short = true;
    }

    /// Takes all wires that were noted, in the place of these, which are to be none. Whether there was memory for each of them.
    pub(crate) fn take<R: Wait>(&self, rt: &R, wires: &mut Vec<u64>) -> bool {
        self.news.lock(rt).hand_out(wires)
    }
}
