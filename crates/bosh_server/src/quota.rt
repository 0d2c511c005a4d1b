// How much of something may be taken at once, by all loops together.
ghost use Rattle.std.specs.Prelude.{◌≡◌};
ghost use Rattle.bosh_server.specs.Quotas.{taken_with};

use server_watch::{Limit, Watch};
use std::sync::{Mutex, Wait};

/// So much of something, of which some is taken. What is refused is told.
#[derive(Drop)]
pub(crate) struct Quota {
    most: u64,
    taken: Mutex<u64>,
    limit: Limit,
    watch: Watch,
}

impl Quota {
    /// Nothing is taken of so much. What is refused is so at this limit.
    pub(crate) fn new(most: u64, limit: Limit, watch: Watch) -> Quota {
        Quota {
            most,
            taken: Mutex::new(0),
            limit,
            watch,
        }
    }

    /// Whether so much is left.
    pub(crate) fn has_left<R: Wait>(&self, rt: &R, count: u64) -> bool {
        taken_with(self.most, *self.taken.lock(rt), count).is_some()
    }

    /// Takes so much, where it is left. Whether it was.
    pub(crate) fn take<R: Wait>(&self, rt: &R, count: u64) -> bool {
        if self.take_left(rt, count) {
            return true;
        }
        self.watch.refuse(rt, self.limit);
        false
    }

    fn take_left<R: Wait>(&self, rt: &R, count: u64) -> bool {
        let mut taken = self.taken.lock(rt);
        match taken_with(self.most, *taken, count) {
            Some(sum) => {
                *taken = sum;
                true
            }
            None => false,
        }
    }

    /// Gives back so much of what was taken.
    pub(crate) fn give_back<R: Wait>(&self, rt: &R, count: u64) {
        let mut taken = self.taken.lock(rt);
        *taken = taken.saturating_sub(count);
    }
}

// How much is taken with so much more, where that isn't above the most.
fn taken_with(most: u64, taken: u64, count: u64) -> Option<u64>
    ensures { result ≡ taken_with most taken count }
{
    let sum = taken.checked_add(count)?;
    if sum <= most {
        return Some(sum);
    }
    None
}
