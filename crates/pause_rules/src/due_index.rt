ghost use Rattle.std.specs.Prelude.{◌≡◌, ℕ, Bool, false, [], Option, Some, None, nat_eq, if◌then◌else◌, OnOk, OnErr};
ghost use Rattle.pause_rules.specs.NextDue.{IsByNumber, IsLeastMoment, IsNextDue, after_clear, after_set, moment_of};

use bosh_types::Moment;
use std::alloc::{AllocError, Global};
use std::collections::{BTreeMap, BTreeSet};
use std::marker::Model;

/// Numbers that are each due at a moment, as sessions are. What is due first is found at once, and a number is given
/// another moment in a time that grows with the logarithm of how many there are.
#[derive(Drop)]
pub struct DueIndex {
    // The moment of each number, in milliseconds.
    moments: BTreeMap<u64, u64>,
    // The same pairs, the moment before its number.
    queue: BTreeSet<(u64, u64)>,
}

// Clauses see the pairs of a number and its moment, in the order of the numbers, which are different.
impl Model for DueIndex {
    ghost use Rattle.std.specs.Prelude.{ℕ, List};
    ghost use Rattle.pause_rules.specs.Paired.{IsPaired};

    ghost Value = { List (ℕ × ℕ) };

    ghost view = { λ d. d.moments.entries };

    ghost invariant = { λ d. IsPaired d.moments d.queue };
}

impl DueIndex {
    /// An index in which nothing is due. It takes no memory yet.
    pub fn new(alloc: Global) -> Self
        ensures { result ≡ [] }
    {
        DueIndex {
            moments: BTreeMap::new(alloc),
            queue: BTreeSet::new(alloc),
        }
    }

    /// Makes a number due at a moment, in place of the one that it had. Where memory is wanting nothing has changed.
    pub fn set(&mut self, number: u64, moment: Moment) -> Result<(), AllocError>
        ensures set { OnOk result (self.new ≡ after_set self.old number moment) }
        ensures found { OnOk result ((other : ℕ) → moment_of self.new other
            ≡ (if nat_eq number other then Some moment else moment_of self.old other)) }
        ensures kept { OnErr result (self.new ≡ self.old) }
    {
        let millis = moment.millis();
        self.queue.insert((millis, number))?;
        let Ok(before) = self.moments.insert(number, millis) else {
            self.queue.remove(&(millis, number));
            return Err(AllocError);
        };
        let Some(old) = before else {
            return Ok(());
        };
        if old != millis {
            self.queue.remove(&(old, number));
        }
        Ok(())
    }

    /// Makes a number due at no moment. One that has none stays so.
    pub fn clear(&mut self, number: u64)
        ensures cleared { self.new ≡ after_clear self.old number }
        ensures found { (other : ℕ) → moment_of self.new other
            ≡ (if nat_eq number other then None else moment_of self.old other) }
    {
        let Some(was) = self.moments.remove(&number) else {
            return;
        };
        self.queue.remove(&(was, number));
    }

    /// The number that is due first, where it is due by now; at one moment the lower number comes first. `None` exactly
    /// where none is due by now.
    pub fn next_due(&self, now: Moment) -> Option<u64>
        ensures next { IsNextDue self.now now result }
        ensures different { IsByNumber self.now }
    {
        let (millis, number) = *self.queue.first()?;
        if millis <= now.millis() {
            Some(number)
        } else {
            None
        }
    }

    /// The moment at which the first of them is due: `None` exactly where none has a moment.
    pub fn first_due(&self) -> Option<Moment>
        ensures first { IsLeastMoment self.now result }
        ensures different { IsByNumber self.now }
    {
        let (millis, _) = *self.queue.first()?;
        Some(Moment::from_millis(millis))
    }
}
