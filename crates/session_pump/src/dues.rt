// When time next has something to do for the sessions.
ghost use Rattle.std.specs.Prelude.{◌≡◌, ◌≢◌, ◌<◌, ℕ, List, IfOk, OnErr, OnOk};
ghost use Rattle.std.specs.BTreeMap.{keys};
ghost use Rattle.std.specs.List.{All, Contains};
ghost use Rattle.pause_rules.specs.NextDue.{IsLeastMoment, moment_of};
ghost use Rattle.session_table.specs.Purses.{held};
ghost use Rattle.session_pump.specs.Dues.{AskDues, AsksDue, IsNoted, IsNotedAs, IsOver, IsTakenBy};
ghost use Rattle.session_pump.specs.Pumping.{pumping_of};
ghost use Rattle.session_pump.specs.Turns.{Notes};

use crate::pump::Pump;
use bosh_types::Moment;
use pause_rules::DueIndex;
use std::alloc::AllocError;
use std::sync::Wait;
use xmpp_backend::Backend;

impl<E: Backend> Pump<E> {
    /// The first moment at which time has something to do for a session, by what was noted. None where it has nothing to do for any.
    pub fn first_due(&self) -> Option<Moment>
        ensures { IsLeastMoment self.now.dues result }
    {
        self.dues.first_due()
    }

    /// Puts the numbers of the sessions that are due by now behind these. They are noted no longer: they are to be served, and to be
    /// noted anew. The only error is want of memory, and then a number may be noted no longer.
    pub fn take_due<R: Wait>(
        &mut self,
        rt: &R,
        now: Moment,
        numbers: &mut Vec<u64>,
    ) -> Result<(), AllocError>
        ensures taken { OnOk result ((number : ℕ) → IsTakenBy now self.old.dues self.new.dues numbers.new.items number) }
        ensures all { OnOk result (All (λ pair. now < pair.1) self.new.dues) }
        ensures kept { OnOk result ((number : ℕ) → Contains numbers.old.items number → Contains numbers.new.items number) }
        ensures purse { self.new.purse ≡ self.old.purse }
        ensures lines { self.new.lines ≡ self.old.lines }
        ensures hosts { self.new.hosts ≡ self.old.hosts }
    {
        take_due(rt, &mut self.dues, now, numbers)
    }

    /// Asks each session that is held when it is due, and notes that and nothing else. The only error is want of memory, and then some
    /// sessions aren't noted.
    pub fn note_all<R: Wait>(&mut self, rt: &R) -> Result<(), AllocError>
        ensures noted { OnOk result ((number : ℕ) → IsNoted number self.new.purse.sessions self.new.dues) }
        ensures asked { OnOk result (AskDues self.old.purse.sessions (keys self.old.purse.sessions) self.new.purse.sessions) }
        ensures wanted { OnErr result ((asked : List ℕ) × AskDues self.old.purse.sessions asked self.new.purse.sessions) }
        ensures directory { self.new.purse.directory ≡ self.old.purse.directory }
        ensures lines { self.new.lines ≡ self.old.lines }
        ensures hosts { self.new.hosts ≡ self.old.hosts }
    {
        let numbers = self.held_numbers()?;
        self.dues = DueIndex::new(self.alloc);
        self.note_for(rt, numbers.as_slice())
    }

    // The numbers under which sessions are held.
    fn held_numbers(&self) -> Result<Vec<u64>, AllocError>
        ensures { IfOk result (λ numbers. numbers.items ≡ keys self.now.purse.sessions) }
    {
        let mut numbers = Vec::new(self.alloc);
        for (number, _) in &self.purse.sessions {
            numbers.push(*number)?;
        }
        Ok(numbers)
    }

    /// Asks the sessions with these opening numbers when they are due, and notes that. Those that aren't held are noted no longer. The
    /// only error is want of memory, and then some of them aren't noted anew.
    pub fn note_for<R: Wait>(&mut self, rt: &R, numbers: &[u64]) -> Result<(), AllocError>
        ensures noted { OnOk result ((number : ℕ) → Contains numbers.now number → IsNoted number self.new.purse.sessions self.new.dues) }
        ensures others { (number : ℕ) → (Contains numbers.now number → ⊥) → moment_of self.new.dues number ≡ moment_of self.old.dues number }
        ensures asked { OnOk result (AskDues self.old.purse.sessions numbers.now self.new.purse.sessions) }
        ensures wanted { OnErr result ((asked : List ℕ) × AskDues self.old.purse.sessions asked self.new.purse.sessions) }
        ensures directory { self.new.purse.directory ≡ self.old.purse.directory }
        ensures lines { self.new.lines ≡ self.old.lines }
        ensures hosts { self.new.hosts ≡ self.old.hosts }
    {
        for number in numbers {
            self.note(rt, *number)?;
        }
        Ok(())
    }

    /// The same for sessions that something was given to. The numbers of those for which time has nothing more to do, as after the
    /// ending, are put behind the others that are over: they are to be served. The only error is want of memory, and then some of them
    /// aren't noted anew.
    pub fn note_given<R: Wait>(
        &mut self,
        rt: &R,
        numbers: &[u64],
        over: &mut Vec<u64>,
    ) -> Result<(), AllocError>
        ensures noted { OnOk result ((number : ℕ) → Contains numbers.now number → IsNoted number self.new.purse.sessions self.new.dues) }
        ensures others { (number : ℕ) → (Contains numbers.now number → ⊥) → moment_of self.new.dues number ≡ moment_of self.old.dues number }
        ensures asked { OnOk result (AskDues self.old.purse.sessions numbers.now self.new.purse.sessions) }
        ensures wanted { OnErr result ((asked : List ℕ) × AskDues self.old.purse.sessions asked self.new.purse.sessions) }
        ensures over { OnOk result ((number : ℕ) → Contains numbers.now number → IsOver number self.new.purse.sessions self.new.dues → Contains over.new.items number) }
        ensures kept { (number : ℕ) → Contains over.old.items number → Contains over.new.items number }
        ensures directory { self.new.purse.directory ≡ self.old.purse.directory }
        ensures lines { self.new.lines ≡ self.old.lines }
        ensures hosts { self.new.hosts ≡ self.old.hosts }
    {
        for number in numbers {
            self.note_one_given(rt, *number, over)?;
        }
        Ok(())
    }

    // Notes when the session under this number is due, or puts the number behind those that are over.
    fn note_one_given<R: Wait>(
        &mut self,
        rt: &R,
        number: u64,
        over: &mut Vec<u64>,
    ) -> Result<(), AllocError>
        ensures noted { OnOk result (IsNoted number self.new.purse.sessions self.new.dues) }
        ensures others { (other : ℕ) → other ≢ number → moment_of self.new.dues other ≡ moment_of self.old.dues other }
        ensures asked { AsksDue number self.old.purse.sessions self.new.purse.sessions }
        ensures over { OnOk result (IsOver number self.new.purse.sessions self.new.dues → Contains over.new.items number) }
        ensures kept { (other : ℕ) → Contains over.old.items other → Contains over.new.items other }
        ensures directory { self.new.purse.directory ≡ self.old.purse.directory }
        ensures lines { self.new.lines ≡ self.old.lines }
        ensures hosts { self.new.hosts ≡ self.old.hosts }
    {
        let due = self.note(rt, number)?;
        if due.is_none() && self.purse.sessions.get(&number).is_some() {
            over.push(number)?;
        }
        Ok(())
    }

    /// Notes when the session under this number is due, as it answered. The only error is want of memory, and then all is as it was.
    pub(crate) fn note_answer(&mut self, number: u64, due: Option<Moment>) -> Result<(), AllocError>
        ensures notes { Notes number due
            (pumping_of E.told E.counts self.old) (pumping_of E.told E.counts self.new)
            result }
        ensures purse { self.new.purse ≡ self.old.purse }
    {
        match put_due(&mut self.dues, number, due) {
            Ok(_) => Ok(()),
            Err(AllocError) => Err(AllocError),
        }
    }

    // Asks the session under this number when it is due, and notes that. The moment that is noted then, if there is one.
    fn note<R: Wait>(&mut self, rt: &R, number: u64) -> Result<Option<Moment>, AllocError>
        ensures noted { OnOk result (IsNoted number self.new.purse.sessions self.new.dues) }
        ensures moment { IfOk result (λ due. due ≡ moment_of self.new.dues number) }
        ensures others { (other : ℕ) → other ≢ number → moment_of self.new.dues other ≡ moment_of self.old.dues other }
        ensures asked { AsksDue number self.old.purse.sessions self.new.purse.sessions }
        ensures directory { self.new.purse.directory ≡ self.old.purse.directory }
        ensures lines { self.new.lines ≡ self.old.lines }
        ensures hosts { self.new.hosts ≡ self.old.hosts }
    {
        if self.purse.sessions.get(&number).is_none() {
            self.dues.clear(number);
            return Ok(None);
        }
        let state = self.purse.state(rt, number);
        put_due(&mut self.dues, number, state.due)
    }
}

// Takes the numbers off that are due by now, and puts them behind these. The only error is want of memory.
fn take_due<R: Wait>(
    rt: &R,
    dues: &mut DueIndex,
    now: Moment,
    numbers: &mut Vec<u64>,
) -> Result<(), AllocError>
    ensures taken { OnOk result ((number : ℕ) → IsTakenBy now dues.old dues.new numbers.new.items number) }
    ensures all { OnOk result (All (λ pair. now < pair.1) dues.new) }
    ensures kept { OnOk result ((number : ℕ) → Contains numbers.old.items number → Contains numbers.new.items number) }
{
    for _ in rt.forever() {
        let Some(number) = dues.next_due(now) else {
            return Ok(());
        };
        numbers.push(number)?;
        dues.clear(number);
    }
    unreachable!()
}

/// When the session under this number is due is noted no longer.
pub(crate) fn forget_due(dues: &mut DueIndex, number: u64)
    ensures { IsNotedAs number None dues.old dues.new }
{
    dues.clear(number);
}

// Notes the moment of a number, or that it has none; that is handed back. The only error is want of memory, and then all is as it was.
fn put_due(
    dues: &mut DueIndex,
    number: u64,
    due: Option<Moment>,
) -> Result<Option<Moment>, AllocError>
    ensures put { OnOk result (moment_of dues.new number ≡ due) }
    ensures moment { IfOk result (λ moment. moment ≡ due) }
    ensures others { (other : ℕ) → other ≢ number → moment_of dues.new other ≡ moment_of dues.old other }
    ensures err { OnErr result (dues.new ≡ dues.old) }
{
    match due {
        Some(moment) => {
            dues.set(number, moment)?;
            Ok(Some(moment))
        }
        None => {
            dues.clear(number);
            Ok(None)
        }
    }
}
