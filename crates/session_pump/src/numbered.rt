// A turn of the pump for some sessions alone.
ghost use Rattle.std.specs.Prelude.{◌≡◌, ◌==◌, IfNone, IfSome, None, false, true};
ghost use Rattle.std.specs.List.{Contains, list_any};
ghost use Rattle.parked_gate.specs.Passes.{IsPassOf};
ghost use Rattle.session_table.specs.Purses.{Holds, held};
ghost use Rattle.session_pump.specs.NumberedTurns.{ServesNumber, TellsFailures, TurnsFor};
ghost use Rattle.session_pump.specs.Pumping.{Each, pumping_of};

use crate::pump::Pump;
use crate::turn::both;
use bosh_ports::Bell;
use bosh_types::SharedText;
use parked_gate::Gate;
use server_ports::Clock;
use session_table::{Directory, LiveSession, Purse};
use std::alloc::AllocError;
use std::sync::Wait;
use xmpp_backend::Backend;

impl<E: Backend> Pump<E> {
    /// Serves the live session under each of these opening numbers, polls each host for what its back end gave, and where a back end
    /// failed tells the live sessions. It costs nothing for other sessions. The only error is want of memory, which comes when all
    /// else is done; a whole turn goes on from there.
    pub fn turn_for<R: Wait, C: Clock, B: Bell>(
        &mut self,
        rt: &R,
        directory: &Gate<Directory>,
        clock: &C,
        bell: &mut B,
        numbers: &[u64],
    ) -> Result<(), AllocError>
        requires { IsPassOf directory.now self.old.purse.directory }
        ensures pass { IsPassOf directory.now self.new.purse.directory }
        ensures turns { TurnsFor (C.moment clock.now) numbers.now
            (pumping_of E.told E.counts self.old) (pumping_of E.told E.counts self.new)
            result }
        ensures silences { B.silences bell.new ≡ B.silences bell.old }
    {
        let before = self.hosts.failures(self.alloc)?;
        let served = self.serve_numbers(rt, directory, clock, bell, numbers);
        let polled = self.poll_all(rt, clock, bell);
        let told = self.tell_failures(rt, directory, clock, bell, before.as_slice());
        let after = both(polled, told);
        both(served, after)
    }

    // Serves the sessions under these numbers. The error comes when all were served that could be.
    fn serve_numbers<R: Wait, C: Clock, B: Bell>(
        &mut self,
        rt: &R,
        directory: &Gate<Directory>,
        clock: &C,
        bell: &mut B,
        numbers: &[u64],
    ) -> Result<(), AllocError>
        requires { IsPassOf directory.now self.old.purse.directory }
        ensures pass { IsPassOf directory.now self.new.purse.directory }
        ensures each { Each (ServesNumber (C.moment clock.now))
            (pumping_of E.told E.counts self.old)
            numbers.now
            (pumping_of E.told E.counts self.new)
            result }
        ensures silences { B.silences bell.new ≡ B.silences bell.old }
    {
        let mut served = Ok(());
        for number in numbers {
            served = both(
                served,
                self.serve_number(rt, directory, clock, bell, *number),
            );
        }
        served
    }

    // Serves the live session under this number, where there is one.
    fn serve_number<R: Wait, C: Clock, B: Bell>(
        &mut self,
        rt: &R,
        directory: &Gate<Directory>,
        clock: &C,
        bell: &mut B,
        number: u64,
    ) -> Result<(), AllocError>
        requires { IsPassOf directory.now self.old.purse.directory }
        ensures pass { IsPassOf directory.now self.new.purse.directory }
        ensures serves { ServesNumber (C.moment clock.now) number
            (pumping_of E.told E.counts self.old) (pumping_of E.told E.counts self.new)
            result }
        ensures silences { B.silences bell.new ≡ B.silences bell.old }
    {
        match sid_of(&self.purse, number) {
            Some(sid) => {
                let Ok(sid) = sid.again() else {
                    return Err(AllocError);
                };
                self.serve_found(rt, directory, clock, bell, number, &sid)
            }
            None => self.serve_unmet(rt, directory, clock, bell, number),
        }
    }

    // Serves a session that isn't held yet, by the name that the directory has for it.
    fn serve_unmet<R: Wait, C: Clock, B: Bell>(
        &mut self,
        rt: &R,
        directory: &Gate<Directory>,
        clock: &C,
        bell: &mut B,
        number: u64,
    ) -> Result<(), AllocError>
        requires pass { IsPassOf directory.now self.old.purse.directory }
        requires not_held { held self.old.purse.sessions number ≡ None }
        ensures pass { IsPassOf directory.now self.new.purse.directory }
        ensures serves { ServesNumber (C.moment clock.now) number
            (pumping_of E.told E.counts self.old) (pumping_of E.told E.counts self.new)
            result }
        ensures silences { B.silences bell.new ≡ B.silences bell.old }
    {
        let live = self.live(rt, directory)?;
        match session_under(live.as_slice(), number) {
            Some(session) => self.serve(rt, directory, clock, bell, session),
            None => Ok(()),
        }
    }

    // Tells the live sessions where their back ends failed, unless as many of each host have failed as were counted.
    fn tell_failures<R: Wait, C: Clock, B: Bell>(
        &mut self,
        rt: &R,
        directory: &Gate<Directory>,
        clock: &C,
        bell: &mut B,
        counted: &[u64],
    ) -> Result<(), AllocError>
        requires { IsPassOf directory.now self.old.purse.directory }
        ensures pass { IsPassOf directory.now self.new.purse.directory }
        ensures tells { TellsFailures (C.moment clock.now) counted.now
            (pumping_of E.told E.counts self.old) (pumping_of E.told E.counts self.new)
            result }
        ensures silences { B.silences bell.new ≡ B.silences bell.old }
    {
        let failures = self.hosts.failures(self.alloc)?;
        if are_same(failures.as_slice(), counted) {
            return Ok(());
        }
        let live = self.live(rt, directory)?;
        self.tell_all(rt, clock, bell, &live)
    }
}

// The name of the session that is held under this number.
fn sid_of(purse: &Purse, number: u64) -> Option<&SharedText>
    ensures held { IfSome result (λ sid. Holds purse.now.sessions number sid.now) }
    ensures not_held { IfNone result (held purse.now.sessions number ≡ None) }
{
    match purse.sessions.get(&number) {
        Some(session) => Some(&session.sid),
        None => None,
    }
}

fn are_same(counts: &[u64], others: &[u64]) -> bool
    ensures { result ≡ true → counts.now ≡ others.now }
{
    counts == others
}

// The session under this number among these.
fn session_under(live: &[LiveSession], number: u64) -> Option<&LiveSession>
    ensures found { IfSome result (λ session. Contains live.now session.now × (session.now.number ≡ number)) }
    ensures none { IfNone result (list_any (λ session. session.number == number) live.now ≡ false) }
{
    for session in live {
        if session.number == number {
            return Some(session);
        }
    }
    None
}
