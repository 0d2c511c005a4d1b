// A turn of the pump, and the end.
ghost use Rattle.std.specs.Prelude.{◌≡◌, ◌<◌, IfOk, IsSome, OnErr, Some, length};
ghost use Rattle.bosh_types.specs.declared.ending.Closing.TheVariants.{SystemShutdown};
ghost use Rattle.parked_gate.specs.Passes.{IsPassOf, Looks, known};
ghost use Rattle.session_table.specs.History.{live_of};
ghost use Rattle.session_table.specs.Purses.{OthersStay, Turned, held};
ghost use Rattle.session_pump.specs.Calling.{ClosesEach, both};
ghost use Rattle.session_pump.specs.Pumping.{AsksDirectory, AsksSession, Each, EachPlace, line_of, pumping_of};
ghost use Rattle.session_pump.specs.Turns.{AsksLive, CountsLive, PollsAt, ServesOne, ShutsDown, ShutsOne, TellsOne, Turns, streams_of};

use crate::line::Line;
use crate::polling::poll_host;
use crate::pump::Pump;
use crate::serving::close_stream;
use bosh_ports::Bell;
use bosh_types::{Closing, StreamNo};
use parked_gate::Gate;
use server_ports::Clock;
use session_table::{Directory, LiveSession, LiveSessions, Purse, Question};
use std::alloc::AllocError;
use std::sync::Wait;
use xmpp_backend::Backend;

impl<E: Backend> Pump<E> {
    /// Serves each live session once, polls each host for what its back end gave, and tells the sessions whose back ends failed. How
    /// many sessions are live after that. The only error is want of memory, which comes when all else is done; the next turn goes
    /// on from there.
    pub fn turn<R: Wait, C: Clock, B: Bell>(
        &mut self,
        rt: &R,
        directory: &Gate<Directory>,
        clock: &C,
        bell: &mut B,
    ) -> Result<usize, AllocError>
        requires { IsPassOf directory.now self.old.purse.directory }
        ensures pass { IsPassOf directory.now self.new.purse.directory }
        ensures sessions { IfOk result (λ count. count ≡ length (live_of (known self.new.purse.directory).seen)) }
        ensures turns { Turns (C.moment clock.now)
            (pumping_of E.told E.counts self.old) (pumping_of E.told E.counts self.new)
            result }
        ensures silences { B.silences bell.new ≡ B.silences bell.old }
    {
        let live = self.live(rt, directory)?;
        let served = self.serve_all(rt, directory, clock, bell, &live);
        let polled = self.poll_all(rt, clock, bell);
        let told = self.tell_all(rt, clock, bell, &live);
        let after = both(polled, told);
        let done = both(served, after);
        self.count(rt, directory, done)
    }

    // How many sessions are live, where there was memory for all that was done.
    fn count<R: Wait>(
        &mut self,
        rt: &R,
        directory: &Gate<Directory>,
        done: Result<(), AllocError>,
    ) -> Result<usize, AllocError>
        requires { IsPassOf directory.now self.old.purse.directory }
        ensures pass { IsPassOf directory.now self.new.purse.directory }
        ensures sessions { IfOk result (λ count. count ≡ length (live_of (known self.new.purse.directory).seen)) }
        ensures counts { CountsLive
            (pumping_of E.told E.counts self.old) (pumping_of E.told E.counts self.new)
            done result }
    {
        match done {
            Ok(()) => match self.live(rt, directory) {
                Ok(live) => Ok(live.len()),
                Err(AllocError) => Err(AllocError),
            },
            Err(AllocError) => Err(AllocError),
        }
    }

    /// Tells each live session that the server goes away. The only error is want of memory, where at least one wasn't told.
    pub fn shut_down<R: Wait, C: Clock, B: Bell>(
        &mut self,
        rt: &R,
        directory: &Gate<Directory>,
        clock: &C,
        bell: &mut B,
    ) -> Result<(), AllocError>
        requires { IsPassOf directory.now self.old.purse.directory }
        ensures pass { IsPassOf directory.now self.new.purse.directory }
        ensures shuts_down { ShutsDown (C.moment clock.now)
            (pumping_of E.told E.counts self.old) (pumping_of E.told E.counts self.new)
            result }
        ensures silences { B.silences bell.new ≡ B.silences bell.old }
    {
        let live = self.live(rt, directory)?;
        self.shut_all(rt, directory, clock, bell, &live)
    }

    // Tells these sessions that the server goes away. The error comes when all were told that could be.
    fn shut_all<R: Wait, C: Clock, B: Bell>(
        &mut self,
        rt: &R,
        directory: &Gate<Directory>,
        clock: &C,
        bell: &mut B,
        live: &LiveSessions,
    ) -> Result<(), AllocError>
        requires { IsPassOf directory.now self.old.purse.directory }
        ensures pass { IsPassOf directory.now self.new.purse.directory }
        ensures each { Each (ShutsOne (C.moment clock.now))
            (pumping_of E.told E.counts self.old)
            live.now
            (pumping_of E.told E.counts self.new)
            result }
        ensures silences { B.silences bell.new ≡ B.silences bell.old }
    {
        let mut told = Ok(());
        for session in live.as_slice() {
            told = both(told, self.shut(rt, directory, clock, bell, session));
        }
        told
    }

    // Tells a live session that the server goes away.
    fn shut<R: Wait, C: Clock, B: Bell>(
        &mut self,
        rt: &R,
        directory: &Gate<Directory>,
        clock: &C,
        bell: &mut B,
        session: &LiveSession,
    ) -> Result<(), AllocError>
        requires { IsPassOf directory.now self.old.purse.directory }
        ensures pass { IsPassOf directory.now self.new.purse.directory }
        ensures shuts { ShutsOne (C.moment clock.now) session.now
            (pumping_of E.told E.counts self.old) (pumping_of E.told E.counts self.new)
            result }
        ensures silences { B.silences bell.new ≡ B.silences bell.old }
    {
        let sid = session.sid.as_slice();
        match self.purse.find(rt, self.alloc, directory, sid) {
            Ok(found) => match found {
                Some(number) => self.shut_found(rt, clock, bell, number),
                None => Ok(()),
            },
            Err(AllocError) => Err(AllocError),
        }
    }

    // Tells a session that was found of each of its streams.
    fn shut_found<R: Wait, C: Clock, B: Bell>(
        &mut self,
        rt: &R,
        clock: &C,
        bell: &mut B,
        number: u64,
    ) -> Result<(), AllocError>
        requires { IsSome (held self.old.purse.sessions number) }
        ensures directory { self.new.purse.directory ≡ self.old.purse.directory }
        ensures shuts { AsksSession (λ old new. ClosesEach (C.moment clock.now) SystemShutdown old (streams_of (line_of self.old.lines number)) result new) number
            (pumping_of E.told E.counts self.old) (pumping_of E.told E.counts self.new) }
        ensures silences { B.silences bell.new ≡ B.silences bell.old }
    {
        let closing = Closing::SystemShutdown;
        match self.lines.get(&number) {
            Some(line) => close_each(rt, &mut self.purse, number, line, clock, bell, closing),
            None => {
                let stream = StreamNo::unnamed();
                close_stream(rt, &mut self.purse, number, stream, clock, bell, closing)
            }
        }
    }

    /// The live sessions, by the directory. The only error is want of memory.
    pub(crate) fn live<R: Wait>(
        &mut self,
        rt: &R,
        directory: &Gate<Directory>,
    ) -> Result<LiveSessions, AllocError>
        requires { IsPassOf directory.now self.old.purse.directory }
        ensures pass { IsPassOf directory.now self.new.purse.directory }
        ensures live { IfOk result (λ live. length live ≡ length (live_of (known self.new.purse.directory).seen)) }
        ensures asked { IfOk result (λ live. AsksLive live
            (pumping_of E.told E.counts self.old) (pumping_of E.told E.counts self.new)) }
        ensures err { OnErr result (AsksDirectory (Looks (λ log. Unit {0}))
            (pumping_of E.told E.counts self.old) (pumping_of E.told E.counts self.new)) }
    {
        match directory.look(rt, &mut self.purse.directory, &Question::Live) {
            Ok(live) => Ok(live),
            Err(AllocError) => Err(AllocError),
        }
    }

    // Serves these sessions. The error comes when all were served that could be.
    fn serve_all<R: Wait, C: Clock, B: Bell>(
        &mut self,
        rt: &R,
        directory: &Gate<Directory>,
        clock: &C,
        bell: &mut B,
        live: &LiveSessions,
    ) -> Result<(), AllocError>
        requires { IsPassOf directory.now self.old.purse.directory }
        ensures pass { IsPassOf directory.now self.new.purse.directory }
        ensures each { Each (ServesOne (C.moment clock.now))
            (pumping_of E.told E.counts self.old)
            live.now
            (pumping_of E.told E.counts self.new)
            result }
        ensures silences { B.silences bell.new ≡ B.silences bell.old }
    {
        let mut served = Ok(());
        for session in live.as_slice() {
            served = both(served, self.serve(rt, directory, clock, bell, session));
        }
        served
    }

    /// Polls each host. The error comes when all were polled that could be.
    pub(crate) fn poll_all<R: Wait, C: Clock, B: Bell>(
        &mut self,
        rt: &R,
        clock: &C,
        bell: &mut B,
    ) -> Result<(), AllocError>
        ensures directory { self.new.purse.directory ≡ self.old.purse.directory }
        ensures each { EachPlace (PollsAt (C.moment clock.now))
            (pumping_of E.told E.counts self.old)
            (length self.old.hosts.stands.items)
            (pumping_of E.told E.counts self.new)
            result }
        ensures silences { B.silences bell.new ≡ B.silences bell.old }
    {
        let mut polled = Ok(());
        for place in 0..self.hosts.stands.len() {
            polled = both(polled, self.poll_at(rt, clock, bell, place));
        }
        polled
    }

    // Polls the host at this place.
    fn poll_at<R: Wait, C: Clock, B: Bell>(
        &mut self,
        rt: &R,
        clock: &C,
        bell: &mut B,
        place: usize,
    ) -> Result<(), AllocError>
        requires { place < length self.old.hosts.stands.items }
        ensures hosts { length self.new.hosts.stands.items ≡ length self.old.hosts.stands.items }
        ensures directory { self.new.purse.directory ≡ self.old.purse.directory }
        ensures polls { PollsAt (C.moment clock.now) place
            (pumping_of E.told E.counts self.old) (pumping_of E.told E.counts self.new)
            result }
        ensures silences { B.silences bell.new ≡ B.silences bell.old }
    {
        match self.hosts.stands.get_mut(place) {
            Some(stand) => poll_host(
                rt,
                &mut self.purse,
                &mut self.lines,
                place,
                stand,
                clock,
                bell,
            ),
            None => unreachable!(),
        }
    }

    /// Tells these sessions that their back ends failed, where one did. The error comes when all were told that could be.
    pub(crate) fn tell_all<R: Wait, C: Clock, B: Bell>(
        &mut self,
        rt: &R,
        clock: &C,
        bell: &mut B,
        live: &LiveSessions,
    ) -> Result<(), AllocError>
        ensures directory { self.new.purse.directory ≡ self.old.purse.directory }
        ensures each { Each (TellsOne (C.moment clock.now))
            (pumping_of E.told E.counts self.old)
            live.now
            (pumping_of E.told E.counts self.new)
            result }
        ensures silences { B.silences bell.new ≡ B.silences bell.old }
    {
        let mut told = Ok(());
        for session in live.as_slice() {
            told = both(told, self.tell_of_failure(rt, clock, bell, session));
        }
        told
    }
}

// Closes the streams of a session that have a side. The error comes when all were closed that could be.
fn close_each<R: Wait, C: Clock, B: Bell>(
    rt: &R,
    purse: &mut Purse,
    number: u64,
    line: &Line,
    clock: &C,
    bell: &mut B,
    closing: Closing,
) -> Result<(), AllocError>
    requires { IsSome (held purse.old.sessions number) }
    ensures closes { Turned number purse.old.sessions purse.new.sessions (λ old new. ClosesEach (C.moment clock.now) closing old (streams_of (Some line.now)) result new) }
    ensures others { OthersStay number purse.old.sessions purse.new.sessions }
    ensures directory { purse.new.directory ≡ purse.old.directory }
    ensures silences { B.silences bell.new ≡ B.silences bell.old }
{
    let mut closed = Ok(());
    for side in &line.sides {
        closed = both(
            closed,
            close_stream(rt, purse, number, side.stream, clock, bell, closing),
        );
    }
    closed
}

/// What is answered for two things that were both tried.
pub(crate) fn both(
    first: Result<(), AllocError>,
    second: Result<(), AllocError>,
) -> Result<(), AllocError>
    ensures { result ≡ both first second }
{
    match first {
        Ok(()) => second,
        Err(AllocError) => Err(AllocError),
    }
}
