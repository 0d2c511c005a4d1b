// One session in a turn.
ghost use Rattle.std.specs.Prelude.{◌≡◌, ◌≢◌, ◌+◌, ◌-◌, ◌^◌, ◌≤◌, ◌++◌, ◌∷◌, ◌⊎◌, [], ℕ, IfNone, IfOk, IfSome, IsOk, IsSome, List, None, Ok, OnErr, OnOk, Option, Some, false, min, slice_get, true};
ghost use Rattle.std.specs.BTreeMap.{IsUnchanged};
ghost use Rattle.bosh_types.specs.declared.inward.Inward.{Inward};
ghost use Rattle.parked_gate.specs.Passes.{IsPassOf, Known, Looks, known};
ghost use Rattle.session_journal.specs.declared.asking.Answer.TheVariants as answers;
ghost use Rattle.session_journal.specs.declared.asking.Question.TheVariants as questions;
ghost use Rattle.session_journal.specs.declared.entry.Entry.{Entry};
ghost use Rattle.session_journal.specs.Seen.{Answers};
ghost use Rattle.session_pump.specs.Leaving.{HasNothing, IsAtRest, RestsAt};
ghost use Rattle.session_pump.specs.News.{host_by, host_in};
ghost use Rattle.session_table.specs.Purses.{OthersStay, Turned, held};
ghost use Rattle.session_pump.specs.Ends.{ends_of};
ghost use Rattle.session_pump.specs.Hosts.{hosts_of};
ghost use Rattle.session_pump.specs.Sides.{LineFacts, PassesAll, Serves, TellsCut, served, serving, strand, with_side};
ghost use Rattle.session_pump.specs.Pumping.{HasOpened, OnLine, Then, line_of, pumping_of};
ghost use Rattle.session_pump.specs.Turns.{ClosesAt, ClosesWire, ClosesWires, Meets, Removes, RemovesEnded, ServesAlone, ServesMet, ServesOne, TakesAll, TellsOne};

use crate::dues::forget_due;
use crate::hosts::{Hosts, Stand};
use crate::line::{Line, Side, Stage};
use crate::passing::{drop_all, pass_all};
use crate::pump::Pump;
use crate::serving::{serve_line, tell_streams, tick};
use bosh_ports::Bell;
use bosh_types::{Ending, Moment, SharedText, Text};
use parked_gate::Gate;
use server_ports::Clock;
use session_journal::{Answer, Question, State};
use session_table::{Directory, DirectoryCall, LiveSession, Purse};
use std::alloc::AllocError;
use std::collections::BTreeMap;
use std::sync::Wait;
use xmpp_backend::{Backend, Passed};

impl<E: Backend> Pump<E> {
    /// Serves one live session: opens its wires, lets time pass, passes its items on, and removes it where it has ended and none is
    /// left. The only error is want of memory, and then the next turn goes on from there.
    pub(crate) fn serve<R: Wait, C: Clock, B: Bell>(
        &mut self,
        rt: &R,
        directory: &Gate<Directory>,
        clock: &C,
        bell: &mut B,
        session: &LiveSession,
    ) -> Result<(), AllocError>
        requires { IsPassOf directory.now self.old.purse.directory }
        ensures pass { IsPassOf directory.now self.new.purse.directory }
        ensures serves { ServesOne (C.moment clock.now) session.now
            (pumping_of E.told E.counts self.old) (pumping_of E.told E.counts self.new)
            result }
        ensures silences { B.silences bell.new ≡ B.silences bell.old }
    {
        let sid = session.sid.as_slice();
        match self.purse.find(rt, self.alloc, directory, sid) {
            Ok(found) => match found {
                Some(number) => {
                    self.serve_found(rt, directory, clock, bell, number, &session.sid)
                }
                None => Ok(()),
            },
            Err(AllocError) => Err(AllocError),
        }
    }

    /// Serves a session that was found, and is held under this number.
    pub(crate) fn serve_found<R: Wait, C: Clock, B: Bell>(
        &mut self,
        rt: &R,
        directory: &Gate<Directory>,
        clock: &C,
        bell: &mut B,
        number: u64,
        sid: &SharedText,
    ) -> Result<(), AllocError>
        requires pass { IsPassOf directory.now self.old.purse.directory }
        requires held { IsSome (held self.old.purse.sessions number) }
        ensures pass { IsPassOf directory.now self.new.purse.directory }
        ensures serves { Then (Meets number) (ServesMet (C.moment clock.now) number sid.now)
            (pumping_of E.told E.counts self.old) (pumping_of E.told E.counts self.new)
            result }
        ensures silences { B.silences bell.new ≡ B.silences bell.old }
    {
        let is_new = self.lines.get(&number).is_none();
        self.meet(rt, number)?;
        let host = host_of_line(&self.lines, number);
        self.news.meet(is_new, number, sid, host);
        self.serve_met(rt, directory, clock, bell, number, sid)
    }

    // Asks a session that was met what there is to do for it, and leaves it alone where that is nothing. Otherwise it is served, and
    // removed where it has ended.
    fn serve_met<R: Wait, C: Clock, B: Bell>(
        &mut self,
        rt: &R,
        directory: &Gate<Directory>,
        clock: &C,
        bell: &mut B,
        number: u64,
        sid: &SharedText,
    ) -> Result<(), AllocError>
        requires pass { IsPassOf directory.now self.old.purse.directory }
        requires held { IsSome (held self.old.purse.sessions number) }
        ensures pass { IsPassOf directory.now self.new.purse.directory }
        ensures serves { ServesMet (C.moment clock.now) number sid.now
            (pumping_of E.told E.counts self.old) (pumping_of E.told E.counts self.new)
            result }
        ensures silences { B.silences bell.new ≡ B.silences bell.old }
    {
        let state = self.purse.state(rt, number);
        if self.leaves(number, &state, clock.now()) {
            return self.note_answer(number, state.due);
        }
        self.serve_held(rt, clock, bell, number)?;
        self.remove_ended(rt, directory, clock, bell, number, sid)
    }

    // Whether a session that answered so is left alone at this moment.
    fn leaves(&self, number: u64, state: &State, now: Moment) -> bool
        ensures nothing { result ≡ true → HasNothing now state.now }
        ensures rests { result ≡ true → IsAtRest number (pumping_of E.told E.counts self.now) }
    {
        if !has_nothing(state, now) {
            return false;
        }
        self.is_at_rest(number)
    }

    // Whether nothing is to be done on the streams of a session, and nothing that was taken of it is kept.
    fn is_at_rest(&self, number: u64) -> bool
        ensures { result ≡ true → IsAtRest number (pumping_of E.told E.counts self.now) }
    {
        let Some(line) = self.lines.get(&number) else {
            return false;
        };
        if line.kept.is_some() {
            return false;
        }
        are_at_rest(line, &self.hosts)
    }

    // Makes the line of a session that wasn't met before.
    fn meet<R: Wait>(&mut self, rt: &R, number: u64) -> Result<(), AllocError>
        requires { IsSome (held self.old.purse.sessions number) }
        ensures held { IsSome (held self.new.purse.sessions number) }
        ensures directory { self.new.purse.directory ≡ self.old.purse.directory }
        ensures meets { Meets number
            (pumping_of E.told E.counts self.old) (pumping_of E.told E.counts self.new)
            result }
    {
        if self.lines.get(&number).is_some() {
            return Ok(());
        }
        let name = name_of_host(rt, &mut self.purse, number)?;
        let Some(opening) = opening_of(number) else {
            return Ok(());
        };
        let host = self.hosts.place_of(name.as_slice());
        let line = Line::new(self.alloc, host, opening)?;
        keep_line(&mut self.lines, number, line)
    }

    // Serves a session that was met.
    fn serve_held<R: Wait, C: Clock, B: Bell>(
        &mut self,
        rt: &R,
        clock: &C,
        bell: &mut B,
        number: u64,
    ) -> Result<(), AllocError>
        requires { IsSome (held self.old.purse.sessions number) }
        ensures held { IsSome (held self.new.purse.sessions number) }
        ensures opened { OnOk result (HasOpened number self.new.lines) }
        ensures directory { self.new.purse.directory ≡ self.old.purse.directory }
        ensures serves { OnLine (Serves (C.moment clock.now)) (ServesAlone (C.moment clock.now)) number
            (pumping_of E.told E.counts self.old) (pumping_of E.told E.counts self.new)
            result }
        ensures silences { B.silences bell.new ≡ B.silences bell.old }
    {
        let Some(line) = self.lines.get_mut(&number) else {
            return serve_alone(rt, &mut self.purse, number, clock, bell);
        };
        let hosts = &mut self.hosts;
        serve_line(rt, &mut self.purse, number, line, hosts, clock, bell)
    }

    // Removes a session that has ended, once what is inward of it was passed on. One that goes on is noted when it is due.
    fn remove_ended<R: Wait, C: Clock, B: Bell>(
        &mut self,
        rt: &R,
        directory: &Gate<Directory>,
        clock: &C,
        bell: &mut B,
        number: u64,
        sid: &SharedText,
    ) -> Result<(), AllocError>
        requires pass { IsPassOf directory.now self.old.purse.directory }
        requires held { IsSome (held self.old.purse.sessions number) }
        requires opened { HasOpened number self.old.lines }
        ensures pass { IsPassOf directory.now self.new.purse.directory }
        ensures removes { RemovesEnded (C.moment clock.now) number sid.now
            (pumping_of E.told E.counts self.old) (pumping_of E.told E.counts self.new)
            result }
        ensures silences { B.silences bell.new ≡ B.silences bell.old }
    {
        let state = self.purse.state(rt, number);
        if state.ending.is_none() {
            return self.note_answer(number, state.due);
        }
        self.pass_rest(rt, clock, bell, number)?;
        self.close_wires(number)?;
        self.remove(rt, directory, number, sid, state.ending)
    }

    // Passes on what came before a session ended.
    fn pass_rest<R: Wait, C: Clock, B: Bell>(
        &mut self,
        rt: &R,
        clock: &C,
        bell: &mut B,
        number: u64,
    ) -> Result<(), AllocError>
        requires held { IsSome (held self.old.purse.sessions number) }
        requires opened { HasOpened number self.old.lines }
        ensures held { IsSome (held self.new.purse.sessions number) }
        ensures directory { self.new.purse.directory ≡ self.old.purse.directory }
        ensures passes { OnLine (PassesAll (C.moment clock.now)) TakesAll number
            (pumping_of E.told E.counts self.old) (pumping_of E.told E.counts self.new)
            result }
        ensures silences { B.silences bell.new ≡ B.silences bell.old }
    {
        let Some(line) = self.lines.get_mut(&number) else {
            return drop_all(rt, &mut self.purse, number);
        };
        let hosts = &mut self.hosts;
        pass_all(rt, &mut self.purse, number, line, hosts, clock, bell)
    }

    // Closes each wire of a session that is open.
    fn close_wires(&mut self, number: u64) -> Result<(), AllocError>
        requires { IsSome (held self.old.purse.sessions number) }
        ensures purse { self.new.purse ≡ self.old.purse }
        ensures closes { OnLine ClosesWires (λ k m done. (m ≡ k) × (done ≡ Ok tt)) number
            (pumping_of E.told E.counts self.old) (pumping_of E.told E.counts self.new)
            result }
    {
        let Some(line) = self.lines.get_mut(&number) else {
            return Ok(());
        };
        close_line(line, &mut self.hosts)
    }

    // Removes a session that has ended so from the directory, lets go what is kept of it, and keeps that as news where it is wanted.
    fn remove<R: Wait>(
        &mut self,
        rt: &R,
        directory: &Gate<Directory>,
        number: u64,
        sid: &SharedText,
        ending: Option<Ending>,
    ) -> Result<(), AllocError>
        requires { IsPassOf directory.now self.old.purse.directory }
        ensures pass { IsPassOf directory.now self.new.purse.directory }
        ensures removes { Removes number sid.now
            (pumping_of E.told E.counts self.old) (pumping_of E.told E.counts self.new)
            result }
        ensures told { self.old.news.is_wanted ≡ true → OnOk result ((self.new.news.removed.items ≡ self.old.news.removed.items
            ++ (record { number = number; sid = sid.now; ending = ending }) ∷ []) ⊎ (self.new.news.lost ≡ min (self.old.news.lost + 1) (2 ^ 64 - 1))) }
    {
        let removed = sid;
        let sid = Text::from_vec(Vec::from_slice(self.alloc, sid.as_slice())?);
        directory.call(rt, &mut self.purse.directory, DirectoryCall::Remove { sid })?;
        forget_line(&mut self.lines, number);
        forget_due(&mut self.dues, number);
        self.purse.let_go(number);
        self.news.remove(number, removed, ending);
        Ok(())
    }

    /// Tells a session of each of its streams whose back end failed. The only error is want of memory.
    pub(crate) fn tell_of_failure<R: Wait, C: Clock, B: Bell>(
        &mut self,
        rt: &R,
        clock: &C,
        bell: &mut B,
        session: &LiveSession,
    ) -> Result<(), AllocError>
        ensures directory { self.new.purse.directory ≡ self.old.purse.directory }
        ensures tells { TellsOne (C.moment clock.now) session.now
            (pumping_of E.told E.counts self.old) (pumping_of E.told E.counts self.new)
            result }
        ensures silences { B.silences bell.new ≡ B.silences bell.old }
    {
        if self.purse.sessions.get(&session.number).is_none() {
            return Ok(());
        }
        self.tell_held(rt, clock, bell, session.number)
    }

    // Tells a session that is held.
    fn tell_held<R: Wait, C: Clock, B: Bell>(
        &mut self,
        rt: &R,
        clock: &C,
        bell: &mut B,
        number: u64,
    ) -> Result<(), AllocError>
        requires { IsSome (held self.old.purse.sessions number) }
        ensures directory { self.new.purse.directory ≡ self.old.purse.directory }
        ensures tells { OnLine (TellsCut (C.moment clock.now)) (λ k m done. (m ≡ k) × (done ≡ Ok tt)) number
            (pumping_of E.told E.counts self.old) (pumping_of E.told E.counts self.new)
            result }
        ensures silences { B.silences bell.new ≡ B.silences bell.old }
    {
        let Some(line) = self.lines.get_mut(&number) else {
            return Ok(());
        };
        let hosts = &self.hosts;
        tell_streams(rt, &mut self.purse, number, line, hosts, clock, bell)
    }
}

// The place of the host of the stream that the session began with.
fn host_of_line(lines: &BTreeMap<u64, Line>, number: u64) -> Option<usize>
    ensures { result ≡ host_by (line_of lines.now number) }
{
    match lines.get(&number) {
        Some(line) => first_host(line),
        None => None,
    }
}

fn first_host(line: &Line) -> Option<usize>
    ensures { result ≡ host_in (slice_get line.now.sides.items 0) }
{
    match line.sides.get(0) {
        Some(side) => side.host,
        None => None,
    }
}

// Whether nothing is to be done on each stream of a line.
fn are_at_rest<E: Backend>(line: &Line, hosts: &Hosts<E>) -> bool
    ensures { result ≡ true → (place : ℕ) → (side : Side) → slice_get line.now.sides.items place ≡ Some side → RestsAt (hosts_of E.told E.counts hosts.now) side }
{
    for side in &line.sides {
        if !rests(side, hosts) {
            return false;
        }
    }
    true
}

// Whether the wire of a stream is open on the back end that stands behind its host, or is no more, and nothing waits.
fn rests<E: Backend>(side: &Side, hosts: &Hosts<E>) -> bool
    ensures { result ≡ true → RestsAt (hosts_of E.told E.counts hosts.now) side.now }
{
    if side.owed.is_some() {
        return false;
    }
    if side.is_lost() {
        return true;
    }
    let Some(at) = side.host else {
        return false;
    };
    let Some(stand) = hosts.stands.get(at) else {
        return false;
    };
    side.is_open_on(stand.failures)
}

// The opening number, where it has no more than 32 bits.
fn opening_of(number: u64) -> Option<u32>
    ensures small { IfSome result (λ opening. opening ≡ number) }
    ensures large { IfNone result (2 ^ 32 ≤ number) }
{
    if number <= u64::from(u32::MAX) {
        return Some(number as u32);
    }
    None
}

// Keeps the line of a session. The only error is want of memory, and then the lines are as before.
fn keep_line(lines: &mut BTreeMap<u64, Line>, number: u64, line: Line) -> Result<(), AllocError>
    ensures kept { OnOk result (line_of lines.new number ≡ Some line) }
    ensures others { OnOk result ((other : ℕ) → other ≢ number → line_of lines.new other ≡ line_of lines.old other) }
    ensures err { OnErr result (IsUnchanged lines.old lines.new) }
{
    lines.insert(number, line)?;
    Ok(())
}

// Lets the line of a session go.
fn forget_line(lines: &mut BTreeMap<u64, Line>, number: u64)
    ensures gone { line_of lines.new number ≡ None }
    ensures others { (other : ℕ) → other ≢ number → line_of lines.new other ≡ line_of lines.old other }
{
    lines.remove(&number);
}

// Closes the wire of each stream of a line, where it is open.
fn close_line<E: Backend>(line: &mut Line, hosts: &mut Hosts<E>) -> Result<(), AllocError>
    ensures closes { (known : Known Entry) → ClosesWires
        (served known line.old (hosts_of E.told E.counts hosts.old))
        (served known line.new (hosts_of E.told E.counts hosts.new))
        result }
{
    for place in 0..line.sides.len() {
        let Some(side) = line.sides.get_mut(place) else {
            unreachable!();
        };
        close_side(side, hosts)?;
    }
    Ok(())
}

// Closes the wire of a stream, where it is open.
fn close_side<E: Backend>(side: &mut Side, hosts: &mut Hosts<E>) -> Result<(), AllocError>
    ensures closes { (line : LineFacts) → (place : ℕ) → (known : Known Entry) → slice_get line.sides place ≡ Some side.old → ClosesAt place
        (serving known line (hosts_of E.told E.counts hosts.old))
        (serving known (with_side place side.new line) (hosts_of E.told E.counts hosts.new))
        result }
{
    let Some(at) = side.host else {
        return Ok(());
    };
    let Some(stand) = hosts.stands.get_mut(at) else {
        return Ok(());
    };
    if !side.is_open_on(stand.failures) {
        return Ok(());
    }
    close_open(side, stand)
}

// Closes a wire that is open.
fn close_open<E: Backend>(side: &mut Side, stand: &mut Stand<E>) -> Result<(), AllocError>
    requires { side.old.stage ≡ Stage.Opened stand.old.failures }
    ensures closes { (known : Known Entry) → (kept : Option Inward) → ClosesWire
        (strand known kept side.old (ends_of E.told E.counts stand.old))
        (strand known kept side.new (ends_of E.told E.counts stand.new))
        result }
    ensures kept { stand.new.kept ≡ stand.old.kept }
{
    match stand.close(side.wire) {
        Passed::Done => {
            side.stage = Stage::Lost;
            Ok(())
        }
        Passed::Failed => Ok(()),
        Passed::NoMemory => Err(AllocError),
    }
}

// Serves a session that has no line.
fn serve_alone<R: Wait, C: Clock, B: Bell>(
    rt: &R,
    purse: &mut Purse,
    number: u64,
    clock: &C,
    bell: &mut B,
) -> Result<(), AllocError>
    requires { IsSome (held purse.old.sessions number) }
    ensures serves { Turned number purse.old.sessions purse.new.sessions (λ old new. ServesAlone (C.moment clock.now) old new result) }
    ensures others { OthersStay number purse.old.sessions purse.new.sessions }
    ensures directory { purse.new.directory ≡ purse.old.directory }
    ensures silences { B.silences bell.new ≡ B.silences bell.old }
{
    tick(rt, purse, number, clock, bell)?;
    drop_all(rt, purse, number)
}

// Whether there is nothing to do at this moment for a session that answers so.
fn has_nothing(state: &State, now: Moment) -> bool
    ensures { result ≡ true → HasNothing now state.now }
{
    if state.ending.is_some() {
        return false;
    }
    if state.is_inward {
        return false;
    }
    match state.due {
        Some(due) => now < due,
        None => true,
    }
}

// The name of the host that a session was opened at. The only error is want of memory.
fn name_of_host<R: Wait>(rt: &R, purse: &mut Purse, number: u64) -> Result<SharedText, AllocError>
    requires { IsSome (held purse.old.sessions number) }
    ensures named { IfOk result (λ name. Turned number purse.old.sessions purse.new.sessions (Looks (λ log. Answers log questions.Home (Ok (answers.Home name))))) }
    ensures asked { Turned number purse.old.sessions purse.new.sessions (Looks (λ log. Unit {0})) }
    ensures others { OthersStay number purse.old.sessions purse.new.sessions }
    ensures directory { purse.new.directory ≡ purse.old.directory }
{
    match purse.look(rt, number, &Question::Home) {
        Ok(answer) => Ok(home_in(answer)),
        Err(AllocError) => Err(AllocError),
    }
}

fn home_in(answer: Answer) -> SharedText
    requires { (name : List ℕ) × (answer ≡ answers.Home name) }
    ensures { answer ≡ answers.Home result }
{
    match answer {
        Answer::Home(name) => name,
        Answer::Load { .. } => unreachable!(),
        Answer::State(_) => unreachable!(),
    }
}
