// What a back end gave goes to its session.
ghost use Rattle.std.specs.Prelude.{◌≡◌, ◌≢◌, ◌||◌, ℕ, IsSome, IsTrue, List, None, Ok, Option, false, is_some, length, true};
ghost use Rattle.bosh_types.specs.declared.ending.Ending.{Ending};
ghost use Rattle.body_cutter.specs.Cutting.{is_stanza};
ghost use Rattle.parked_gate.specs.Passes.{Looks};
ghost use Rattle.session_core.specs.declared.replies.Taken.{Taken};
ghost use Rattle.session_core.specs.declared.replies.Taken.TheVariants as takings;
ghost use Rattle.session_core.specs.declared.replies.Waiting.{Waiting};
ghost use Rattle.session_journal.specs.declared.asking.Answer.TheVariants as answers;
ghost use Rattle.session_journal.specs.declared.call.Reply.TheVariants as replies;
ghost use Rattle.session_table.specs.Purses.{OthersStay, Turned, held};
ghost use Rattle.xmpp_backend.specs.declared.backend.Given.TheVariants as given;
ghost use Rattle.session_pump.specs.Taking.{Gives, IsAsked, IsReady, LacksRoom, has_room};

use crate::line::Owing;
use crate::serving::close_stream;
use bosh_ports::{Bell, BellKey};
use bosh_types::limits::{MOST_WAITING, WAITING_BYTES};
use bosh_types::{SharedText, StreamNo};
use server_ports::Clock;
use session_core::{Taken, Waiting};
use session_journal::{Answer, Call, Question, Reply};
use session_table::Purse;
use std::alloc::AllocError;
use std::sync::Wait;
use xmpp_backend::Given;

/// What became of something that a back end gave.
#[derive(Clone, Copy, Debug, PartialEq, Eq)]
pub(crate) enum Giving {
    /// Its session took it, or has ended.
    Done,
    /// Its session has no room for it.
    Full,
}

/// Gives a session what is for it. The only error is want of memory.
pub(crate) fn give<R: Wait, C: Clock, B: Bell>(
    rt: &R,
    purse: &mut Purse,
    number: u64,
    owing: &Owing,
    clock: &C,
    bell: &mut B,
) -> Result<Giving, AllocError>
    requires { IsSome (held purse.old.sessions number) }
    ensures gives { Turned number purse.old.sessions purse.new.sessions (Gives (C.moment clock.now) owing.now.stream owing.now.given result) }
    ensures others { OthersStay number purse.old.sessions purse.new.sessions }
    ensures directory { purse.new.directory ≡ purse.old.directory }
    ensures silences { B.silences bell.new ≡ B.silences bell.old }
{
    let stream = owing.stream;
    match &owing.given {
        Given::Stanza(stanza) => give_stanza(rt, purse, number, stream, clock, bell, stanza),
        Given::Closed(closing) => {
            match close_stream(rt, purse, number, stream, clock, bell, *closing) {
                Ok(()) => Ok(Giving::Done),
                Err(AllocError) => Err(AllocError),
            }
        }
    }
}

// Gives a session a stanza on one of its streams.
fn give_stanza<R: Wait, C: Clock, B: Bell>(
    rt: &R,
    purse: &mut Purse,
    number: u64,
    stream: StreamNo,
    clock: &C,
    bell: &mut B,
    stanza: &SharedText,
) -> Result<Giving, AllocError>
    requires held { IsSome (held purse.old.sessions number) }
    requires stanza { IsTrue (is_stanza stanza.now) }
    ensures gives { Turned number purse.old.sessions purse.new.sessions (Gives (C.moment clock.now) stream (given.Stanza stanza.now) result) }
    ensures others { OthersStay number purse.old.sessions purse.new.sessions }
    ensures directory { purse.new.directory ≡ purse.old.directory }
    ensures silences { B.silences bell.new ≡ B.silences bell.old }
{
    let Ok(stanza) = stanza.again() else {
        return Err(AllocError);
    };
    let now = clock.now();
    let call = Call::Back {
        stream,
        stanza,
        now,
    };
    match purse.call(rt, number, call) {
        Ok(reply) => Ok(answered(bell, number, reply)),
        Err(AllocError) => Err(AllocError),
    }
}

// What a session replied to a stanza. Where it took it, or has ended, as it may by this very call, those who wait for it look again.
fn answered<B: Bell>(bell: &mut B, number: u64, reply: Reply) -> Giving
    requires { (taken : Taken) × (reply ≡ replies.Back taken) }
    ensures done { result ≡ Giving.Done → (taken : Taken) × (reply ≡ replies.Back taken) × (taken ≢ takings.Full) }
    ensures full { result ≡ Giving.Full → reply ≡ replies.Back takings.Full }
    ensures silences { B.silences bell.new ≡ B.silences bell.old }
{
    match reply {
        Reply::Back(Taken::Full) => Giving::Full,
        Reply::Back(Taken::Done) => {
            bell.ring(BellKey(number));
            Giving::Done
        }
        Reply::Back(Taken::Over) => {
            bell.ring(BellKey(number));
            Giving::Done
        }
        Reply::Arrive(_) => unreachable!(),
        Reply::BackClosed(_) => unreachable!(),
        Reply::Tick(_) => unreachable!(),
        Reply::TakeInward(_) => unreachable!(),
    }
}

/// Whether a session is to be given what is for it: where it had no room for that before it is asked for room first, so that its
/// journal isn't filled with what it refuses. The only error is want of memory.
pub(crate) fn may_take<R: Wait>(
    rt: &R,
    purse: &mut Purse,
    number: u64,
    owing: &Owing,
) -> Result<bool, AllocError>
    requires { IsSome (held purse.old.sessions number) }
    ensures asked { Turned number purse.old.sessions purse.new.sessions IsAsked }
    ensures full { result ≡ Ok false → Turned number purse.old.sessions purse.new.sessions (Looks (LacksRoom owing.now.given)) }
    ensures refused { result ≡ Ok false → owing.now.was_refused ≡ true }
    ensures ready { result ≡ Ok true → Turned number purse.old.sessions purse.new.sessions (IsReady owing.now) }
    ensures others { OthersStay number purse.old.sessions purse.new.sessions }
    ensures directory { purse.new.directory ≡ purse.old.directory }
{
    if !owing.was_refused {
        return Ok(true);
    }
    let answer = purse.look(rt, number, &Question::Load)?;
    Ok(says_room(&answer, &owing.given))
}

// Whether there is room for what is given by what the session answered, or it has ended.
fn says_room(answer: &Answer, what: &Given) -> bool
    requires { (waiting : Waiting) × (ending : Option Ending) × (answer.now ≡ answers.Load waiting ending) }
    ensures full { result ≡ false → (waiting : Waiting) × (text : List ℕ) × (what.now ≡ given.Stanza text) × (answer.now ≡ answers.Load waiting None) × (has_room waiting (length text) ≡ false) }
    ensures room { result ≡ true → (text : List ℕ) → what.now ≡ given.Stanza text → (waiting : Waiting) × (ending : Option Ending) × (answer.now ≡ answers.Load waiting ending) × ((is_some ending || has_room waiting (length text)) ≡ true) }
{
    match what {
        Given::Stanza(stanza) => has_room_for(answer, stanza.len()),
        Given::Closed(_) => true,
    }
}

// Whether there is room for a stanza of so many bytes.
fn has_room_for(answer: &Answer, bytes: usize) -> bool
    requires { (waiting : Waiting) × (ending : Option Ending) × (answer.now ≡ answers.Load waiting ending) }
    ensures full { result ≡ false → (waiting : Waiting) × (answer.now ≡ answers.Load waiting None) × (has_room waiting bytes ≡ false) }
    ensures room { result ≡ true → (waiting : Waiting) × (ending : Option Ending) × (answer.now ≡ answers.Load waiting ending) × ((is_some ending || has_room waiting bytes) ≡ true) }
{
    match answer {
        Answer::Load { waiting, ending } => {
            if ending.is_some() {
                return true;
            }
            fits(*waiting, bytes)
        }
        Answer::Home(_) => unreachable!(),
        Answer::State(_) => unreachable!(),
    }
}

// Whether one more item of so many bytes may wait beside these.
fn fits(waiting: Waiting, bytes: usize) -> bool
    ensures { result ≡ has_room waiting bytes }
{
    if waiting.items as usize >= MOST_WAITING {
        return false;
    }
    bytes <= WAITING_BYTES && waiting.bytes as usize <= WAITING_BYTES - bytes
}
