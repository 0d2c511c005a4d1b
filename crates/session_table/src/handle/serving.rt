// The calls of a session through its handle: those of its gate, with the handle's pass.
ghost use Rattle.std.specs.Prelude.{◌≡◌, ◌+◌, ◌≤◌, length};
ghost use Rattle.bosh_ports.specs.Faults.{HasRisen};
ghost use Rattle.parked_gate.specs.Passes.{Calls, Looks, known};
ghost use Rattle.parked_gate.specs.Waits.{OnSilent};
ghost use Rattle.session_core.specs.Journal.{IsAllowed};
ghost use Rattle.session_journal.specs.Calls.{call_in};
ghost use Rattle.session_journal.specs.declared.asking.Answer.TheVariants as answers;
ghost use Rattle.session_journal.specs.declared.asking.State.{State};
ghost use Rattle.session_journal.specs.Seen.{Answers, IsStateAfter, RepliesTo};
ghost use Rattle.session_table.specs.Handles.{IsOfSame};
ghost use Rattle.session_table.specs.Serving.{PollsAs, WaitsAs};

use super::SessionHandle;
use bosh_ports::Bell;
use bosh_types::Ticket;
use parked_gate::Waited;
use session_journal::{Answer, Call, Entered, Found, Question, Reply, State, Stepped};
use std::alloc::AllocError;
use std::sync::Wait;

impl SessionHandle {
    /// Makes a call of the session, when the pass's turn has come. The only error is want of memory.
    pub fn call<R: Wait>(&mut self, rt: &R, call: Call) -> Result<Reply, AllocError>
        requires { IsAllowed (call_in call) }
        ensures same { IsOfSame self.old self.new }
        ensures number { (known self.new.pass).number ≡ (known self.old.pass).number }
        ensures called { Calls (λ e. e.caller) (λ before made. RepliesTo before call result made) (known self.old.pass) (known self.new.pass) }
        ensures learns_once { length (known self.new.pass).learnt ≡ length (known self.old.pass).learnt + 1 }
    {
        let Stepped { reply, made } = self.gate.call(rt, &mut self.pass, call)?;
        if let Some(entered) = made {
            self.note(rt, entered);
        }
        Ok(reply)
    }

    /// Asks the session a question, when the pass's turn has come. The only error is want of memory.
    pub fn look<R: Wait>(&mut self, rt: &R, question: &Question) -> Result<Answer, AllocError>
        ensures same { IsOfSame self.old self.new }
        ensures number { (known self.new.pass).number ≡ (known self.old.pass).number }
        ensures looked { Looks (λ seen. Answers seen question.now result) (known self.old.pass) (known self.new.pass) }
        ensures learns_once { length (known self.new.pass).learnt ≡ length (known self.old.pass).learnt + 1 }
    {
        self.gate.look(rt, &mut self.pass, question)
    }

    /// What there is to do for the session, and whether it has ended, when the pass's turn has come. It takes no memory.
    pub fn state<R: Wait>(&mut self, rt: &R) -> State
        ensures same { IsOfSame self.old self.new }
        ensures number { (known self.new.pass).number ≡ (known self.old.pass).number }
        ensures looked { Looks (λ seen. IsStateAfter seen result) (known self.old.pass) (known self.new.pass) }
        ensures learns_once { length (known self.new.pass).learnt ≡ length (known self.old.pass).learnt + 1 }
    {
        match self.look(rt, &Question::State) {
            Ok(answer) => state_in(&answer),
            Err(AllocError) => unreachable!(),
        }
    }

    /// What there is for a ticket, when the pass's turn has come: none where its request waits on. It takes no memory.
    pub fn poll<R: Wait>(&mut self, rt: &R, ticket: Ticket) -> Option<Found>
        ensures same { IsOfSame self.old self.new }
        ensures number { (known self.new.pass).number ≡ (known self.old.pass).number }
        ensures polled { PollsAs ticket result (known self.old.pass) (known self.new.pass) }
        ensures learns_once { length (known self.new.pass).learnt ≡ length (known self.old.pass).learnt + 1 }
    {
        let found = self.gate.poll(rt, &mut self.pass, ticket);
        if let Some(found) = &found {
            self.note_found(rt, ticket, found);
        }
        found
    }

    /// Waits at the bell until there is something for the ticket, or the bell is silent. It takes no memory.
    pub fn wait_for<R: Wait, B: Bell>(
        &mut self,
        rt: &R,
        ticket: Ticket,
        bell: &mut B,
    ) -> Waited<Found>
        ensures same { IsOfSame self.old self.new }
        ensures number { (known self.new.pass).number ≡ (known self.old.pass).number }
        ensures waited { WaitsAs ticket result (known self.old.pass) (known self.new.pass) }
        ensures silent_only_at_bell { OnSilent result (HasRisen (B.silences bell.old) (B.silences bell.new)) }
        ensures bell { B.silences bell.old ≤ B.silences bell.new }
    {
        let waited = self.gate.wait_for(rt, &mut self.pass, ticket, bell);
        if let Waited::Found(found) = &waited {
            self.note_found(rt, ticket, found);
        }
        waited
    }

    // What uses a ticket up is an entry.
    fn note_found<R: Wait>(&self, rt: &R, ticket: Ticket, found: &Found) {
        match found {
            Found::Answer(_) | Found::Superseded => self.note(rt, Entered::Collect { ticket }),
            Found::UnknownTicket => {}
        }
    }
}

// What there is to do for a session, by its answer.
fn state_in(answer: &Answer) -> State
    requires { (state : State) × (answer.now ≡ answers.State state) }
    ensures { answer.now ≡ answers.State result }
{
    match answer {
        Answer::State(state) => *state,
        Answer::Load { .. } => unreachable!(),
        Answer::Home(_) => unreachable!(),
    }
}
