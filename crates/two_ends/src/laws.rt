// What is seen of an event counts what it does.
ghost use Rattle.std.specs.Prelude.{◌≤◌, IsTrue, length};
ghost use Rattle.bosh_client.specs.PlainClient.{deliverable};
ghost use Rattle.two_ends.specs.Counting.{Grows, IsMadeEnd, IsPassedOn};
ghost use Rattle.two_ends.specs.Serves.{serves};
ghost use Rattle.two_ends.specs.Summed.{given_by, put_by};
ghost use Rattle.world_laws.specs.declared.event.WorldEvent.{WorldEvent};
ghost use Rattle.world_laws.specs.Setup.{IsAllowed};
ghost use Rattle.world_laws.specs.Steps.{step};
ghost use Rattle.world_laws.specs.World.{PlainWorld};

use body_cutter::texts_are_cut_by_the_grammar;
use bosh_client::{
    answers_tell_their_bodies, payloads_are_handed_out_in_order, requests_carry_what_they_took,
    requests_have_the_form_that_reads_back, what_is_put_is_made_once, written_answers_read_back,
};
use session_core::written_requests_read_back;
use session_laws::{calls_make_longer_journals, every_journal_keeps_the_laws};

// The sums after an event are those before it and what is seen of it.
pub(crate) fn events_are_counted()
    ensures { (w : PlainWorld) (event : WorldEvent) → IsTrue (serves w.host w.greeting) → IsMadeEnd w.manager → IsPassedOn w.manager
        → w.client.handed_out ≤ length (deliverable w.client) → IsAllowed event → Grows w.client w.manager w.greeting (put_by event) (given_by event) (step w event) }
{
    every_journal_keeps_the_laws();
    calls_make_longer_journals();
    texts_are_cut_by_the_grammar();
    written_requests_read_back();
    written_answers_read_back();
    what_is_put_is_made_once();
    requests_have_the_form_that_reads_back();
    requests_carry_what_they_took();
    answers_tell_their_bodies();
    payloads_are_handed_out_in_order();
}
