ghost use Rattle.std.specs.Prelude.{◌≡◌, ◌↔◌, All, ℕ, List, true};
ghost use Rattle.bosh_client.specs.declared.setup.ClientSetup.{ClientSetup};
ghost use Rattle.world_laws.specs.declared.event.WorldEvent.{WorldEvent};
ghost use Rattle.world_laws.specs.Complete.{EndsFaultless, IsComplete, NamesNone};
ghost use Rattle.world_laws.specs.Promises.{IsUnbroken, KeepsBothPrefixes, ShowsAll, all_seen};
ghost use Rattle.world_laws.specs.Setup.{IsAllowed, IsWorldSetup};
ghost use Rattle.world_laws.specs.Sound.{IsSound};
ghost use Rattle.world_laws.specs.Steps.{after, report};
ghost use Rattle.world_laws.specs.Timely.{IsTimely, is_timely};
ghost use Rattle.world_laws.specs.World.{PlainWorld, new_world};

use body_cutter::texts_are_cut_by_the_grammar;
use bosh_client::{
    answers_tell_their_bodies, payloads_are_handed_out_in_order, requests_carry_what_they_took,
    requests_have_the_form_that_reads_back, what_is_put_is_made_once, written_answers_read_back,
};
use session_core::written_requests_read_back;
use session_laws::{calls_make_longer_journals, every_journal_keeps_the_laws};

/// After any events, in whatever order the network brings what was ever sent, and however often or never: on each stream of the
/// session, what went inward at the manager is a beginning of what the client made for it, and what the client handed out is a
/// beginning of what the server gave on it. For the world is sound then: whatever arrived is the body of its id, and whatever may come
/// back is an answer to its. All of it was seen: what is seen to be passed on is what went inward, and what is seen to be handed out
/// was handed out. And no answer that may come back is broken: the client takes each for an answer, whether or not it had one before.
pub fn every_world_keeps_both_prefixes()
    ensures sound { (host : List ℕ) (greeting : List (List ℕ)) (setup : ClientSetup) (events : List WorldEvent)
        → IsWorldSetup host greeting setup → All IsAllowed events → IsSound setup (after (new_world host greeting setup) events) }
    ensures prefixes { (host : List ℕ) (greeting : List (List ℕ)) (setup : ClientSetup) (events : List WorldEvent)
        → IsWorldSetup host greeting setup → All IsAllowed events → KeepsBothPrefixes (after (new_world host greeting setup) events) }
    ensures shown { (host : List ℕ) (greeting : List (List ℕ)) (setup : ClientSetup) (events : List WorldEvent)
        → IsWorldSetup host greeting setup → All IsAllowed events
        → ShowsAll (after (new_world host greeting setup) events) (all_seen (report (new_world host greeting setup) events)) }
    ensures unbroken { (host : List ℕ) (greeting : List (List ℕ)) (setup : ClientSetup) (events : List WorldEvent)
        → IsWorldSetup host greeting setup → All IsAllowed events
        → All (IsUnbroken (after (new_world host greeting setup) events).client) (after (new_world host greeting setup) events).written }
{
    every_journal_keeps_the_laws();
    calls_make_longer_journals();
    texts_are_cut_by_the_grammar();
    written_requests_read_back();
    written_answers_read_back();
    what_is_put_is_made_once();
    requests_have_the_form_that_reads_back();
    requests_carry_what_they_took();
    answers_tell_their_bodies();
    payloads_are_handed_out_in_order();
}

/// Where no copy of a request comes after the client took its answer, nothing goes wrong by itself between the two ends,
/// whatever else the network loses, repeats and reorders: no request is stale, beyond the window, of a wrong key, a pause too long or
/// sent too soon, and none is refused; one is for an unknown stream only where an answer had taken the server's closing of that stream;
/// and the client takes each answer for one. So the session goes on until the client ends it, goes on to name a stream that the server
/// closed, or is silent for too long, the server closes the last stream, or the journal is full. A client that names no stream comes to
/// no ending by a request of its own but a terminate. Whether events are timely is a test.
pub fn timely_worlds_are_complete()
    ensures complete { (host : List ℕ) (greeting : List (List ℕ)) (setup : ClientSetup) (events : List WorldEvent)
        → IsWorldSetup host greeting setup → All IsAllowed events → IsTimely (new_world host greeting setup) events
        → IsComplete (after (new_world host greeting setup) events) }
    ensures unnamed { (host : List ℕ) (greeting : List (List ℕ)) (setup : ClientSetup) (events : List WorldEvent)
        → IsWorldSetup host greeting setup → All IsAllowed events → IsTimely (new_world host greeting setup) events → All NamesNone events
        → EndsFaultless (after (new_world host greeting setup) events).manager }
    ensures test { (w : PlainWorld) (events : List WorldEvent) → (is_timely w events ≡ true) ↔ IsTimely w events }
{
    every_journal_keeps_the_laws();
    calls_make_longer_journals();
    texts_are_cut_by_the_grammar();
    written_requests_read_back();
    written_answers_read_back();
    what_is_put_is_made_once();
    requests_have_the_form_that_reads_back();
    requests_carry_what_they_took();
    answers_tell_their_bodies();
    payloads_are_handed_out_in_order();
}
