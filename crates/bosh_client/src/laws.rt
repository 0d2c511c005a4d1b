ghost use Rattle.std.specs.Prelude.{◌≡◌, ◌↔◌, Err, ℕ, ◌≤◌, ◌++◌, All, List, Ok, Some, false, length, true};
ghost use Rattle.body_writer.specs.declared.answer.AnswerParts.{AnswerParts};
ghost use Rattle.body_writer.specs.Answer.{answer_text};
ghost use Rattle.body_writer.specs.ReadBack.{IsAnswer};
ghost use Rattle.bosh_client.specs.ReadBack.{IsInForm, told_of};
ghost use Rattle.bosh_client.specs.declared.setup.ClientSetup.{ClientSetup};
ghost use Rattle.bosh_client.specs.declared.replies.Why.{Why};
ghost use Rattle.bosh_client.specs.declared.told.Told.{Told};
ghost use Rattle.bosh_client.specs.AnswerMeaning.{MeansAnswer, broken_values};
ghost use Rattle.bosh_client.specs.AnswerReading.{answer_of, answer_with};
ghost use Rattle.bosh_client.specs.AnswerValues.{AnswerValues};
ghost use Rattle.bosh_client.specs.Machine.{copy, new_client};
ghost use Rattle.bosh_client.specs.PlainClient.{Made, PlainClient, bytes_of, deliverable, items_made, queued, request_at, was_handed, was_made, was_put};
ghost use Rattle.bosh_client.specs.Promises.{Acknowledges, Begins, Carries, HasFewOpen, HasForm, IsNamed, is_queued, payloads_in};
ghost use Rattle.bosh_client.specs.Runs.{Call, IsAllowed, after, client_after, replies};
ghost use Rattle.bosh_client.specs.Setup.{is_setup};
ghost use Rattle.bosh_client.specs.StandsFor.{AreFrom};

/// What the requests of a client took, and then what is queued, is all that was accepted, in order: nothing is lost,
/// doubled or moved. So it is with its stanzas and restarts. The requests have ids one after the other.
pub fn what_is_put_is_made_once()
    ensures all { (setup : ClientSetup) (calls : List Call) → 1 ≤ setup.first →
        items_made (client_after setup calls) ++ queued (client_after setup calls) ≡ (client_after setup calls).accepted }
    ensures put { (setup : ClientSetup) (calls : List Call) → 1 ≤ setup.first →
        was_made (client_after setup calls) ++ is_queued (client_after setup calls) ≡ was_put (client_after setup calls) }
    ensures ids { (setup : ClientSetup) (calls : List Call) → 1 ≤ setup.first → AreFrom (client_after setup calls).setup.first (client_after setup calls).requests }
{}

/// A request stays what it is, whatever calls come, and its copy is its bytes whenever it is asked for.
pub fn a_body_is_fixed()
    ensures request { (c : PlainClient) (calls : List Call) (rid : ℕ) (request : Made) → request_at c rid ≡ Some request → request_at (after c calls) rid ≡ Some request }
    ensures copies { (c : PlainClient) (calls : List Call) (rid : ℕ) (request : Made) (body : List ℕ) → request_at c rid ≡ Some request
        → copy (after c calls) rid ≡ Some body → body ≡ bytes_of request }
{}

/// What was handed out, by the replies, is the first so many payloads of the answers in the order of ids, and these only
/// grow by more payloads after them.
pub fn payloads_are_handed_out_in_order()
    ensures handed { (setup : ClientSetup) (calls : List Call) → 1 ≤ setup.first → payloads_in (replies (new_client setup) calls) ≡ was_handed (client_after setup calls) }
    ensures within { (setup : ClientSetup) (calls : List Call) → 1 ≤ setup.first → (client_after setup calls).handed_out ≤ length (deliverable (client_after setup calls)) }
    ensures grows { (c : PlainClient) (calls : List Call) → Begins (deliverable c) (deliverable (after c calls)) }
{}

/// A request acknowledges an id below its own up to which all answers were taken.
pub fn acknowledgements_are_of_taken_answers()
    ensures { (setup : ClientSetup) (calls : List Call) → 1 ≤ setup.first → All (Acknowledges (client_after setup calls)) (client_after setup calls).requests }
{}

/// The id of the next request is at most one above the lowest without an answer before the creation's answer is taken, and
/// then at most one more above it than the manager allows requests.
pub fn few_requests_are_open()
    ensures { (setup : ClientSetup) (calls : List Call) → 1 ≤ setup.first → HasFewOpen (client_after setup calls) }
{}

/// Each request that was made has the form whose text reads back, where the session's name is a text of at most 1024
/// bytes.
pub fn requests_have_the_form_that_reads_back()
    ensures { (setup : ClientSetup) (calls : List Call) → is_setup setup ≡ true → 1 ≤ setup.first → All IsAllowed calls → IsNamed (client_after setup calls) →
        All (λ request. HasForm setup request.parts) (client_after setup calls).requests }
{}

/// A request carries just what it took of the queue: stanzas alone, for the same stream, or one item of another kind.
pub fn requests_carry_what_they_took()
    ensures { (setup : ClientSetup) (calls : List Call) → All Carries (client_after setup calls).requests }
{}

/// What an answer tells is what its body is read as.
pub fn answers_tell_their_bodies()
    ensures { (setup : ClientSetup) (calls : List Call) → 1 ≤ setup.first → All (λ answer. answer_of answer.1.body ≡ Ok answer.1.tells) (client_after setup calls).answers }
{}

/// No error is taken as the answer to a request.
pub fn no_error_is_taken()
    ensures { (setup : ClientSetup) (calls : List Call) → 1 ≤ setup.first → All (λ answer. answer.1.tells.error ≡ false) (client_after setup calls).answers }
{}

/// Reading an answer gives exactly what its attributes and payloads mean, which is one thing at most, and otherwise the
/// first reason for which they mean nothing.
pub fn reading_gives_what_an_answer_means()
    ensures one { (v : AnswerValues) (payloads : List (List ℕ)) (t u : Told) → MeansAnswer v payloads t → MeansAnswer v payloads u → t ≡ u }
    ensures read { (v : AnswerValues) (payloads : List (List ℕ)) (t : Told) → (answer_with v payloads ≡ Ok t) ↔ MeansAnswer v payloads t }
    ensures broken { (v : AnswerValues) (payloads : List (List ℕ)) (why : Why) → (answer_with v payloads ≡ Err why) ↔ (broken_values v ≡ Some why) }
{}

/// The text of an answer tells a client the parts that it was written from.
pub fn written_answers_read_back()
    ensures { (parts : AnswerParts) → IsAnswer parts → IsInForm parts → answer_of (answer_text parts) ≡ Ok (told_of parts) }
{}
