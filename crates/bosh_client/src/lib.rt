// A client of a session: it sends one fixed body for each request id, takes each answer once, and hands the payloads out in
// the order of ids. It stands apart from every connection, clock and thread, and knows nothing of the manager but what
// its answers say (XEP-0124, XEP-0206).
#![tactic(auto)]

mod agreed;
mod answering;
mod client;
mod exchanges;
mod inbox;
mod keys;
mod laws;
mod outgoing;
mod payloads;
mod queue;
mod queueing;
mod reading;
mod replies;
mod requesting;
mod said;
mod setup;
mod told;

pub use agreed::Agreed;
pub use client::Client;
pub use inbox::Inbox;
pub use laws::{
    a_body_is_fixed, acknowledgements_are_of_taken_answers, answers_tell_their_bodies,
    few_requests_are_open, no_error_is_taken, payloads_are_handed_out_in_order,
    reading_gives_what_an_answer_means, requests_carry_what_they_took,
    requests_have_the_form_that_reads_back, what_is_put_is_made_once, written_answers_read_back,
};
pub use outgoing::Outgoing;
pub use replies::{Answered, ClientEnd, Next, Queued, Why};
pub use setup::ClientSetup;
pub use told::{Naming, Told};
