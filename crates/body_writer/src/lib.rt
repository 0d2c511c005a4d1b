// The texts of bodies, to the byte: what the manager answers and what a client asks (XEP-0124 and XEP-0206).
#![tactic(auto)]

mod answer;
mod attribute;
mod laws;
mod refusal;
mod request;

pub use answer::{AnswerKind, AnswerParts, Created, write_answer};
pub use laws::{answers_read_back, refusals_are_answers, requests_read_back};
pub use refusal::write_refusal;
pub use request::{RequestParts, write_request};
