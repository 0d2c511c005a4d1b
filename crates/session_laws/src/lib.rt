// The laws of a session: what every journal that calls make keeps.
#![tactic(auto)]

mod laws;

pub use laws::{calls_make_longer_journals, every_journal_keeps_the_laws, there_is_one_run};
