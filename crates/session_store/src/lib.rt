// The sessions of a file of journals: how they come back from it, and how what they enter from then on is stored. A crash at any
// moment leaves a beginning of each journal, with every entry that was said to be stored.
#![tactic(auto)]

mod laws;
mod opening;
mod replay;
mod store;

pub use laws::{a_file_of_journals_is_not_damaged, journals_that_grow_are_journals};
pub use opening::{Opened, open};
pub use store::Store;
