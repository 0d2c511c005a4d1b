// Laws of a pump over any number of its turns.
#![tactic(auto)]

mod laws;

pub use laws::every_row_passes_in_order;
