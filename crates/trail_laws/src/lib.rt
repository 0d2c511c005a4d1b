// Laws of the lines that one connection adds to a trail.
#![tactic(auto)]

mod laws;

pub use laws::{each_name_was_drawn, each_trail_tells_the_directory, places_rise};
