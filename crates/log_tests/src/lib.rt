// Tests of the log that a server writes, over notes, counts and a sink in memory, and of the names that a server's name stands before.
#![tactic(auto)]

#[cfg(test)]
mod lines;
#[cfg(test)]
mod names;
#[cfg(test)]
mod pacing;
#[cfg(test)]
mod scene;
#[cfg(test)]
mod values;
#[cfg(test)]
mod watching;
