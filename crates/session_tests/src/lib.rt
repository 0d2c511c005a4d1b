// Tests over the public calls of a session, and of a session beside its journal.
#![tactic(auto)]

#[cfg(test)]
mod calls;
#[cfg(test)]
mod gaps;
#[cfg(test)]
mod journals;
#[cfg(test)]
mod openings;
#[cfg(test)]
mod parts;
#[cfg(test)]
mod redoing;
#[cfg(test)]
mod streams;
