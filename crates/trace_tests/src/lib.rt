// Tests of the traces that a server writes: what was seen in memory, and what the audit says of the trace.
#![tactic(auto)]

#[cfg(test)]
mod changing;
#[cfg(test)]
mod ending;
#[cfg(test)]
mod ordering;
#[cfg(test)]
mod pages;
#[cfg(test)]
mod scene;
#[cfg(test)]
mod wrapping;
