// Tests over the public calls of the crates that stand on `bosh_types` alone: ids, windows, kept answers, reports, keys and deadlines.
#![tactic(auto)]

#[cfg(test)]
mod deadlines;
#[cfg(test)]
mod due_moments;
#[cfg(test)]
mod keeps;
#[cfg(test)]
mod keys;
#[cfg(test)]
mod reports;
#[cfg(test)]
mod striking;
#[cfg(test)]
mod types;
#[cfg(test)]
mod windows;
