// Tests over the public calls of what keeps the sessions of a server in a file.
#![tactic(auto)]

#[cfg(test)]
mod bringing;
#[cfg(test)]
mod disks;
#[cfg(test)]
mod entries;
#[cfg(test)]
mod holding;
#[cfg(test)]
mod writing;
