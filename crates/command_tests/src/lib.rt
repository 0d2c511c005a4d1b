// Tests over the public calls of `bosh_commands`: scripts, traces, serving, a client, over streams and networks in memory and over loopback.
#![tactic(auto)]

#[cfg(test)]
mod asking;
#[cfg(test)]
mod ending;
#[cfg(test)]
mod keeping;
#[cfg(test)]
mod limits;
#[cfg(test)]
mod loopback;
#[cfg(test)]
mod noting;
#[cfg(test)]
mod refusing;
#[cfg(test)]
mod room;
#[cfg(test)]
mod scripts;
#[cfg(test)]
mod serving;
#[cfg(test)]
mod traces;
