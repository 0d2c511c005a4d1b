// Tests of connections that never wait, and of what ends a server with its input, over loopback.
#![tactic(auto)]

#[cfg(test)]
mod asking;
#[cfg(test)]
mod links;
#[cfg(test)]
mod stopping;
