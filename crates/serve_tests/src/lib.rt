// Tests over the public calls that serve connections, and the server over them.
#![tactic(auto)]

#[cfg(test)]
mod connections;
#[cfg(test)]
mod servers;
