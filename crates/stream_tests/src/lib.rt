// Tests over the public calls of `xmpp_stream`.
#![tactic(auto)]

#[cfg(test)]
mod cutting;
#[cfg(test)]
mod texts;
#[cfg(test)]
mod wires;
