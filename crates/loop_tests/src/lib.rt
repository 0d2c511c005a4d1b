// Tests over the public calls of `connection_loops`, with seats that do nothing but count.
#![tactic(auto)]

#[cfg(test)]
mod loops;
#[cfg(test)]
mod seats;
