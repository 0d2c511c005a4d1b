// Tests over the public calls of a client, and of a running client.
#![tactic(auto)]

#[cfg(test)]
mod clients;
#[cfg(test)]
mod workers;
