// Tests of a back end over TCP whose server is a thread of the test, over loopback.
#![tactic(auto)]

#[cfg(test)]
mod over_loopback;
