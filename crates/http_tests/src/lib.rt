// Tests over the public calls of `bosh_http`, of what a fault leaves. `http_rows` has the tables of texts.
#![tactic(auto)]

#[cfg(test)]
mod faults;
