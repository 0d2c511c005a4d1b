// Tests over the public calls of `serve_loop` that step a connection over a link that never waits.
#![tactic(auto)]

#[cfg(test)]
mod stepping;
