// Tests over the public calls of `polled_http`, over links in memory that have nothing at listed calls.
#![tactic(auto)]

#[cfg(test)]
mod pieces;
