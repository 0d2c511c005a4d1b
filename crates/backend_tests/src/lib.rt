// Tests over the public calls of `stream_backend`.
#![tactic(auto)]

#[cfg(test)]
mod streams;
