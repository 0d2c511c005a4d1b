// Tests over the public calls of the directory of sessions and of the pump.
#![tactic(auto)]

#[cfg(test)]
mod directories;
#[cfg(test)]
mod turns;
