// Reading a source line by line.
#![tactic(auto)]

mod lines;

pub use lines::{LineReader, NextLine, ReadError};
