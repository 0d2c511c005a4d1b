// The line that tells of a load.
ghost use Rattle.std.specs.Prelude.{◌≡◌, ◌++◌, IfOk, OnOk};
ghost use Rattle.pair_text.specs.Load.{line_of, over_text};

use crate::report::push_count;
use bosh_types::Ending;
use script_text::push_ending;
use std::alloc::{AllocError, Global};
use two_ends::Sums;

/// What the line of a load tells.
#[derive(Clone, Copy, Debug, PartialEq, Eq)]
pub struct LoadLine {
    pub number: u64,
    /// How many requests the client made, and how many copies came to the manager.
    pub requests: u64,
    pub copies: u64,
    pub sums: Sums,
    pub ending: Option<Ending>,
}

/// The bytes of the line of a load, with its LF.
#[tactic(auto, unfolding(crate::specs::Load::line_of))]
pub fn print_load_line(alloc: Global, line: &LoadLine) -> Result<Vec<u8>, AllocError>
    ensures { IfOk result (λ text. text.items ≡ line_of line.now) }
{
    let mut text = Vec::new(alloc);
    push_count(alloc, &mut text, "load ", line.number)?;
    push_count(alloc, &mut text, " requests ", line.requests)?;
    push_count(alloc, &mut text, " copies ", line.copies)?;
    push_count(alloc, &mut text, " put ", line.sums.put)?;
    push_count(alloc, &mut text, " in ", line.sums.inward)?;
    push_count(alloc, &mut text, " given ", line.sums.given)?;
    push_count(alloc, &mut text, " got ", line.sums.got)?;
    text.extend_from_slice(b" over ")?;
    push_over(alloc, &mut text, line.ending)?;
    text.push(b'\n')?;
    Ok(text)
}

fn push_over(alloc: Global, text: &mut Vec<u8>, ending: Option<Ending>) -> Result<(), AllocError>
    ensures { OnOk result (text.new.items ≡ text.old.items ++ over_text ending) }
{
    match ending {
        Some(ending) => push_ending(alloc, text, ending),
        None => Ok(text.extend_from_slice(b"none")?),
    }
}
