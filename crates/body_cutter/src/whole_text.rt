ghost use Rattle.std.specs.Prelude.{◌≡◌, ◌≤◌, length, IfOk, IfErr, OnOk};
ghost use Rattle.std.specs.Str.{is_utf8};
ghost use Rattle.body_cutter.specs.Cutting.{Answers, body_cut_of, stanza_read_of};
ghost use Rattle.body_cutter.specs.Feeding.{longest_of, start_of};
ghost use Rattle.body_cutter.specs.Refusal.{text_answer, unit_answer, unit_result};
ghost use Rattle.body_cutter.specs.Parts.{Parts};
ghost use Rattle.body_cutter.specs.BodyText.{HasBodyParts, HasElementParts, IsBody, IsBodyText, IsElementText, IsStanza, Tells, answer_of};
ghost use Rattle.body_cutter.specs.Viable.{Anything, NamesBody, TellsRow};

use crate::feeding::{FedText, longest_of};
use crate::parts::{Cut, CutError, CutRefusal};
use crate::place::Kind;
use std::alloc::Global;

/// The parts of a text that comes in one piece.
fn parts_of(alloc: Global, kind: Kind, text: &[u8]) -> Result<Cut, CutError>
    ensures { Answers result (text_answer kind (start_of kind) (longest_of kind) (is_utf8 text.now) text.now) }
{
    if text.len() > longest_of(kind) {
        return Err(CutError::Refused(CutRefusal::TooLong));
    }
    let mut fed = FedText::new(alloc, kind);
    fed.feed(text)?;
    fed.finish()
}

/// The same answer without the parts.
fn without_parts(parts: Result<Cut, CutError>) -> Result<(), CutError>
    ensures { result ≡ unit_result parts }
{
    match parts {
        Ok(_) => Ok(()),
        Err(error) => Err(error),
    }
}

/// Cuts a body into its attributes and its children.
#[tactic(auto, unfolding(crate::specs::Cutting::body_cut_of))]
pub fn cut(alloc: Global, text: &[u8]) -> Result<Cut, CutError>
    // The answer is what the text is cut into, or its refusal, unless memory runs out.
    ensures answer { Answers result (body_cut_of text.now) }
    // What is cut is a body's text within the limits, with exactly these attributes and children.
    ensures body { IfOk result (λ cut. IsBody text.now cut) }
    // A refusal by the grammar is right, and one by a limit is of a body's text that passes it and none before it.
    ensures refused { IfErr result (λ e. Tells IsBodyText HasBodyParts 1048576 e text.now) }
    // Each body's text gives its parts, or the first limit that they pass.
    ensures parts { (parts : Parts) → HasBodyParts text.now parts → length text.now ≤ 1048576 → Answers result (answer_of parts) }
    // A refusal for its place stands in its row of the table, by the longest prefix that some bytes complete.
    ensures row { IfErr result (λ e. TellsRow IsBodyText NamesBody e text.now) }
{
    parts_of(alloc, Kind::Body, text)
}

/// Reads a stanza that stands by itself.
#[tactic(auto, unfolding(crate::specs::Cutting::stanza_read_of))]
pub fn read_stanza(alloc: Global, text: &[u8]) -> Result<(), CutError>
    // The answer is whether the text is a stanza, or its refusal, unless memory runs out.
    ensures answer { Answers result (stanza_read_of text.now) }
    // What is read is a stanza.
    ensures stanza { OnOk result (IsStanza text.now) }
    // A refusal by the grammar is right, and one by a limit is of an element that passes it and none before it.
    ensures refused { IfErr result (λ e. Tells IsElementText HasElementParts 1000000 e text.now) }
    // Each element by itself is read, or gives the first limit that it passes.
    ensures parts { (parts : Parts) → HasElementParts text.now parts → length text.now ≤ 1000000 → Answers result (unit_answer (answer_of parts)) }
    // A refusal for its place stands in its row of the table, by the longest prefix that some bytes complete.
    ensures row { IfErr result (λ e. TellsRow IsElementText Anything e text.now) }
{
    let parts = parts_of(alloc, Kind::Stanza, text);
    without_parts(parts)
}
