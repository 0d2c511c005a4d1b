// The report of an audit.
ghost use Rattle.std.specs.Prelude.{◌≡◌, ◌++◌, IfOk, OnOk};
ghost use Rattle.std.specs.Fmt.{decimal};
ghost use Rattle.trace_audit.specs.declared.outcome.Audited.TheVariants.{Yes, No, Bad};
ghost use Rattle.trace_audit.specs.Report.{kind_text, outcome_text, rule_text};

use crate::line::BadKind;
use crate::outcome::{Audited, Rule};
use std::alloc::{AllocError, Global};

/// The bytes of the one line of a report, with its LF.
pub fn print_outcome(alloc: Global, outcome: Audited) -> Result<Vec<u8>, AllocError>
    ensures { IfOk result (λ text. text.items ≡ outcome_text outcome) }
{
    match outcome {
        Audited::Yes {
            requests,
            passed,
            got,
        } => print_yes(alloc, requests, passed, got),
        Audited::No { line, rule } => print_no(alloc, line, rule),
        Audited::Bad { line, kind } => print_bad(alloc, line, kind),
    }
}

#[tactic(auto, unfolding(crate::specs::Report::outcome_text))]
fn print_yes(alloc: Global, requests: u64, passed: u64, got: u64) -> Result<Vec<u8>, AllocError>
    ensures { IfOk result (λ text. text.items ≡ outcome_text (Yes requests passed got)) }
{
    let mut text = Vec::from_slice(alloc, b"yes ")?;
    push_number(alloc, &mut text, requests)?;
    text.extend_from_slice(b" ")?;
    push_number(alloc, &mut text, passed)?;
    text.extend_from_slice(b" ")?;
    push_number(alloc, &mut text, got)?;
    text.extend_from_slice(b"\n")?;
    Ok(text)
}

#[tactic(auto, unfolding(crate::specs::Report::outcome_text))]
fn print_no(alloc: Global, line: u64, rule: Rule) -> Result<Vec<u8>, AllocError>
    ensures { IfOk result (λ text. text.items ≡ outcome_text (No line rule)) }
{
    let mut text = Vec::from_slice(alloc, b"no ")?;
    push_number(alloc, &mut text, line)?;
    text.extend_from_slice(b" ")?;
    text.extend_from_slice(rule_name(rule).as_bytes())?;
    text.extend_from_slice(b"\n")?;
    Ok(text)
}

#[tactic(auto, unfolding(crate::specs::Report::outcome_text))]
fn print_bad(alloc: Global, line: u64, kind: BadKind) -> Result<Vec<u8>, AllocError>
    ensures { IfOk result (λ text. text.items ≡ outcome_text (Bad line kind)) }
{
    let mut text = Vec::from_slice(alloc, b"bad ")?;
    push_number(alloc, &mut text, line)?;
    text.extend_from_slice(b" ")?;
    text.extend_from_slice(kind_name(kind).as_bytes())?;
    text.extend_from_slice(b"\n")?;
    Ok(text)
}

// Puts a number in plain decimal at the end of a text.
fn push_number(alloc: Global, text: &mut Vec<u8>, number: u64) -> Result<(), AllocError>
    ensures { OnOk result (text.new.items ≡ text.old.items ++ decimal number) }
{
    let digits = number.to_string(alloc)?;
    text.extend_from_slice(digits.as_bytes())
}

// The name of a rule.
fn rule_name(rule: Rule) -> &'static str
    ensures { result.now ≡ rule_text rule }
{
    match rule {
        Rule::Body => "body",
        Rule::Number => "number",
        Rule::Altered => "altered",
        Rule::Inward => "inward",
        Rule::Order => "order",
        Rule::Changed => "changed",
        Rule::Payload => "payload",
        Rule::Took => "took",
        Rule::Got => "got",
    }
}

// The word for a kind of bad line.
fn kind_name(kind: BadKind) -> &'static str
    ensures { result.now ≡ kind_text kind }
{
    match kind {
        BadKind::Count => "count",
        BadKind::End => "end",
        BadKind::Length => "length",
        BadKind::Grammar => "grammar",
    }
}
