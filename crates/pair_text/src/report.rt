// The lines of a report of two ends.
ghost use Rattle.std.specs.Prelude.{◌≡◌, ◌++◌, ◌∷◌, [], IfOk, OnOk, codes};
ghost use Rattle.std.specs.Fmt.{decimal};
ghost use Rattle.script_text.specs.Report.{kind_text};
ghost use Rattle.pair_text.specs.Report.{answer_line, end_text, got_on_line, pair_line_text, pair_report_text, request_line, seen_text, sums_text, word_text};

use bosh_types::{Condition, Rid, StreamNo};
use script_text::{BadKind, kind_name, push_ending, push_inward, push_number};
use std::alloc::{AllocError, Global};
use two_ends::Sums;
use world_laws::{SeenItem, Word};

/// One line of a report of two ends.
#[derive(Debug, Drop)]
pub enum PairReport {
    /// This was seen.
    Saw(SeenItem),
    /// So many stanzas went where until the script's end.
    Summed(Sums),
    /// The script ended with this line.
    Done { line: u64 },
    /// The script is bad at this line.
    Bad { line: u64, kind: BadKind },
}

/// The bytes of some lines of a report, each with its LF.
pub fn print_pair_report(alloc: Global, lines: &[PairReport]) -> Result<Vec<u8>, AllocError>
    ensures { IfOk result (λ text. text.items ≡ pair_report_text lines.now) }
{
    let mut text = Vec::new(alloc);
    for line in lines {
        push_line(alloc, &mut text, line)?;
        text.push(b'\n')?;
    }
    Ok(text)
}

#[tactic(auto, unfolding(crate::specs::Report::pair_line_text))]
fn push_line(alloc: Global, text: &mut Vec<u8>, line: &PairReport) -> Result<(), AllocError>
    ensures { OnOk result (text.new.items ≡ text.old.items ++ pair_line_text line.now) }
{
    match line {
        PairReport::Saw(item) => push_seen(alloc, text, item),
        PairReport::Summed(sums) => push_sums(alloc, text, sums),
        PairReport::Done { line } => push_done(alloc, text, *line),
        PairReport::Bad { line, kind } => push_bad(alloc, text, *line, *kind),
    }
}

// What was seen.
#[tactic(auto, unfolding(crate::specs::Report::seen_text))]
fn push_seen(alloc: Global, text: &mut Vec<u8>, item: &SeenItem) -> Result<(), AllocError>
    ensures { OnOk result (text.new.items ≡ text.old.items ++ seen_text item.now) }
{
    match item {
        SeenItem::RefusedFull { line } => push_words(text, "refused ", word_text(*line), " full"),
        SeenItem::RefusedOver { line } => push_words(text, "refused ", word_text(*line), " over"),
        SeenItem::RefusedNone { line } => push_words(text, "refused ", word_text(*line), " none"),
        SeenItem::RefusedLong => text.extend_from_slice(b"refused pause long"),
        SeenItem::Req { rid, body } => push_request(alloc, text, *rid, body.as_slice()),
        SeenItem::Nothing => text.extend_from_slice(b"none"),
        SeenItem::Spent => text.extend_from_slice(b"spent"),
        SeenItem::Dup { rid } => push_rid(alloc, text, "dup ", *rid),
        SeenItem::In { item } => {
            text.extend_from_slice(b"in ")?;
            push_inward(alloc, text, item)
        }
        SeenItem::Ans { number, rid, body } => push_answer(
            alloc,
            text,
            *number,
            *rid,
            body.as_slice(),
        ),
        SeenItem::Gone { rid } => push_rid(alloc, text, "gone ", *rid),
        SeenItem::Over { ending } => {
            text.extend_from_slice(b"over ")?;
            push_ending(alloc, text, *ending)
        }
        SeenItem::Got { stanza } => {
            text.extend_from_slice(b"got ")?;
            text.extend_from_slice(stanza.as_slice())
        }
        SeenItem::GotOn { stream, stanza } => push_got_on(alloc, text, *stream, stanza.as_slice()),
        SeenItem::Stale { rid } => push_rid(alloc, text, "stale ", *rid),
        SeenItem::Broken { rid } => push_rid(alloc, text, "broken ", *rid),
        SeenItem::Again { first, last } => push_again(alloc, text, *first, *last),
        SeenItem::Ended { condition } => push_words(text, "ended ", end_text(*condition), ""),
        SeenItem::NoCopy => text.extend_from_slice(b"no copy"),
    }
}

// Three texts, one after the other.
fn push_words(text: &mut Vec<u8>, first: &str, second: &str, third: &str) -> Result<(), AllocError>
    ensures { OnOk result (text.new.items ≡ text.old.items ++ (first.now ++ second.now ++ third.now)) }
{
    text.extend_from_slice(first.as_bytes())?;
    text.extend_from_slice(second.as_bytes())?;
    text.extend_from_slice(third.as_bytes())
}

// A word and a request id.
fn push_rid(alloc: Global, text: &mut Vec<u8>, word: &str, rid: Rid) -> Result<(), AllocError>
    ensures { OnOk result (text.new.items ≡ text.old.items ++ (word.now ++ decimal rid)) }
{
    text.extend_from_slice(word.as_bytes())?;
    push_number(alloc, text, rid.value())
}

// The first id and the last one that are to be sent again.
fn push_again(alloc: Global, text: &mut Vec<u8>, first: Rid, last: Rid) -> Result<(), AllocError>
    ensures { OnOk result (text.new.items ≡ text.old.items ++ (codes "again " ++ decimal first ++ codes " " ++ decimal last)) }
{
    push_rid(alloc, text, "again ", first)?;
    push_rid(alloc, text, " ", last)
}

// A number, and what follows it after a space.
fn push_number_and_space(alloc: Global, text: &mut Vec<u8>, number: u64) -> Result<(), AllocError>
    ensures { OnOk result (text.new.items ≡ text.old.items ++ (decimal number ++ 32 ∷ [])) }
{
    push_number(alloc, text, number)?;
    text.push(b' ')?;
    Ok(())
}

// A request that the client made.
fn push_request(alloc: Global, text: &mut Vec<u8>, rid: Rid, body: &[u8]) -> Result<(), AllocError>
    ensures { OnOk result (text.new.items ≡ text.old.items ++ request_line rid body.now) }
{
    text.extend_from_slice(b"req ")?;
    push_number_and_space(alloc, text, rid.value())?;
    text.extend_from_slice(body)
}

// An answer that the manager wrote.
fn push_answer(
    alloc: Global,
    text: &mut Vec<u8>,
    number: u64,
    rid: Rid,
    body: &[u8],
) -> Result<(), AllocError>
    ensures { OnOk result (text.new.items ≡ text.old.items ++ answer_line number rid body.now) }
{
    text.extend_from_slice(b"ans ")?;
    push_number_and_space(alloc, text, number)?;
    push_number_and_space(alloc, text, rid.value())?;
    text.extend_from_slice(body)
}

// What was handed out on a stream that isn't the first.
fn push_got_on(
    alloc: Global,
    text: &mut Vec<u8>,
    stream: StreamNo,
    stanza: &[u8],
) -> Result<(), AllocError>
    ensures { OnOk result (text.new.items ≡ text.old.items ++ got_on_line stream stanza.now) }
{
    text.extend_from_slice(b"got ")?;
    push_number_and_space(alloc, text, u64::from(stream.number()))?;
    text.extend_from_slice(stanza)
}

fn word_text(word: Word) -> &'static str
    ensures { result.now ≡ word_text word }
{
    match word {
        Word::Put => "put",
        Word::PutOn => "puton",
        Word::Add => "add",
        Word::StopOn => "stopon",
        Word::Restart => "restart",
        Word::Pause => "pause",
        Word::Stop => "stop",
        Word::Give => "give",
        Word::Shut => "shut",
    }
}

// How the client saw the session end.
fn end_text(condition: Option<Condition>) -> &'static str
    ensures { result.now ≡ end_text condition }
{
    match condition {
        Some(condition) => condition.name(),
        None => "terminate",
    }
}

// How many stanzas went where.
#[tactic(auto, unfolding(crate::specs::Report::sums_text))]
fn push_sums(alloc: Global, text: &mut Vec<u8>, sums: &Sums) -> Result<(), AllocError>
    ensures { OnOk result (text.new.items ≡ text.old.items ++ sums_text sums.now) }
{
    push_count(alloc, text, "sums put ", sums.put)?;
    push_count(alloc, text, " queued ", sums.queued)?;
    push_count(alloc, text, " in ", sums.inward)?;
    push_count(alloc, text, " given ", sums.given)?;
    push_count(alloc, text, " got ", sums.got)
}

// A word and a number.
pub(crate) fn push_count(
    alloc: Global,
    text: &mut Vec<u8>,
    word: &str,
    count: u64,
) -> Result<(), AllocError>
    ensures { OnOk result (text.new.items ≡ text.old.items ++ (word.now ++ decimal count)) }
{
    text.extend_from_slice(word.as_bytes())?;
    push_number(alloc, text, count)
}

fn push_done(alloc: Global, text: &mut Vec<u8>, line: u64) -> Result<(), AllocError>
    ensures { OnOk result (text.new.items ≡ text.old.items ++ (codes "done " ++ decimal line)) }
{
    push_count(alloc, text, "done ", line)
}

fn push_bad(alloc: Global, text: &mut Vec<u8>, line: u64, kind: BadKind) -> Result<(), AllocError>
    ensures { OnOk result (text.new.items ≡ text.old.items ++ (codes "bad " ++ decimal line ++ codes " " ++ kind_text kind)) }
{
    push_count(alloc, text, "bad ", line)?;
    text.push(b' ')?;
    text.extend_from_slice(kind_name(kind).as_bytes())
}
