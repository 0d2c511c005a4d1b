// The lines of a report.
ghost use Rattle.std.specs.Prelude.{◌≡◌, ◌++◌, ◌∷◌, [], IfOk, OnOk};
ghost use Rattle.std.specs.Fmt.{decimal};
ghost use Rattle.script_text.specs.declared.report.ReportLine.TheVariants.{In, Out, Lost, Gone, Refused, Over, Done, Bad};
ghost use Rattle.script_text.specs.Report.{line_text, inward_text, refused_text, kind_text};

use crate::ending::push_ending;
use crate::line::BadKind;
use crate::text::push_number;
use bosh_types::{Ending, Inward, SharedText};
use std::alloc::{AllocError, Global};

/// One line of a report. A session is named by its opening number.
#[derive(Debug, Drop)]
pub enum ReportLine {
    /// A stanza or a restart goes inward.
    In { session: u32, item: Inward },
    /// An answer goes to this connection.
    Out { conn: u16, body: SharedText },
    /// An answer was for this connection, which had been closed.
    Lost { conn: u16 },
    /// A later copy took the place of the request that waited on this open connection.
    Gone { conn: u16 },
    /// What the server gave or closed was refused.
    Refused { session: u32, refusal: Refusal },
    /// The session ends.
    Over { session: u32, ending: Ending },
    /// The script ended with this line.
    Done { line: u64 },
    /// The script is bad at this line.
    Bad { line: u64, kind: BadKind },
}

/// Which line of the server was refused, and why.
#[derive(Clone, Copy, Debug, PartialEq, Eq)]
pub enum Refusal {
    /// A stanza, since too much waits already.
    BackFull,
    /// A stanza, since the session has ended or its stream is closed.
    BackOver,
    /// A closing, likewise.
    ShutOver,
}

/// The bytes of a line of a report, with its LF.
pub fn print_line(alloc: Global, line: &ReportLine) -> Result<Vec<u8>, AllocError>
    ensures { IfOk result (λ text. text.items ≡ line_text line.now ++ 10 ∷ []) }
{
    let mut text = match line {
        ReportLine::In { session, item } => print_in(alloc, *session, item)?,
        ReportLine::Out { conn, body } => print_out(alloc, *conn, body)?,
        ReportLine::Lost { conn } => print_lost(alloc, *conn)?,
        ReportLine::Gone { conn } => print_gone(alloc, *conn)?,
        ReportLine::Refused { session, refusal } => print_refused(alloc, *session, *refusal)?,
        ReportLine::Over { session, ending } => print_over(alloc, *session, *ending)?,
        ReportLine::Done { line } => print_done(alloc, *line)?,
        ReportLine::Bad { line, kind } => print_bad(alloc, *line, *kind)?,
    };
    text.push(b'\n')?;
    Ok(text)
}

#[tactic(auto, unfolding(crate::specs::Report::line_text))]
fn print_in(alloc: Global, session: u32, item: &Inward) -> Result<Vec<u8>, AllocError>
    ensures { IfOk result (λ text. text.items ≡ line_text (In session item.now)) }
{
    let mut text = Vec::from_slice(alloc, b"in s")?;
    push_number(alloc, &mut text, u64::from(session))?;
    text.push(b' ')?;
    push_inward(alloc, &mut text, item)?;
    Ok(text)
}

/// Puts what goes inward, on its stream, at the end of a text.
pub fn push_inward(alloc: Global, text: &mut Vec<u8>, item: &Inward) -> Result<(), AllocError>
    ensures { OnOk result (text.new.items ≡ text.old.items ++ inward_text item.now) }
{
    match item {
        Inward::Item(stream, stanza) => {
            push_number(alloc, text, u64::from(stream.number()))?;
            text.push(b' ')?;
            text.extend_from_slice(stanza.as_slice())
        }
        Inward::Restart(stream) => {
            push_number(alloc, text, u64::from(stream.number()))?;
            text.extend_from_slice(b" restart")
        }
        Inward::Open(stream, to) => {
            push_number(alloc, text, u64::from(stream.number()))?;
            text.extend_from_slice(b" open ")?;
            text.extend_from_slice(to.as_slice())
        }
        Inward::Close(stream) => {
            push_number(alloc, text, u64::from(stream.number()))?;
            text.extend_from_slice(b" close")
        }
    }
}

#[tactic(auto, unfolding(crate::specs::Report::line_text))]
fn print_out(alloc: Global, conn: u16, body: &SharedText) -> Result<Vec<u8>, AllocError>
    ensures { IfOk result (λ text. text.items ≡ line_text (Out conn body.now)) }
{
    let mut text = Vec::from_slice(alloc, b"out ")?;
    push_number(alloc, &mut text, u64::from(conn))?;
    text.push(b' ')?;
    text.extend_from_slice(body.as_slice())?;
    Ok(text)
}

#[tactic(auto, unfolding(crate::specs::Report::line_text))]
fn print_lost(alloc: Global, conn: u16) -> Result<Vec<u8>, AllocError>
    ensures { IfOk result (λ text. text.items ≡ line_text (Lost conn)) }
{
    let mut text = Vec::from_slice(alloc, b"lost ")?;
    push_number(alloc, &mut text, u64::from(conn))?;
    Ok(text)
}

#[tactic(auto, unfolding(crate::specs::Report::line_text))]
fn print_gone(alloc: Global, conn: u16) -> Result<Vec<u8>, AllocError>
    ensures { IfOk result (λ text. text.items ≡ line_text (Gone conn)) }
{
    let mut text = Vec::from_slice(alloc, b"gone ")?;
    push_number(alloc, &mut text, u64::from(conn))?;
    Ok(text)
}

#[tactic(auto, unfolding(crate::specs::Report::line_text))]
fn print_refused(alloc: Global, session: u32, refusal: Refusal) -> Result<Vec<u8>, AllocError>
    ensures { IfOk result (λ text. text.items ≡ line_text (Refused session refusal)) }
{
    match refusal {
        Refusal::BackFull => around(alloc, "refused back s", session, " full"),
        Refusal::BackOver => around(alloc, "refused back s", session, " over"),
        Refusal::ShutOver => around(alloc, "refused shut s", session, " over"),
    }
}

// A number between words.
fn around(alloc: Global, before: &str, number: u32, after: &str) -> Result<Vec<u8>, AllocError>
    ensures { IfOk result (λ text. text.items ≡ before.now ++ decimal number ++ after.now) }
{
    let mut text = Vec::from_slice(alloc, before.as_bytes())?;
    push_number(alloc, &mut text, u64::from(number))?;
    text.extend_from_slice(after.as_bytes())?;
    Ok(text)
}

#[tactic(auto, unfolding(crate::specs::Report::line_text))]
fn print_over(alloc: Global, session: u32, ending: Ending) -> Result<Vec<u8>, AllocError>
    ensures { IfOk result (λ text. text.items ≡ line_text (Over session ending)) }
{
    let mut text = Vec::from_slice(alloc, b"over s")?;
    push_number(alloc, &mut text, u64::from(session))?;
    text.push(b' ')?;
    push_ending(alloc, &mut text, ending)?;
    Ok(text)
}

#[tactic(auto, unfolding(crate::specs::Report::line_text))]
fn print_done(alloc: Global, line: u64) -> Result<Vec<u8>, AllocError>
    ensures { IfOk result (λ text. text.items ≡ line_text (Done line)) }
{
    let mut text = Vec::from_slice(alloc, b"done ")?;
    push_number(alloc, &mut text, line)?;
    Ok(text)
}

#[tactic(auto, unfolding(crate::specs::Report::line_text))]
fn print_bad(alloc: Global, line: u64, kind: BadKind) -> Result<Vec<u8>, AllocError>
    ensures { IfOk result (λ text. text.items ≡ line_text (Bad line kind)) }
{
    let mut text = Vec::from_slice(alloc, b"bad ")?;
    push_number(alloc, &mut text, line)?;
    text.push(b' ')?;
    text.extend_from_slice(kind_name(kind).as_bytes())?;
    Ok(text)
}

/// The word for a kind of bad line.
pub fn kind_name(kind: BadKind) -> &'static str
    ensures { result.now ≡ kind_text kind }
{
    match kind {
        BadKind::Count => "count",
        BadKind::End => "end",
        BadKind::Length => "length",
        BadKind::Grammar => "grammar",
        BadKind::Time => "time",
        BadKind::Connection => "connection",
        BadKind::Session => "session",
        BadKind::Copy => "copy",
    }
}
