// What is told to a person whose client didn't end well.
ghost use Rattle.std.specs.Prelude.{◌≡◌, IfOk};
ghost use Rattle.bosh_ports.specs.Sink.{AppendsFront};
ghost use Rattle.bosh_commands.specs.Why.{bad_end, bad_why, ended_why, refused_line, why_line};

use crate::run::NO_MEMORY;
use bosh_ports::{Sink, give_all};
use bosh_types::Condition;
use bosh_types::limits::MOST_LINES;
use client_run::ClientRan;
use std::alloc::{AllocError, Global};

const OUT_OF_MEMORY: &[u8] = b"robelava client: out of memory\n";

/// Tells that memory has run out, where the stream takes that, and answers the status.
pub(crate) fn tell_no_memory<E: Sink>(errors: &mut E) -> u8
    ensures { result ≡ 6 }
{
    let _ = give_all(errors, OUT_OF_MEMORY);
    NO_MEMORY
}

/// Tells in one line why a client ended, where memory and the stream allow it. Of one that ended well it tells nothing.
pub(crate) fn tell_why<E: Sink>(alloc: Global, errors: &mut E, ran: ClientRan)
    ensures { AppendsFront (E.given errors.old) (E.given errors.new) (why_line ran) }
{
    let line = match why_line(alloc, ran) {
        Ok(line) => line,
        Err(AllocError) => return,
    };
    give_front(errors, &line);
}

// Gives a text as far as that goes.
fn give_front<E: Sink>(errors: &mut E, text: &[u8])
    ensures { AppendsFront (E.given errors.old) (E.given errors.new) text.now }
{
    let _ = give_all(errors, text);
}

// The line that tells why a client ended, none where it ended well.
fn why_line(alloc: Global, ran: ClientRan) -> Result<Vec<u8>, AllocError>
    ensures { IfOk result (λ line. line.items ≡ why_line ran) }
{
    match ran {
        ClientRan::Done => Ok(Vec::new(alloc)),
        ClientRan::SpawnFault => Vec::from_slice(
            alloc,
            b"robelava client: no thread could be started\n",
        ),
        ClientRan::NetFault => Vec::from_slice(
            alloc,
            b"robelava client: nobody listens at the port, or the connection failed\n",
        ),
        ClientRan::ReadFault => Vec::from_slice(alloc, b"robelava client: the input failed\n"),
        ClientRan::WriteFault => Vec::from_slice(alloc, b"robelava client: the output failed\n"),
        ClientRan::Stuck => Vec::from_slice(alloc, b"stuck\n"),
        ClientRan::Refused { status } => refused_line(alloc, status),
        ClientRan::Bad { line } => bad_why(alloc, line),
        ClientRan::Ended(condition) => ended_why(alloc, condition),
    }
}

fn refused_line(alloc: Global, status: u16) -> Result<Vec<u8>, AllocError>
    ensures { IfOk result (λ text. text.items ≡ refused_line status) }
{
    let mut text = Vec::from_slice(alloc, b"refused ")?;
    let digits = status.to_string(alloc)?;
    text.extend_from_slice(digits.as_bytes())?;
    text.push(b'\n')?;
    Ok(text)
}

fn bad_why(alloc: Global, line: u64) -> Result<Vec<u8>, AllocError>
    ensures { IfOk result (λ text. text.items ≡ bad_why line) }
{
    let mut text = Vec::from_slice(alloc, b"robelava client: line ")?;
    let digits = line.to_string(alloc)?;
    text.extend_from_slice(digits.as_bytes())?;
    text.extend_from_slice(bad_end(line))?;
    Ok(text)
}

fn bad_end(line: u64) -> &'static [u8]
    ensures { result.now ≡ bad_end line }
{
    if line > MOST_LINES {
        return b" is one too many\n";
    }
    b" is no stanza\n"
}

fn ended_why(alloc: Global, condition: Condition) -> Result<Vec<u8>, AllocError>
    ensures { IfOk result (λ text. text.items ≡ ended_why condition) }
{
    let mut text = Vec::from_slice(alloc, b"robelava client: the session was ended: ")?;
    text.extend_from_slice(condition.name().as_bytes())?;
    text.push(b'\n')?;
    Ok(text)
}
