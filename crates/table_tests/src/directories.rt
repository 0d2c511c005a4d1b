// A directory by itself, and behind a gate that workers call.
ghost use Rattle.std.specs.Prelude.{◌≡◌, ℕ, IfOk, IfSome, List, [], true};
ghost use Rattle.parked_gate.specs.Passes.{IsPassOf};
ghost use Rattle.session_attrs.specs.declared.request.Creation.{Creation};
ghost use Rattle.session_attrs.specs.declared.request.Kind.TheVariants as kinds;
ghost use Rattle.session_core.specs.Journal.{IsReadFrom};
ghost use Rattle.session_table.specs.Replies.{MayOpen};

use body_cutter::cut;
use bosh_types::{Moment, Row, SharedText, Stanzas, Text};
use parked_gate::{Gate, Object, Pass};
use session_attrs::{Kind, Request, read_request};
use session_table::{
    Directory, DirectoryCall, DirectoryReply, Limits, Opened, Opening, Question, SessionHandle,
};
use std::alloc::{AllocError, Global};
use std::test::Fail;

mod purses;
mod threads;

const CREATION: &[u8] =
    b"<body rid='1000' to='example.org' wait='60' hold='1' ver='1.6' xmlns='http://jabber.org/protocol/httpbind'/>";

const ANSWER: &[u8] =
    b"<body xmlns='http://jabber.org/protocol/httpbind' xmlns:xmpp='urn:xmpp:xbosh' xmlns:stream='http://etherx.jabber.org/streams' sid='s1' wait='60' requests='2' inactivity='30' polling='5' maxpause='120' hold='1' ver='1.6' from='example.org' stream='t0' ack='1000' xmpp:version='1.0' xmpp:restartlogic='true'/>";

/// The request that this body is, if it is one.
fn request_in(alloc: Global, text: &[u8]) -> Option<Request>
    ensures { IfSome result (λ request. IsReadFrom text.now request) }
{
    let Ok(parts) = cut(alloc, text) else {
        return None;
    };
    match read_request(alloc, &parts, text) {
        Ok(request) => Some(request),
        Err(_) => None,
    }
}

/// Whether the request creates a session.
fn is_creation(request: &Request) -> bool
    ensures { result ≡ true → (creation : Creation) × (request.now.kind ≡ kinds.Creation creation) }
{
    match &request.kind {
        Kind::Creation(_) => true,
        Kind::Later { .. } => false,
    }
}

/// Whether the request is for a session that there is.
fn is_later(request: &Request) -> bool
    ensures { result ≡ true → (sid : List ℕ) × (request.now.kind ≡ kinds.Later sid) }
{
    match &request.kind {
        Kind::Creation(_) => false,
        Kind::Later { .. } => true,
    }
}

fn text(alloc: Global, bytes: &[u8]) -> Result<Text, AllocError>
    ensures { IfOk result (λ text. text ≡ bytes.now) }
{
    Ok(Row::from_vec(Vec::from_slice(alloc, bytes)?))
}

fn shared(alloc: Global, bytes: &[u8]) -> Result<SharedText, AllocError>
    ensures { IfOk result (λ text. text ≡ bytes.now) }
{
    SharedText::new(alloc, text(alloc, bytes)?)
}

fn no_stanzas(alloc: Global) -> Stanzas
    ensures { result ≡ [] }
{
    Stanzas::from_vec(Vec::new(alloc))
}

/// A creation for example.org, which greets nobody, under a name that begins with `s`.
fn an_opening(alloc: Global) -> Result<Opening, &'static str>
    ensures { IfOk result MayOpen }
{
    let Some(request) = request_in(alloc, CREATION) else {
        return Err("no request");
    };
    if !is_creation(&request) {
        return Err("no creation");
    }
    match opening_with(alloc, request) {
        Ok(opening) => Ok(opening),
        Err(AllocError) => Err("no memory"),
    }
}

fn opening_with(alloc: Global, request: Request) -> Result<Opening, AllocError>
    requires read { IsReadFrom CREATION.now request }
    requires creation { (creation : Creation) × (request.kind ≡ kinds.Creation creation) }
    ensures { IfOk result MayOpen }
{
    Ok(Opening {
        name: text(alloc, b"s")?,
        host: shared(alloc, b"example.org")?,
        greeting: no_stanzas(alloc),
        request,
        body: shared(alloc, CREATION)?,
        at: Moment::from_millis(0),
        limits: Limits::USUAL,
    })
}

/// A directory behind a gate.
fn gate(alloc: Global) -> Result<(Gate<Directory>, Pass<Directory>), &'static str>
    ensures { IfOk result (λ made. IsPassOf made.0 made.1) }
{
    match Gate::new(alloc, Directory::new(alloc)) {
        Ok(made) => Ok(made),
        Err(_) => Err("no memory"),
    }
}

/// What an opened session is named, and how it is answered.
#[derive(Drop)]
struct Told {
    sid: SharedText,
    number: u64,
    answer: SharedText,
}

fn opened_in(reply: DirectoryReply) -> Option<Told> {
    match reply {
        DirectoryReply::Opened(Opened { session, answer }) => {
            let SessionHandle { sid, number, .. } = session;
            Some(Told {
                sid,
                number,
                answer,
            })
        }
        _ => None,
    }
}

/// Whether a session is opened under this name and this number.
fn is_opened(
    alloc: Global,
    directory: &mut Directory,
    sid: &[u8],
    number: u64,
) -> Result<bool, &'static str> {
    let opening = an_opening(alloc)?;
    let Ok(reply) = directory.step(1, DirectoryCall::Open(opening)) else {
        return Err("no memory");
    };
    let Some(told) = opened_in(reply) else {
        return Ok(false);
    };
    Ok(told.sid.as_slice() == sid && told.number == number)
}

/// Whether the first session of a directory is answered so.
fn is_answered(alloc: Global, answer: &[u8]) -> Result<bool, &'static str> {
    let opening = an_opening(alloc)?;
    let mut directory = Directory::new(alloc);
    let Ok(reply) = directory.step(1, DirectoryCall::Open(opening)) else {
        return Err("no memory");
    };
    let Some(told) = opened_in(reply) else {
        return Ok(false);
    };
    Ok(told.answer.as_slice() == answer)
}

/// Whether a session of this name is found.
fn is_found(alloc: Global, directory: &mut Directory, sid: &[u8]) -> Result<bool, AllocError> {
    let sid = text(alloc, sid)?;
    let found = directory.step(1, DirectoryCall::Find { sid })?;
    Ok(matches!(&found, DirectoryReply::Found(_)))
}

/// Whether a session of this name was live until now.
fn is_removed(alloc: Global, directory: &mut Directory, sid: &[u8]) -> Result<bool, AllocError> {
    let sid = text(alloc, sid)?;
    let removed = directory.step(1, DirectoryCall::Remove { sid })?;
    Ok(matches!(&removed, DirectoryReply::Removed))
}

fn count_live(directory: &Directory) -> Result<usize, AllocError> {
    let live = directory.look(&Question::Live)?;
    Ok(live.len())
}

#[test]
fn a_creation_is_answered(rt: HostRuntime) -> Result<(), Fail> {
    assert!(rt; is_answered(rt.alloc(), ANSWER)?);
    Ok(())
}

#[test]
fn a_session_is_opened_found_and_removed(rt: HostRuntime) -> Result<(), Fail> {
    let mut directory = Directory::new(rt.alloc());
    assert!(rt; !is_found(rt.alloc(), &mut directory, b"s1")?);
    assert!(rt; is_opened(rt.alloc(), &mut directory, b"s1", 1)?);
    assert!(rt; is_opened(rt.alloc(), &mut directory, b"s2", 2)?);
    assert!(rt; is_found(rt.alloc(), &mut directory, b"s1")?);
    assert!(rt; is_removed(rt.alloc(), &mut directory, b"s1")?);
    assert!(rt; !is_removed(rt.alloc(), &mut directory, b"s1")?);
    assert!(rt; !is_found(rt.alloc(), &mut directory, b"s1")?);
    assert_eq!(rt; count_live(&directory)?, 1);
    assert_eq!(rt; directory.count(), 3);
    Ok(())
}

#[test]
fn another_name_finds_nothing(rt: HostRuntime) -> Result<(), Fail> {
    let mut directory = Directory::new(rt.alloc());
    assert!(rt; is_opened(rt.alloc(), &mut directory, b"s1", 1)?);
    assert!(rt; !is_found(rt.alloc(), &mut directory, b"t1")?);
    assert!(rt; !is_found(rt.alloc(), &mut directory, b"1")?);
    assert!(rt; !is_found(rt.alloc(), &mut directory, b"s01")?);
    assert!(rt; !is_found(rt.alloc(), &mut directory, b"s2")?);
    assert!(rt; !is_found(rt.alloc(), &mut directory, b"s18446744073709551616")?);
    Ok(())
}

/// Opens sessions until the directory is full, and says how many.
fn fill(alloc: Global, directory: &mut Directory) -> Result<u64, &'static str> {
    for opened in 0..1000_u64 {
        let opening = an_opening(alloc)?;
        match directory.step(0, DirectoryCall::Open(opening)) {
            Ok(DirectoryReply::Opened(_)) => {}
            Ok(DirectoryReply::TableFull) => return Ok(opened),
            _ => return Err("not opened"),
        }
    }
    Err("never full")
}

#[test]
fn no_more_sessions_are_live_than_may_be(rt: HostRuntime) -> Result<(), Fail> {
    let mut directory = Directory::new(rt.alloc());
    assert_eq!(rt; fill(rt.alloc(), &mut directory)?, 256);
    assert!(rt; is_removed(rt.alloc(), &mut directory, b"s100")?);
    assert!(rt; is_opened(rt.alloc(), &mut directory, b"s257", 257)?);
    assert_eq!(rt; count_live(&directory)?, 256);
    Ok(())
}
