// A room of three over loopback, of whom one pauses.
ghost use Rattle.std.specs.Thread.{IsSync};

use crate::asking::fill;
use crate::loopback::serve_by;
use bosh_commands::DONE;
use bosh_http::{ResponseIn, ResponseReader, write_post};
use bosh_types::{Stanzas, Text};
use server_ports::{Dialled, NetLink, Network, RealClock, TcpNetwork};
use session_pump::Host;
use std::alloc::{AllocError, Global};
use std::io::Eprint;
use std::net::{Ipv4Addr, Net, SocketAddr, TcpListener, TcpStream};
use std::rt::Clock;
use std::sync::Wait;
use std::test::Fail;
use std::thread::{Threads, join, sleep};
use std::time::{Duration, Instant};
use xmpp_backend::{InMemory, Room};

/// How many stanzas may wait for a client.
const MOST: usize = 1024;

/// How often two members say something to each other while the third pauses.
const ROUNDS: u64 = 5;

/// A session at the room, and the connection of its client.
#[derive(Drop)]
pub(crate) struct Member {
    alloc: Global,
    link: NetLink,
    reader: ResponseReader,
    number: u64,
    rid: u64,
    /// The stanzas that came, one behind the other.
    heard: String,
}

impl Member {
    fn new(alloc: Global, link: NetLink, number: u64, rid: u64) -> Member {
        Member {
            alloc,
            link,
            reader: ResponseReader::new(alloc),
            number,
            rid,
            heard: String::new(alloc),
        }
    }

    /// Asks for a session.
    fn create(&mut self) -> Result<(), &'static str> {
        let body =
            b"<body rid='1000' to='example.org' wait='60' hold='1' ver='1.6' xmlns='http://jabber.org/protocol/httpbind'/>";
        write_post(&mut self.link, body).ok().ok_or("not written")?;
        self.hear()
    }

    /// Makes the next request, with these attributes and stanzas.
    pub(crate) fn ask(&mut self, attributes: &str, stanzas: &str) -> Result<(), &'static str> {
        self.rid = self.rid.saturating_add(1);
        let (rid, number) = (self.rid, self.number);
        let body = format!(in self.alloc;
            "<body rid='{rid}' sid='s{number}'{attributes} xmlns='http://jabber.org/protocol/httpbind'>{stanzas}</body>"
        ).ok()
            .ok_or("no memory")?;
        write_post(&mut self.link, body.as_bytes())
            .ok()
            .ok_or("not written")
    }

    /// The answer to a request.
    pub(crate) fn answer(&mut self) -> Result<String, &'static str> {
        let came = self.reader.next(self.alloc, &mut self.link);
        let Ok(ResponseIn::Body(text)) = came else {
            return Err("no answer");
        };
        let text = str::from_utf8(text.as_slice()).ok().ok_or("no UTF-8")?;
        String::from_str(self.alloc, text).ok().ok_or("no memory")
    }

    /// Takes the answer to a request.
    fn hear(&mut self) -> Result<(), &'static str> {
        let text = self.answer()?;
        self.heard
            .push_str(payloads(text.as_str()))
            .ok()
            .ok_or("no memory")
    }

    /// Takes an answer and asks again, until so many bytes of stanzas came. Whether they did.
    fn goes_on(&mut self, length: usize) -> Result<bool, &'static str> {
        if self.heard.len() >= length {
            return Ok(true);
        }
        self.hear()?;
        if self.heard.len() >= length {
            return Ok(true);
        }
        self.ask("", "")?;
        Ok(false)
    }
}

/// Both take answers and ask again, until each heard so many bytes of stanzas.
fn hear(one: &mut Member, other: &mut Member, length: usize) -> Result<(), &'static str> {
    for _ in 0..5000 {
        let one_heard = one.goes_on(length)?;
        let other_heard = other.goes_on(length)?;
        if one_heard && other_heard {
            return Ok(());
        }
    }
    Err("too few stanzas came")
}

/// What stands in a body that has a content.
fn payloads(body: &str) -> &str {
    let Some(text) = body.strip_suffix("</body>") else {
        return "";
    };
    match text.split_once('>') {
        Some((_, payloads)) => payloads,
        None => "",
    }
}

/// The one says something, which both hear.
fn say(one: &mut Member, other: &mut Member, stanza: &str) -> Result<(), &'static str> {
    other.ask("", "")?;
    one.ask("", stanza)?;
    one.hear()?;
    other.hear()
}

/// A link to the port, once that takes connections.
fn dial<R>(rt: &R, net: &mut TcpNetwork<R>, port: u16) -> Result<NetLink, &'static str>
where
    R: Wait + Clock + Net<Listener = TcpListener, Stream = TcpStream> + Copy + Drop,
{
    for _ in 0..1000 {
        if let Dialled::Link(link) = net.dial(port) {
            return Ok(link);
        }
        sleep(rt, Duration::from_millis(1));
    }
    Err("nobody listens")
}

/// What three members heard, and how long two of them talked while the first paused.
#[derive(Drop)]
struct Outcome {
    heard: [String; 3],
    took: Duration,
}

/// A member of the room, over a connection of its own.
pub(crate) fn enter<R>(
    rt: &R,
    alloc: Global,
    net: &mut TcpNetwork<R>,
    port: u16,
    number: u64,
) -> Result<Member, &'static str>
where
    R: Wait + Clock + Net<Listener = TcpListener, Stream = TcpStream> + Copy + Drop,
{
    let link = dial(rt, net, port)?;
    let mut member = Member::new(alloc, link, number, 1000);
    member.create()?;
    Ok(member)
}

/// The member pauses, and its connection is closed.
fn pause<N: Network<Link = NetLink>>(net: &mut N, member: Member) -> Result<(), &'static str> {
    let mut member = member;
    member.ask(" pause='120'", "")?;
    member.hear()?;
    net.retire(member.link);
    Ok(())
}

/// As much as may wait for somebody who pauses is said by the one, and both hear it.
fn fill_room(alloc: Global, one: &mut Member, other: &mut Member) -> Result<(), &'static str> {
    let many = "<x/>".repeat(alloc, MOST).ok().ok_or("no memory")?;
    other.ask("", "")?;
    one.ask("", many.as_str())?;
    hear(one, other, many.len())
}

/// Two members talk. How long that took.
fn chat<R: Wait + Clock>(
    rt: &R,
    alloc: Global,
    one: &mut Member,
    other: &mut Member,
) -> Result<Duration, &'static str> {
    let start = Instant::now(rt).ok().ok_or("no clock")?;
    for number in 0..ROUNDS {
        let stanza = format!(in alloc; "<m{number}/>").ok().ok_or("no memory")?;
        say(one, other, stanza.as_str())?;
        say(other, one, stanza.as_str())?;
    }
    start.elapsed(rt).ok().ok_or("no clock")
}

/// Three members, of whom the first pauses; then comes as much as may wait for it, and the others talk; and then it is back.
fn talk<R>(rt: &R, alloc: Global, port: u16) -> Talked
where
    R: Wait + Clock + Net<Listener = TcpListener, Stream = TcpStream> + Copy + Drop,
{
    let mut net = TcpNetwork::new(*rt);
    let away = enter(rt, alloc, &mut net, port, 1)?;
    let mut second = enter(rt, alloc, &mut net, port, 2)?;
    let mut third = enter(rt, alloc, &mut net, port, 3)?;
    pause(&mut net, away)?;
    fill_room(alloc, &mut third, &mut second)?;
    let took = chat(rt, alloc, &mut third, &mut second)?;
    let link = dial(rt, &mut net, port)?;
    let mut back = Member::new(alloc, link, 1, 1001);
    back.ask("", "")?;
    hear(&mut back, &mut second, third.heard.len())?;
    Ok(Outcome {
        heard: [back.heard, second.heard, third.heard],
        took,
    })
}

/// What each of them has to hear.
fn wanted(alloc: Global) -> Result<String, AllocError> {
    let mut wanted = "<x/>".repeat(alloc, MOST)?;
    for number in 0..ROUNDS {
        let twice = format!(in alloc; "<m{number}/><m{number}/>")?;
        wanted.push_str(twice.as_str())?;
    }
    Ok(wanted)
}

/// Serves a room at this port for four connections.
fn serve<R>(rt: &R, alloc: Global, port: u16) -> Result<u8, AllocError>
where
    R: Wait
        + Threads
        + Clock
        + Eprint
        + Net<Listener = TcpListener, Stream = TcpStream>
        + Copy
        + Send
        + Drop
        + 'static,
{
    let line = format!(in alloc; "serve --port {port} --workers 4 --connections 4")?;
    let host = Host {
        name: Text::from_vec(b"example.org".to_vec(alloc)?),
        greeting: Stanzas::from_vec(Vec::new(alloc)),
        end: InMemory::Room(Room::new(alloc)),
        spares: Vec::new(alloc),
    };
    let hosts = vec![in alloc; host]?;
    serve_by(rt, alloc, line.as_str(), RealClock::new(*rt), hosts)
}

/// What came of a talk.
type Talked = Result<Outcome, &'static str>;

// The server beside its clients.
fn both<R>(
    rt: &R,
    alloc: Global,
    port: u16,
) -> (Result<u8, AllocError>, Result<Outcome, &'static str>)
where
    R: Wait
        + Threads
        + Clock
        + Eprint
        + Net<Listener = TcpListener, Stream = TcpStream>
        + Copy
        + Send
        + Sync
        + Drop
        + 'static,
{
    join(
        rt,
        || -> Result<u8, AllocError>
            requires { IsSync R.row }
        { serve(rt, alloc, port) },
        || -> Talked
            requires { IsSync R.row }
        {
            let talk = talk(rt, alloc, port);
            fill(rt, port);
            talk
        },
    )
}

#[test]
fn a_member_who_pauses_silences_nobody(rt: HostRuntime) -> Result<(), Fail> {
    let any = TcpListener::bind(&rt, SocketAddr::from((Ipv4Addr::LOCALHOST, 0)))?;
    let port = any.local_addr()?.port();
    drop(any);
    let (status, talk) = both(&rt, rt.alloc(), port);
    let talk = talk?;
    let wanted = wanted(rt.alloc())?;
    for heard in &talk.heard {
        assert_eq!(rt; heard.as_str(), wanted.as_str());
    }
    assert!(rt; talk.took < Duration::from_secs(2 * ROUNDS));
    assert_eq!(rt; status?, DONE);
    Ok(())
}
