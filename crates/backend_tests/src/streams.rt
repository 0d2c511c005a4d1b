use bosh_types::{Inward, Moment, SharedText, StreamNo, Text, Wire};
use server_ports::{LinkPlan, MemoryNetwork, Past, StillClock};
use std::alloc::{AllocError, Global};
use std::test::Fail;
use stream_backend::{EveryWire, PacedNetwork, StreamBackend};
use xmpp_backend::{Backend, Passed, Polled};

type Server = StreamBackend<PacedNetwork<MemoryNetwork>, EveryWire, StillClock>;

const HEADER: &str =
    "<?xml version='1.0'?><stream:stream to='a.example' version='1.0' xmlns='jabber:client' xmlns:stream='http://etherx.jabber.org/streams'>";

fn wire(number: u32) -> Wire {
    Wire::new(number, StreamNo::unnamed())
}

// A link that gives these bytes in pieces of one byte.
fn plan(alloc: Global, bytes: &str) -> Result<LinkPlan, AllocError> {
    let mut plan = LinkPlan::new(alloc, Vec::from_slice(alloc, bytes.as_bytes())?);
    for _ in 0..bytes.len() {
        plan.pieces.push(1)?;
    }
    Ok(plan)
}

// A back end whose links give these texts, in the order in which they are dialled, each with nothing at these calls.
fn server(alloc: Global, texts: &[&str], pauses: &[&[u64]]) -> Result<Server, AllocError> {
    let mut plans = Vec::new(alloc);
    for text in texts {
        plans.push(plan(alloc, text)?)?;
    }
    let mut paced = Vec::new(alloc);
    for pauses in pauses {
        paced.push(Vec::from_slice(alloc, pauses)?)?;
    }
    let network = MemoryNetwork::new(alloc, plans, Vec::new(alloc));
    let clock = StillClock {
        moment: Moment::from_millis(0),
    };
    let network = PacedNetwork::new(alloc, network, paced);
    Ok(StreamBackend::new(alloc, network, 5222, EveryWire::new(alloc), clock))
}

// The next answer of a poll, as a line.
fn write_polled(alloc: Global, polled: Polled, told: &mut Vec<u8>) -> Result<bool, AllocError> {
    let line = match polled {
        Polled::Out(wire, text) => {
            let wire = wire.number() / 8;
            let line = format!(in alloc; "{wire} ")?;
            told.extend_from_slice(line.as_bytes())?;
            told.extend_from_slice(text.as_slice())?;
            told.push(b'\n')?;
            return Ok(true);
        }
        Polled::Closed(wire, closing) => {
            let wire = wire.number() / 8;
            format!(in alloc; "{wire} {closing:?}\n")?
        }
        Polled::Nothing => return Ok(false),
        Polled::Failed => format!(in alloc; "failed\n")?,
        Polled::NoMemory => format!(in alloc; "no memory\n")?,
    };
    told.extend_from_slice(line.as_bytes())?;
    Ok(true)
}

// What polls tell until there is nothing.
fn told(alloc: Global, server: &mut Server) -> Result<Vec<u8>, AllocError> {
    let mut told = Vec::new(alloc);
    for _ in 0..100 {
        let polled = server.poll();
        if !write_polled(alloc, polled, &mut told)? {
            break;
        }
    }
    Ok(told)
}

#[test]
fn what_comes_is_given(rt: HostRuntime) -> Result<(), Fail> {
    let rows: [(&str, &[u64], &str); 5] = [
        (
            "<?xml version='1.0'?><stream:stream version='1.0'><stream:features/><message><body>hi</body></message></stream:stream>",
            &[],
            "1 <stream:features/>\n1 <message xmlns='jabber:client'><body>hi</body></message>\n1 Plain\n",
        ),
        ("<stream:stream><a>", &[], "1 RemoteConnectionFailed\n"),
        (
            "<stream:stream><stream:error/></stream:stream>",
            &[],
            "1 <stream:error/>\n1 RemoteStreamError\n",
        ),
        ("<a/>", &[], "1 RemoteStreamError\n"),
        ("<stream:stream><a/>", &[10], ""),
    ];
    for (text, pauses, want) in rows {
        let mut server = server(rt.alloc(), &[text], &[pauses])?;
        let opened = server.open(wire(1), b"a.example");
        assert_eq!(rt; opened, Passed::Done);
        let told = told(rt.alloc(), &mut server)?;
        assert_eq!(rt; told.as_slice(), want.as_bytes(), "{text}");
    }
    Ok(())
}

fn item(alloc: Global, text: &str) -> Result<Inward, AllocError> {
    let text = Text::from_vec(Vec::from_slice(alloc, text.as_bytes())?);
    let text = SharedText::new(alloc, text)?;
    Ok(Inward::Item(StreamNo::unnamed(), text))
}

// What the links that were retired were given, one after the other.
fn given(alloc: Global, server: &Server) -> Result<Vec<u8>, AllocError> {
    let mut given = Vec::new(alloc);
    let Some(past) = server.network().network().past() else {
        return Ok(given);
    };
    for event in past {
        if let Past::Retired(link) = event {
            given.extend_from_slice(link.link.as_slice())?;
            given.push(b'\n')?;
        }
    }
    Ok(given)
}

// What is passed is given to the link: the header, an item, and the header again for a restart; and the end tag at the end.
#[test]
fn what_is_passed_is_given(rt: HostRuntime) -> Result<(), Fail> {
    for (closes, end) in [(false, ""), (true, "</stream:stream>")] {
        let mut server = server(rt.alloc(), &["<stream:stream><a/>"], &[&[1, 2]])?;
        let wire = wire(1);
        let _ = server.open(wire, b"a.example");
        let _ = server.pass(wire, &item(rt.alloc(), "<auth/>")?);
        let _ = server.poll();
        let _ = server.pass(wire, &Inward::Restart(StreamNo::unnamed()));
        if closes {
            let _ = server.close(wire);
        }
        let _ = told(rt.alloc(), &mut server)?;
        let given = given(rt.alloc(), &server)?;
        let want = format!(in rt.alloc(); "{HEADER}<auth/>{HEADER}{end}\n")?;
        assert_eq!(rt; given.as_slice(), want.as_bytes());
    }
    Ok(())
}

// Many wires: a dial that fails, one that is held, one that was closed, and one that gives.
#[test]
fn wires_go_beside_each_other(rt: HostRuntime) -> Result<(), Fail> {
    let text = "<stream:stream><a/>";
    let mut server = server(rt.alloc(), &[text, text, text], &[&[25], &[25], &[]])?;
    for number in 1..5 {
        let opened = server.open(wire(number), b"a.example");
        assert_eq!(rt; opened, Passed::Done);
    }
    server.hold(wire(1));
    server.hold(wire(4));
    let _ = server.close(wire(3));
    let first = told(rt.alloc(), &mut server)?;
    server.resume(wire(1));
    server.resume(wire(4));
    let then = told(rt.alloc(), &mut server)?;
    let a = "<a xmlns='jabber:client'/>";
    let want = format!(in rt.alloc(); "2 {a}\n2 RemoteConnectionFailed\n")?;
    assert_eq!(rt; first.as_slice(), want.as_bytes());
    let want = format!(in rt.alloc();
        "4 RemoteConnectionFailed\n1 {a}\n1 RemoteConnectionFailed\n"
    )?;
    assert_eq!(rt; then.as_slice(), want.as_bytes());
    Ok(())
}

// Of many wires one has something.
#[test]
fn one_of_many_has_news(rt: HostRuntime) -> Result<(), Fail> {
    let mut texts = Vec::new(rt.alloc());
    let mut pauses: Vec<&[u64]> = Vec::new(rt.alloc());
    for number in 0..256 {
        texts.push(if number == 200 {
            "<stream:stream><a/>"
        } else {
            ""
        })?;
        pauses.push(if number == 200 { &[21, 21] } else { &[2, 3] })?;
    }
    let mut server = server(rt.alloc(), &texts, &pauses)?;
    for number in 0..256 {
        let _ = server.open(wire(number), b"a.example");
    }
    let told = told(rt.alloc(), &mut server)?;
    assert_eq!(rt;
        told.as_slice(),
        b"200 <a xmlns='jabber:client'/>\n".as_slice()
    );
    Ok(())
}

// What a link doesn't take is owed up to 4,194,304 bytes, and with one item more the wire has failed.
#[test]
fn what_is_owed_has_a_limit(rt: HostRuntime) -> Result<(), Fail> {
    let mut never = Vec::new(rt.alloc());
    for call in 1..100 {
        never.push(call)?;
    }
    let long = "x".repeat(rt.alloc(), 900_000)?;
    let long = format!(in rt.alloc(); "<a>{long}</a>")?;
    let rows = [(4, ""), (5, "1 RemoteConnectionFailed\n")];
    for (items, want) in rows {
        let mut server = server(rt.alloc(), &["<stream:stream>"], &[never.as_slice()])?;
        let _ = server.open(wire(1), b"a.example");
        for _ in 0..items {
            let passed = server.pass(wire(1), &item(rt.alloc(), long.as_str())?);
            assert_eq!(rt; passed, Passed::Done);
        }
        let told = told(rt.alloc(), &mut server)?;
        assert_eq!(rt; told.as_slice(), want.as_bytes(), "{items}");
    }
    Ok(())
}
