// The command `serve` over a network in memory.
use bosh_commands::{
    DONE, NET_FAULT, READ_FAULT, WRONG_WORDS, options_to_serve, run_serve_command,
};
use bosh_ports::{MemorySink, MemorySource, SteadyBell};
use bosh_server::{Outside, Roll};
use bosh_types::{Moment, Rid};
use connection_loops::StillPollers;
use server_ports::{GivenNames, LinkPlan, MemoryNetwork, StillClock, ThreadSpawner};
use server_watch::Watch;
use session_pump::Host;
use std::alloc::{AllocError, Global};
use std::rt::Clock;
use std::sync::Wait;
use std::test::Fail;
use std::thread::Threads;
use xmpp_backend::InMemory;

const LATER: &[u8] =
    b"POST /http-bind HTTP/1.1\r\nHost: localhost\r\nContent-Length: 68\r\n\r\n<body rid='7' sid='zz' xmlns='http://jabber.org/protocol/httpbind'/>";

// What was written, and what went wrong.
#[derive(Drop)]
struct Outcome {
    status: u8,
    written: MemorySink,
    errors: MemorySink,
}

fn words_of(alloc: Global, line: &str) -> Result<Vec<String>, AllocError> {
    let mut words = Vec::new(alloc);
    for word in line.split(' ') {
        words.push(String::from_str(alloc, word)?)?;
    }
    Ok(words)
}

// Runs the words over a network of one link, which fails at the listed calls, and an empty input.
fn shown<R: Wait + Threads + Copy + Send + Sync + Drop + 'static>(
    rt: &R,
    alloc: Global,
    line: &str,
    failing: &[u64],
) -> Result<Outcome, Fail> {
    let mut input = MemorySource::new(Vec::new(alloc), Vec::new(alloc));
    shown_over(rt, alloc, line, failing, &mut input)
}

// The same over this input.
fn shown_over<R: Wait + Threads + Copy + Send + Sync + Drop + 'static>(
    rt: &R,
    alloc: Global,
    line: &str,
    failing: &[u64],
    input: &mut MemorySource,
) -> Result<Outcome, Fail> {
    let words = words_of(alloc, line)?;
    let plan = LinkPlan::new(alloc, LATER.to_vec(alloc)?);
    let mut written = MemorySink::new(alloc, Vec::new(alloc));
    let mut errors = MemorySink::new(alloc, Vec::new(alloc));
    let net = MemoryNetwork::new(alloc, vec![in alloc; plan]?, failing.to_vec(alloc)?);
    let names = GivenNames::new(alloc, b"s", Rid::new(1000).ok_or("an id")?);
    let mut outside = Outside {
        net,
        room: 65_536,
        clock: StillClock {
            moment: Moment::from_millis(0),
        },
        bell: SteadyBell,
        spawner: ThreadSpawner::new(alloc),
        names,
        pollers: StillPollers { rt: *rt, alloc },
        watch: Watch::off(),
        restored: None,
        keeper: None,
        roll: Roll::new(),
        pump: None,
    };
    let nobody: Vec<Host<InMemory>> = Vec::new(alloc);
    let status = run_serve_command(
        rt,
        alloc,
        &words,
        input,
        &mut written,
        &mut errors,
        &mut outside,
        nobody,
    );
    let Outside {
        net: _net,
        room: _room,
        clock: _clock,
        bell: _bell,
        spawner,
        names: _names,
        pollers: _pollers,
        watch: _watch,
        restored: _restored,
        keeper: _keeper,
        roll: _roll,
        pump: _pump,
    } = outside;
    spawner.join_all(rt);
    Ok(Outcome {
        status,
        written,
        errors,
    })
}

#[test]
fn one_link_is_served(rt: HostRuntime) -> Result<(), Fail> {
    let line = "serve --port 47001 --workers 1 --connections 1";
    let shown = shown(&rt, rt.alloc(), line, &[])?;
    assert_eq!(rt; shown.status, DONE);
    assert_eq!(rt; shown.written.as_slice(), b"serving\nserved 1\n".as_slice());
    Ok(())
}

// Where the words say so the server ends with its input, and a fault of that is answered after all else.
#[test]
fn an_input_that_fails_is_told_at_the_end(rt: HostRuntime) -> Result<(), Fail> {
    let alloc = rt.alloc();
    let rows: [(&str, u64, u8); 4] = [
        ("serve --port 47001 --until-eof", 0, DONE),
        ("serve --port 47001 --until-eof", 1, READ_FAULT),
        ("serve --port 47001 --until-eof", 2, READ_FAULT),
        ("serve --port 47001", 1, DONE),
    ];
    for (line, failing, status) in rows {
        let listed = vec![in alloc; failing]?;
        let mut input = MemorySource::new(b"bytes".to_vec(alloc)?, listed);
        let shown = shown_over(&rt, alloc, line, &[], &mut input)?;
        assert_eq!(rt; shown.status, status, "of {line:?} and {failing}");
        assert_eq!(rt; shown.written.as_slice(), b"serving\nserved 1\n".as_slice());
    }
    Ok(())
}

#[test]
fn words_say_whether_a_server_ends_with_its_input(rt: HostRuntime) -> Result<(), Fail> {
    let rows = [
        ("serve --port 1 --until-eof", true),
        ("serve --until-eof --port 1 --connections 2", true),
        ("serve --port 1", false),
        ("serve --until-eof", false),
        ("client --until-eof", false),
    ];
    for (line, wanted) in rows {
        let words = words_of(rt.alloc(), line)?;
        let options = options_to_serve(rt.alloc(), &words)?;
        assert_eq!(rt;
            options.is_some_and(|options| options.until_eof),
            wanted,
            "of {line:?}"
        );
    }
    Ok(())
}

// The hosts that these words want, as a line.
fn site_line(alloc: Global, line: &str) -> Result<String, AllocError> {
    let words = words_of(alloc, line)?;
    let Some(options) = options_to_serve(alloc, &words)? else {
        return String::from_str(alloc, "none");
    };
    let site = &options.site;
    let port = site.port;
    let tests = site.has_test_hosts;
    let mut text = format!(in alloc; "{port} {tests}")?;
    for domain in site.domains.as_slice() {
        text.push_str(" ")?;
        text.push_str(str::from_utf8(domain.as_slice()).unwrap_or("?"))?;
    }
    Ok(text)
}

#[test]
fn words_say_which_hosts_a_server_has(rt: HostRuntime) -> Result<(), Fail> {
    let rows = [
        ("serve --port 1", "5222 true xmpp.localhost"),
        (
            "serve --port 1 --test-hosts --xmpp-port 5223",
            "5223 true xmpp.localhost",
        ),
        ("serve --port 1 --xmpp a.example", "5222 false a.example"),
        (
            "serve --xmpp b.example --port 1 --xmpp=a.example --test-hosts --xmpp-port 65535",
            "65535 true b.example a.example",
        ),
        (
            "serve --port 1 --xmpp a --xmpp b --xmpp c --xmpp d --xmpp e --xmpp f --xmpp g --xmpp h",
            "5222 false a b c d e f g h",
        ),
        ("serve --xmpp a.example", "none"),
        ("serve --port 1 --xmpp a --xmpp a", "none"),
        ("client --port 1 --to a", "none"),
    ];
    for (line, wanted) in rows {
        let site = site_line(rt.alloc(), line)?;
        assert_eq!(rt; site.as_str(), wanted, "of {line:?}");
    }
    Ok(())
}

#[test]
fn words_that_are_no_command_write_nothing(rt: HostRuntime) -> Result<(), Fail> {
    let lines = [
        "serve",
        "serve --port 0",
        "serve --port 65536",
        "serve --port 05280",
        "serve --port +5280",
        "serve --port 5280 --workers 0",
        "serve --port 5280 --workers 65",
        "serve --port 5280 --connections 1048577",
        "serve --port 5280 again",
        "serve --port 5280 --port 5281",
        "serve --port 5280 --until-eof --until-eof",
        "serve --port 5280 --until-eof=true",
        "serve --port 5280 --xmpp-port 0",
        "serve --port 5280 --xmpp",
        "serve --port 5280 --xmpp=",
        "serve --port 5280 --xmpp echo.localhost",
        "serve --port 5280 --xmpp room.localhost --test-hosts",
        "serve --port 5280 --xmpp a.example --xmpp b.example --xmpp a.example",
        "serve --port 5280 --xmpp a --xmpp b --xmpp c --xmpp d --xmpp e --xmpp f --xmpp g --xmpp h --xmpp i",
        "serve --port 5280 --test-hosts --test-hosts",
        "client --port 5280",
    ];
    for line in lines {
        let shown = shown(&rt, rt.alloc(), line, &[])?;
        assert_eq!(rt; shown.status, WRONG_WORDS, "of {line:?}");
        assert!(rt; shown.written.as_slice().is_empty(), "of {line:?}");
    }
    Ok(())
}

#[test]
fn a_port_that_is_taken_is_named(rt: HostRuntime) -> Result<(), Fail> {
    let shown = shown(&rt, rt.alloc(), "serve --port 5280", &[1])?;
    assert_eq!(rt; shown.status, NET_FAULT);
    assert!(rt; shown.written.as_slice().is_empty());
    let wanted = b"serve: cannot listen at 127.0.0.1:5280, which may be taken\n".as_slice();
    assert_eq!(rt; shown.errors.as_slice(), wanted);
    Ok(())
}

#[test]
fn what_is_asked_for_is_shown(rt: HostRuntime) -> Result<(), Fail> {
    let rows: [(&str, &[u8]); 3] = [
        ("serve --help", b"Serves XMPP over BOSH at"),
        ("serve --port 5280 -h", b"Serves XMPP over BOSH at"),
        ("serve --version", b"serve 0.1.0\n"),
    ];
    for (line, front) in rows {
        let shown = shown(&rt, rt.alloc(), line, &[])?;
        assert_eq!(rt; shown.status, DONE, "of {line:?}");
        assert!(rt; shown.written.as_slice().starts_with(front), "of {line:?}");
    }
    Ok(())
}
