// The command `client` over a network in memory that answers no request with 200, and one whose last request id is used.
use bosh_commands::run_client_command;
use bosh_ports::{MemorySink, MemorySource, SteadyBell};
use bosh_types::{Moment, Rid};
use client_run::Outside;
use server_ports::{
    Accepted, Dialled, GivenNames, LinkPlan, MemoryNetwork, Network, Opened, PlannedLink, Shared,
    SteadySpawner, StillClock,
};
use std::alloc::{AllocError, Global};
use std::sync::Wait;
use std::test::Fail;
use std::thread::Threads;

const CREATED: &[u8] =
    b"HTTP/1.1 200 OK\r\nContent-Length: 60\r\n\r\n<body xmlns='http://jabber.org/protocol/httpbind' sid='s1'/>";

const MISSING: &[u8] = b"HTTP/1.1 404 Not Found\r\nContent-Length: 0\r\n\r\n";

const BUSY: &[u8] = b"HTTP/1.1 503 Service Unavailable\r\nContent-Length: 0\r\n\r\n";

/// A network in memory that hands its links to the first share, and to each other one a link that gives nothing.
#[derive(Drop)]
struct Handing {
    alloc: Global,
    own: MemoryNetwork,
    plans: Option<Vec<LinkPlan>>,
}

impl Network for Handing {
    ghost use Rattle.std.specs.Prelude.{Option, List, ⊤};
    ghost use Rattle.server_ports.specs.Counts.{Counts, HasFailed, RisesWith, added, no_counts};
    ghost use Rattle.server_ports.specs.Events.{Event, Begins, Retires, Joins, IsWithout, IsUngiven};
    ghost use Rattle.server_ports.specs.Network.{ListenCounts, MatchShared, MatchAccepted, AcceptCounts, MatchDialled, DialCounts};

    type Link = PlannedLink;

    ghost counts = { λ n. n.own.counts };

    ghost events = { λ n. n.own.events };

    fn listen(&mut self, port: u16) -> Opened {
        self.own.listen(port)
    }

    fn share(&mut self) -> Shared<Handing> {
        let plans = match self.plans.take() {
            Some(plans) => plans,
            None => silent(self.alloc).unwrap_or(Vec::new(self.alloc)),
        };
        Shared::Net(Handing {
            alloc: self.alloc,
            own: MemoryNetwork::new(self.alloc, plans, Vec::new(self.alloc)),
            plans: None,
        })
    }

    fn accept(&mut self) -> Accepted<PlannedLink> {
        self.own.accept()
    }

    fn dial(&mut self, port: u16) -> Dialled<PlannedLink> {
        self.own.dial(port)
    }

    fn retire(&mut self, link: PlannedLink) {
        self.own.retire(link);
    }

    fn back(&mut self, share: Handing) {
        let Handing {
            alloc: _,
            own,
            plans: _,
        } = share;
        self.own.back(own);
    }
}

// One link that gives nothing.
fn silent(alloc: Global) -> Result<Vec<LinkPlan>, AllocError> {
    Ok(vec![in alloc; LinkPlan::new(alloc, Vec::new(alloc))]?)
}

// The words of a client that begins with this request id.
fn words_from(alloc: Global, rid: &str) -> Result<Vec<String>, AllocError> {
    let mut words = Vec::new(alloc);
    for word in ["client", "--port", "47002", "--to", "h", "--rid", rid] {
        words.push(String::from_str(alloc, word)?)?;
    }
    Ok(words)
}

// Links of which each gives one response.
fn links(alloc: Global, responses: &[&[u8]]) -> Result<Vec<LinkPlan>, AllocError> {
    let mut plans = Vec::new(alloc);
    for response in responses {
        plans.push(LinkPlan::new(alloc, response.to_vec(alloc)?))?;
    }
    Ok(plans)
}

// The status of a client that begins with this id, over these links and so many lines, and what it told as an error.
fn told<R: Wait + Threads + Copy + Send + Drop + 'static>(
    rt: &R,
    alloc: Global,
    rid: &str,
    responses: &[&[u8]],
    lines: usize,
) -> Result<(u8, MemorySink), Fail> {
    let words = words_from(alloc, rid)?;
    let input = "<m/>\n".repeat(alloc, lines)?;
    let mut source = MemorySource::new(input.into_bytes(), Vec::new(alloc));
    let mut sink = MemorySink::new(alloc, Vec::new(alloc));
    let mut errors = MemorySink::new(alloc, Vec::new(alloc));
    let mut names = GivenNames::new(alloc, b"s", Rid::new(1000).ok_or("an id")?);
    let mut outside = Outside {
        net: Handing {
            alloc,
            own: MemoryNetwork::new(alloc, Vec::new(alloc), Vec::new(alloc)),
            plans: Some(links(alloc, responses)?),
        },
        clock: StillClock {
            moment: Moment::from_millis(0),
        },
        bell: SteadyBell,
        spawner: SteadySpawner { leaves: 0 },
    };
    let status = run_client_command(
        rt,
        alloc,
        &words,
        &mut source,
        &mut sink,
        &mut errors,
        &mut outside,
        &mut names,
    );
    Ok((status, errors))
}

#[test]
fn a_client_that_gets_no_further_says_so(rt: HostRuntime) -> Result<(), Fail> {
    // The first id, what the links give, how many lines come, the status, and what is told.
    let rows: [(&str, &[&[u8]], usize, u8, &[u8]); 3] = [
        ("1000", &[MISSING, BUSY, MISSING], 0, 13, b"refused 404\n"),
        ("1000", &[MISSING, MISSING, BUSY], 0, 13, b"refused 503\n"),
        ("9007199254740991", &[CREATED], 1025, 14, b"stuck\n"),
    ];
    for (rid, responses, lines, status, line) in rows {
        let (answered, errors) = told(&rt, rt.alloc(), rid, responses, lines)?;
        assert_eq!(rt;
            (answered, errors.as_slice()),
            (status, line),
            "of {rid} and {lines}"
        );
    }
    Ok(())
}
