// A whole client over a network in memory, whose workers run one after the other before it talks.
ghost use Rattle.parked_gate.specs.Passes.{IsPassOf};

use crate::workers::{CREATED, ENDED, GONE, GREETED, MISSING, object, object_from, plan};
use bosh_client::Queued;
use bosh_ports::{MemorySink, MemorySource, SteadyBell};
use bosh_types::{Condition, Moment};
use client_run::{Call, ClientObject, ClientRan, Outside, Place, Reply, run_client};
use parked_gate::{Gate, Pass};
use server_ports::{
    Accepted, Dialled, LinkPlan, ListedSpawner, MemoryNetwork, Network, Opened, PlannedLink,
    Shared, SteadySpawner, StillClock,
};
use std::alloc::Global;
use std::sync::{Arc, Wait};
use std::test::Fail;
use std::thread::Threads;

/// A network in memory whose shares have these plans.
#[derive(Drop)]
struct Shares {
    alloc: Global,
    own: MemoryNetwork,
    plans: Vec<Vec<LinkPlan>>,
}

impl Network for Shares {
    ghost use Rattle.std.specs.Prelude.{Option, List, ⊤};
    ghost use Rattle.server_ports.specs.Counts.{Counts, HasFailed, RisesWith, added, no_counts};
    ghost use Rattle.server_ports.specs.Events.{Event, Begins, Retires, Joins, IsWithout, IsUngiven};
    ghost use Rattle.server_ports.specs.Network.{ListenCounts, MatchShared, MatchAccepted, AcceptCounts, MatchDialled, DialCounts};

    type Link = PlannedLink;

    ghost counts = { λ n. n.own.counts };

    ghost events = { λ n. n.own.events };

    fn listen(&mut self, port: u16) -> Opened {
        self.own.listen(port)
    }

    fn share(&mut self) -> Shared<Shares> {
        let plans = match self.plans.pop() {
            Some(plans) => plans,
            None => Vec::new(self.alloc),
        };
        Shared::Net(Shares {
            alloc: self.alloc,
            own: MemoryNetwork::new(self.alloc, plans, Vec::new(self.alloc)),
            plans: Vec::new(self.alloc),
        })
    }

    fn accept(&mut self) -> Accepted<PlannedLink> {
        self.own.accept()
    }

    fn dial(&mut self, port: u16) -> Dialled<PlannedLink> {
        self.own.dial(port)
    }

    fn retire(&mut self, link: PlannedLink) {
        self.own.retire(link);
    }

    fn back(&mut self, share: Shares) {
        let Shares {
            alloc: _,
            own,
            plans: _,
        } = share;
        self.own.back(own);
    }
}

/// How a client runs that has a terminate queued, over this input. Its first worker's link gives these two responses, and `missing` more
/// links say that there is no such page. The listed takes and gives fail, and the listed questions to the spawner are refused.
fn runs<R: Wait + Threads + Copy + Send + Drop + 'static>(
    rt: &R,
    alloc: Global,
    input: &[u8],
    responses: [&[u8]; 2],
    missing: usize,
    failing: [&[u64]; 3],
) -> Result<ClientRan, Fail> {
    let Ok((gate, pass)) = Gate::new(alloc, object(alloc, 60)?) else {
        return Err("no memory".into());
    };
    let mut pass = pass;
    let queued = gate.call(rt, &mut pass, Call::Terminate);
    if !matches!(&queued, Ok(Reply::Queued(Queued::Done))) {
        return Err("not queued".into());
    }
    let mut first = vec![in alloc; plan(alloc, &responses, &[], &[])?]?;
    for _ in 0..missing {
        first.push(plan(alloc, &[MISSING], &[], &[])?)?;
    }
    runs_at(rt, alloc, gate, pass, first, input, failing)
}

// The same of this client, whose first worker has these links.
fn runs_at<R: Wait + Threads + Copy + Send + Drop + 'static>(
    rt: &R,
    alloc: Global,
    gate: Gate<ClientObject>,
    pass: Pass<ClientObject>,
    first: Vec<LinkPlan>,
    input: &[u8],
    failing: [&[u64]; 3],
) -> Result<ClientRan, Fail>
    requires { IsPassOf gate pass }
{
    let mut pass = pass;
    let Ok(gate) = Arc::new(alloc, gate) else {
        return Err("no memory".into());
    };
    let second = vec![in alloc; plan(alloc, &[], &[], &[])?]?;
    let net = Shares {
        alloc,
        own: MemoryNetwork::new(alloc, Vec::new(alloc), Vec::new(alloc)),
        plans: vec![in alloc; second, first]?,
    };
    let [takes, gives, refused] = failing;
    let takes = Vec::from_slice(alloc, takes)?;
    let mut source = MemorySource::new(Vec::from_slice(alloc, input)?, takes);
    let mut sink = MemorySink::new(alloc, Vec::from_slice(alloc, gives)?);
    let refused = Vec::from_slice(alloc, refused)?;
    let mut outside = Outside {
        net,
        clock: StillClock {
            moment: Moment::from_millis(0),
        },
        bell: SteadyBell,
        spawner: ListedSpawner::new(SteadySpawner { leaves: 0 }, refused),
    };
    let place = Place {
        alloc,
        gate: &gate,
        port: 5280,
    };
    let ran = run_client(rt, &place, &mut pass, &mut source, &mut sink, &mut outside);
    let Outside {
        net: _net,
        clock: _clock,
        bell: _bell,
        spawner,
    } = outside;
    let _ = spawner.into_inner();
    Ok(ran?)
}

#[test]
fn the_first_cause_is_answered(rt: HostRuntime) -> Result<(), Fail> {
    // The input, the two answers, how many further links say that there is no such page, the takes, the gives and the questions that
    // fail, and how the client ran.
    let rows: [(&[u8], [&[u8]; 2], usize, [&[u64]; 3], ClientRan); 11] = [
        (b"", [CREATED, ENDED], 0, [&[], &[], &[]], ClientRan::Done),
        (
            b"<m/>\n",
            [GREETED, ENDED],
            0,
            [&[], &[], &[]],
            ClientRan::Done,
        ),
        (
            b"",
            [CREATED, GONE],
            0,
            [&[], &[], &[]],
            ClientRan::Ended(Condition::ItemNotFound),
        ),
        (
            b"<m>\n",
            [CREATED, GONE],
            0,
            [&[], &[], &[]],
            ClientRan::Bad { line: 1 },
        ),
        (
            b"",
            [CREATED, b"HTTP/1.1"],
            0,
            [&[], &[], &[]],
            ClientRan::NetFault,
        ),
        (
            b"",
            [CREATED, ENDED],
            0,
            [&[], &[], &[1]],
            ClientRan::SpawnFault,
        ),
        (
            b"<m>\n",
            [CREATED, ENDED],
            0,
            [&[], &[], &[2]],
            ClientRan::SpawnFault,
        ),
        (
            b"",
            [CREATED, MISSING],
            2,
            [&[], &[], &[]],
            ClientRan::Refused { status: 404 },
        ),
        (
            b"<m/>\n",
            [CREATED, GONE],
            0,
            [&[1], &[], &[]],
            ClientRan::ReadFault,
        ),
        (
            b"",
            [GREETED, GONE],
            0,
            [&[], &[1], &[]],
            ClientRan::WriteFault,
        ),
        (
            b"",
            [GREETED, MISSING],
            2,
            [&[], &[2], &[]],
            ClientRan::WriteFault,
        ),
    ];
    for (input, responses, missing, failing, ran) in rows {
        assert_eq!(rt;
            runs(&rt, rt.alloc(), input, responses, missing, failing)?,
            ran,
            "of {input:?}"
        );
    }
    Ok(())
}

// With the last id used, lines are put while there is room for them, and one more is stuck.
#[test]
fn a_full_queue_that_nobody_empties_ends_it(rt: HostRuntime) -> Result<(), Fail> {
    let rows: [(usize, ClientRan); 2] = [(1024, ClientRan::Done), (1025, ClientRan::Stuck)];
    for (lines, ran) in rows {
        let alloc = rt.alloc();
        let mut input = Vec::new(alloc);
        for _ in 0..lines {
            input.extend_from_slice(b"<m/>\n")?;
        }
        let Ok((gate, pass)) = Gate::new(alloc, object_from(alloc, 9007199254740991, 60)?) else {
            return Err("no memory".into());
        };
        let first = vec![in alloc; plan(alloc, &[CREATED], &[], &[])?]?;
        assert_eq!(rt;
            runs_at(&rt, alloc, gate, pass, first, &input, [&[], &[], &[]])?,
            ran,
            "of {lines}"
        );
    }
    Ok(())
}
