// A back end that is watched hands on what it is asked, and what it carried is noted.
use crate::scene::{Scene, Step, shared};
use bosh_types::{Inward, StreamNo, Wire};
use serve_trace::TracedBackend;
use server_watch::Tally;
use std::alloc::{AllocError, Global};
use std::test::Fail;
use xmpp_backend::{Backend, BackendCall, Echo, Failing, Passed, Polled, Scripted};

// A stanza is passed on the wire of this session's first stream so often, and what comes back is polled.
fn carry<E: Backend>(
    alloc: Global,
    end: &mut E,
    number: u32,
    times: u32,
) -> Result<u32, AllocError> {
    carry_on(alloc, end, number, StreamNo::unnamed(), times)
}

// The same on the wire of one of its streams.
fn carry_on<E: Backend>(
    alloc: Global,
    end: &mut E,
    number: u32,
    stream: StreamNo,
    times: u32,
) -> Result<u32, AllocError> {
    let wire = Wire::new(number, stream);
    let mut given: u32 = 0;
    let _ = end.open(wire, b"a");
    for _ in 0..times {
        let item = Inward::Item(stream, shared(alloc, "<message/>")?);
        let _ = end.pass(wire, &item);
        if let Polled::Out(_, _) = end.poll() {
            given = given.saturating_add(1);
        }
    }
    // A restart is no stanza; the echo has features for it.
    let _ = end.pass(wire, &Inward::Restart(stream));
    let _ = end.poll();
    Ok(given)
}

#[test]
fn what_is_carried_is_noted(rt: HostRuntime) -> Result<(), Fail> {
    let alloc = rt.alloc();
    let mut scene = Scene::new(alloc)?;
    let host = shared(alloc, "a")?;
    let own = scene.watch.again()?;
    let tally = Tally::new(alloc, own, host, true);
    let mut end = TracedBackend::new(rt, Echo::new(alloc), None, tally);
    let opened = [Step::Opened(5, "a", 0), Step::Opened(6, "a", 0)];
    scene.see(&rt, &opened, 0)?;
    assert_eq!(rt; carry(alloc, &mut end, 5, 3)?, 3);
    assert_eq!(rt; carry(alloc, &mut end, 6, 1)?, 1);
    assert!(rt; end.close(Wire::new(5, StreamNo::unnamed())) == Passed::Done);
    scene.see(
        &rt,
        &[Step::Terminated(5, 8, 4), Step::Terminated(6, 8, 4)],
        0,
    )?;
    let wanted: &[u8] =
        b"at=T event=ended sid=k-5 host=a millis=4 in=3 out=4 ending=\"terminate 8\"\nat=T event=ended sid=k-6 host=a millis=4 in=0 out=0 ending=\"terminate 8\"\n";
    assert!(rt; scene.lines().ends_with(wanted));
    Ok(())
}

#[test]
fn what_is_carried_on_each_stream_counts(rt: HostRuntime) -> Result<(), Fail> {
    let alloc = rt.alloc();
    let mut scene = Scene::new(alloc)?;
    let own = scene.watch.again()?;
    let tally = Tally::new(alloc, own, shared(alloc, "a")?, true);
    let mut end = TracedBackend::new(rt, Echo::new(alloc), None, tally);
    scene.see(&rt, &[Step::Opened(5, "a", 0)], 0)?;
    let second = StreamNo::new(1).unwrap_or(StreamNo::unnamed());
    assert_eq!(rt; carry(alloc, &mut end, 5, 3)?, 3);
    assert_eq!(rt; carry_on(alloc, &mut end, 5, second, 2)?, 2);
    assert!(rt; end.close(Wire::new(5, second)) == Passed::Done);
    assert!(rt; end.close(Wire::new(5, StreamNo::unnamed())) == Passed::Done);
    scene.see(&rt, &[Step::Terminated(5, 8, 4)], 0)?;
    let wanted: &[u8] =
        b"at=T event=ended sid=k-5 host=a millis=4 in=5 out=7 ending=\"terminate 8\"\n";
    assert!(rt; scene.lines().ends_with(wanted));
    Ok(())
}

#[test]
fn a_failure_is_noted_with_what_was_carried(rt: HostRuntime) -> Result<(), Fail> {
    let alloc = rt.alloc();
    let mut scene = Scene::new(alloc)?;
    let mut failing = Vec::new(alloc);
    failing.push(Failing {
        call: BackendCall::Pass,
        number: 3,
    })?;
    let scripted = Scripted::new(alloc, Vec::new(alloc), failing);
    let own = scene.watch.again()?;
    let tally = Tally::new(alloc, own, shared(alloc, "a")?, false);
    let mut end = TracedBackend::new(rt, scripted, None, tally);
    scene.see(&rt, &[Step::Opened(5, "a", 0)], 0)?;
    let _ = carry(alloc, &mut end, 5, 3)?;
    scene.see(&rt, &[Step::Terminated(5, 8, 4)], 0)?;
    let wanted: &[u8] =
        b"at=T event=backend-failed host=a replaced=no count=1\nat=T event=ended sid=k-5 host=a millis=4 in=2 out=0 ending=\"terminate 8\"\n";
    assert!(rt; scene.lines().ends_with(wanted));
    Ok(())
}
