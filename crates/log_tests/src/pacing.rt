// Refusals are told at most once a second of a kind, with their count.
use crate::scene::{Scene, Step};
use serve_log::Pace;
use server_watch::Limit;
use std::test::Fail;

#[test]
fn refusals_are_counted_together(rt: HostRuntime) -> Result<(), Fail> {
    let mut scene = Scene::new(rt.alloc())?;
    scene.see(&rt, &[Step::Refused(Limit::Sessions, 2)], 5)?;
    let two = [
        Step::Refused(Limit::Sessions, 3),
        Step::Refused(Limit::Connections, 1),
    ];
    scene.see(&rt, &two, 900)?;
    scene.see(&rt, &[Step::Refused(Limit::Sessions, 1)], 1004)?;
    scene.see(&rt, &[], 1005)?;
    scene.see(&rt, &[], 2500)?;
    let others = [
        Step::Refused(Limit::Openings, 1),
        Step::Refused(Limit::Incoming, 1),
    ];
    scene.see(&rt, &others, 2500)?;
    let wanted: &[u8] =
        b"at=T event=refused limit=sessions count=2\nat=T event=refused limit=open count=1\nat=T event=refused limit=sessions count=4\nat=T event=refused limit=incoming count=1\nat=T event=refused limit=openings count=1\n";
    assert!(rt; scene.lines() == wanted);
    Ok(())
}

#[test]
fn a_pace_tells_when_it_is_due(rt: HostRuntime) -> Result<(), Fail> {
    // What comes, the moment, what is told, and how long there is nothing to be told.
    let rows = [
        (0, 0, 0, None),
        (3, 10, 3, None),
        (2, 500, 0, Some(510)),
        (1, 1009, 0, Some(1)),
        (0, 1010, 3, None),
        (0, 9999, 0, None),
        (5, 10_000, 5, None),
    ];
    let mut pace = Pace::new();
    for (more, now, told, rest) in rows {
        pace.add(more);
        assert_eq!(rt;
            (pace.take_due(now), pace.rest(now)),
            (told, rest),
            "at {now}"
        );
    }
    Ok(())
}
