// The lines of sessions, back ends and counts.
use crate::scene::{Scene, Step};
use std::test::Fail;

#[test]
fn each_step_has_its_lines(rt: HostRuntime) -> Result<(), Fail> {
    let rows: [(&[Step], &[u8]); 9] = [
        (
            &[Step::Opened(5, "echo.localhost", 0)],
            b"at=T event=opened sid=k-5 host=echo.localhost\n",
        ),
        (
            &[
                Step::Opened(5, "a", 1000),
                Step::Carried(5, 3, 4),
                Step::Terminated(5, 1009, 4500),
            ],
            b"at=T event=opened sid=k-5 host=a\nat=T event=ended sid=k-5 host=a millis=3500 in=3 out=4 ending=\"terminate 1009\"\n",
        ),
        (
            &[Step::Opened(5, "a", 1), Step::Silenced(5, 30_002)],
            b"at=T event=opened sid=k-5 host=a\nat=T event=ended sid=k-5 host=a millis=30001 in=0 out=0 ending=\"silent 1 30002\"\n",
        ),
        (
            &[
                Step::Opened(5, "a", 0),
                Step::Opened(6, "b c", 0),
                Step::Carried(5, 1, 0),
                Step::Carried(6, 0, 2),
                Step::Carried(5, 1, 1),
                Step::Terminated(5, 2, 7),
            ],
            b"at=T event=opened sid=k-5 host=a\nat=T event=opened sid=k-6 host=\"b c\"\nat=T event=ended sid=k-5 host=a millis=7 in=2 out=1 ending=\"terminate 2\"\n",
        ),
        (
            &[Step::Terminated(7, 2, 7)],
            b"at=T event=ended sid=k-7 ending=\"terminate 2\"\n",
        ),
        (&[Step::Carried(7, 1, 1)], b""),
        (
            &[Step::Failed("a", true), Step::Failed("a", true)],
            b"at=T event=backend-failed host=a replaced=yes count=1\nat=T event=backend-failed host=a replaced=yes count=1\n",
        ),
        (
            &[Step::Failed("a", false), Step::Failed("a", false)],
            b"at=T event=backend-failed host=a replaced=no count=1\n",
        ),
        (&[Step::Lost, Step::Lost], b"at=T event=dropped count=2\n"),
    ];
    for (steps, wanted) in rows {
        let mut scene = Scene::new(rt.alloc())?;
        scene.see(&rt, steps, 0)?;
        assert!(rt; scene.lines() == wanted, "of {steps:?}");
    }
    Ok(())
}

#[test]
fn the_counts_are_told_each_minute(rt: HostRuntime) -> Result<(), Fail> {
    let mut scene = Scene::new(rt.alloc())?;
    scene.see(&rt, &[Step::Opened(1, "a", 0), Step::Opened(2, "a", 0)], 1)?;
    let more = [Step::Counted(7), Step::Terminated(1, 9, 5), Step::Lost];
    scene.see(&rt, &more, 59_999)?;
    let wanted: &[u8] = b"at=T event=dropped count=1\n";
    assert!(rt; scene.lines().ends_with(wanted));
    assert_eq!(rt; scene.writer.rest(59_999), 1);
    scene.see(&rt, &[], 60_000)?;
    scene.see(&rt, &[], 60_001)?;
    let wanted: &[u8] =
        b"event=dropped count=1\nat=T event=counts live=1 connections=1 parked=1 requests=7 opened=2 ended=1 memory_kib=4096 dropped=1\n";
    assert!(rt; scene.lines().ends_with(wanted));
    Ok(())
}
