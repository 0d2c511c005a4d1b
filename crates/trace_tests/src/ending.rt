// When a trace ends, and what it says then.
use crate::scene::{Scene, Step};
use std::test::Fail;

const BEGUN: &[Step] = &[Step::Create(0, 7), Step::Created(0, "<hello/>")];

#[test]
fn what_cannot_be_told_ends_a_trace(rt: HostRuntime) -> Result<(), Fail> {
    let rows: [(&[Step], &[u8]); 6] = [
        (&[Step::Gave("<a>\n</a>")], b"line feed\n"),
        (&[Step::Post(0, 8, "<a>\n</a>")], b"line feed\n"),
        (&[Step::Post(0, 6, "")], b"lower id than the first\n"),
        (
            &[],
            b"answer 7 <body sid='k-5' xmlns='http://jabber.org/protocol/httpbind'><hello/></body>\n",
        ),
        (&[Step::Closed], b"\nend\n"),
        (&[Step::Post(0, 8, ""), Step::Ended(0)], b"\nend\n"),
    ];
    for (steps, wanted) in rows {
        let mut scene = Scene::new(rt.alloc())?;
        scene.see(&rt, BEGUN, 0)?;
        scene.see(&rt, steps, 1)?;
        // What comes behind it leaves nothing.
        scene.see(&rt, &[], 2001)?;
        assert!(rt; scene.page().ends_with(wanted), "of {steps:?}");
    }
    Ok(())
}

#[test]
fn what_found_no_room_ends_a_trace(rt: HostRuntime) -> Result<(), Fail> {
    for is_all in [false, true] {
        let mut scene = Scene::new(rt.alloc())?;
        scene.see(&rt, BEGUN, 0)?;
        match is_all {
            true => scene.queue.lose_all(&rt),
            false => scene.queue.lose(&rt, 5),
        }
        scene.see(&rt, &[Step::Gave("<a/>")], 1)?;
        let wanted: &[u8] =
            b"end\n# there was no room in the queue for something that was seen next\n";
        assert!(rt; scene.page().ends_with(wanted), "of {is_all}");
    }
    Ok(())
}

// A session whose file can't be had has no trace, and one whose name was never told has none.
#[test]
fn a_session_may_have_no_trace(rt: HostRuntime) -> Result<(), Fail> {
    let rows: [&[Step]; 2] = [
        &[Step::Create(0, 7), Step::Gave("<a/>"), Step::Closed],
        &[Step::Post(0, 7, ""), Step::Answer(0, "")],
    ];
    for steps in rows {
        let mut scene = Scene::new(rt.alloc())?;
        scene.see(&rt, steps, 0)?;
        scene.hear(&rt, 10_000);
        scene.hear(&rt, 20_000);
        assert!(rt;
            scene.page().is_empty() && scene.recorder.is_idle(),
            "of {steps:?}"
        );
    }
    Ok(())
}
