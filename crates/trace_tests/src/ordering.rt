// In which order lines are written, whatever order they were seen in.
use crate::pages::audit;
use crate::scene::{Scene, Step};
use std::test::Fail;

/// A creation, its answer with the greeting, and an echo of one stanza.
pub const ECHO: &[Step] = &[
    Step::Create(0, 7),
    Step::Created(0, "<hello/>"),
    Step::Post(0, 8, "<a/>"),
    Step::In("<a/>"),
    Step::Gave("<b/>"),
    Step::Answer(0, "<b/>"),
    Step::Closed,
];

// An answer that was lost, and its repeat.
const LOST: &[Step] = &[
    Step::Create(0, 7),
    Step::Created(0, "<hello/>"),
    Step::Post(0, 8, "<a/>"),
    Step::In("<a/>"),
    Step::Gave("<b/>"),
    Step::Post(1, 8, "<a/>"),
    Step::Answer(1, "<b/>"),
    Step::Post(1, 9, ""),
    Step::Post(2, 8, "<a/>"),
    Step::Answer(2, "<b/>"),
    Step::Answer(1, ""),
    Step::Closed,
];

// Two connections whose answers are seen in the wrong order, and the creation's last.
const CROSSED: &[Step] = &[
    Step::Create(0, 7),
    Step::Post(1, 8, "<a/>"),
    Step::Post(2, 9, "<c/>"),
    Step::In("<a/>"),
    Step::In("<c/>"),
    Step::Gave("<b/>"),
    Step::Gave("<d/>"),
    Step::Answer(2, "<d/>"),
    Step::Answer(1, "<b/>"),
    Step::Created(0, "<hello/>"),
    Step::Closed,
];

// A copy that came before those below it, twice, and a restart.
const GAP: &[Step] = &[
    Step::Create(0, 7),
    Step::Created(0, "<hello/>"),
    Step::Post(1, 9, "<c/>"),
    Step::Post(2, 9, "<c/>"),
    Step::Post(0, 8, "<a/>"),
    Step::In("<a/>"),
    Step::In("<c/>"),
    Step::Strange(1, 10),
    Step::Post(0, 10, ""),
    Step::Answer(0, ""),
    Step::Ended(0),
    Step::Closed,
];

#[test]
fn each_trace_holds(rt: HostRuntime) -> Result<(), Fail> {
    let rows: [(&[Step], &[u8]); 4] = [
        (ECHO, b"yes 2 1 0\n"),
        (LOST, b"yes 3 1 0\n"),
        (CROSSED, b"yes 3 2 0\n"),
        (GAP, b"yes 4 2 0\n"),
    ];
    for (steps, wanted) in rows {
        let mut scene = Scene::new(rt.alloc())?;
        scene.see(&rt, steps, 0)?;
        scene.hear(&rt, 2000);
        let report = audit(rt.alloc(), scene.page())?;
        assert!(rt; report.as_slice() == wanted, "of {steps:?}");
    }
    Ok(())
}

#[test]
fn a_trace_is_written_so(rt: HostRuntime) -> Result<(), Fail> {
    let mut scene = Scene::new(rt.alloc())?;
    scene.see(&rt, ECHO, 0)?;
    scene.hear(&rt, 2000);
    let wanted: &[u8] =
        b"gave <hello/>\nsent <body rid='7' to='a' xmlns='http://jabber.org/protocol/httpbind'/>\ncame <body rid='7' to='a' xmlns='http://jabber.org/protocol/httpbind'/>\nanswer 7 <body sid='k-5' xmlns='http://jabber.org/protocol/httpbind'><hello/></body>\nsent <body rid='8' sid='k-5' xmlns='http://jabber.org/protocol/httpbind'><a/></body>\ncame <body rid='8' sid='k-5' xmlns='http://jabber.org/protocol/httpbind'><a/></body>\nin <a/>\ngave <b/>\nanswer 8 <body xmlns='http://jabber.org/protocol/httpbind'><b/></body>\nend\n";
    assert!(rt; scene.page() == wanted);
    Ok(())
}
