use bosh_types::{Inward, SharedText, Stanzas, StreamNo, Text, Wire};
use std::alloc::{AllocError, Global};
use std::process::Abort;
use std::test::Fail;
use xmpp_backend::{
    Backend, BackendCall, Echo, Failing, Passed, Polled, Room, Scripted, are_answers,
};

// A call, and what it is to answer.
#[derive(Clone, Copy)]
enum Row {
    Open(u32, Passed),
    Pass(u32, &'static str, Passed),
    Restart(u32, Passed),
    Close(u32, Passed),
    Gives(u32, &'static str),
    Idle,
    Fails,
}

// The unnamed stream of the session with this opening number.
fn wire(opening: u32) -> Wire {
    Wire::new(opening, StreamNo::unnamed())
}

fn text(alloc: Global, text: &str) -> Result<Text, AllocError> {
    Ok(Text::from_vec(Vec::from_slice(alloc, text.as_bytes())?))
}

fn item(alloc: Global, stanza: &str) -> Result<Inward, AllocError> {
    let stanza = SharedText::new(alloc, text(alloc, stanza)?)?;
    Ok(Inward::Item(StreamNo::unnamed(), stanza))
}

// Makes one call, and compares what it answers.
fn call<B: Backend, R: Abort>(
    rt: &R,
    alloc: Global,
    end: &mut B,
    row: Row,
    at: usize,
) -> Result<(), AllocError> {
    match row {
        Row::Open(opening, want) => {
            assert_eq!(rt; end.open(wire(opening), b"a.example"), want, "at {at}")
        }
        Row::Pass(opening, stanza, want) => {
            let item = item(alloc, stanza)?;
            assert_eq!(rt; end.pass(wire(opening), &item), want, "at {at}")
        }
        Row::Restart(opening, want) => {
            let item = Inward::Restart(StreamNo::unnamed());
            assert_eq!(rt; end.pass(wire(opening), &item), want, "at {at}")
        }
        Row::Close(opening, want) => { assert_eq!(rt; end.close(wire(opening)), want, "at {at}") }
        Row::Gives(opening, want) => match end.poll() {
            Polled::Out(given, stanza) => {
                assert_eq!(rt;
                    (given, stanza.as_slice()),
                    (wire(opening), want.as_bytes()),
                    "at {at}"
                )
            }
            _ => assert!(rt; false, "at {at}"),
        },
        Row::Idle => assert!(rt; matches!(end.poll(), Polled::Nothing), "at {at}"),
        Row::Fails => assert!(rt; matches!(end.poll(), Polled::Failed), "at {at}"),
    }
    Ok(())
}

const DONE: Passed = Passed::Done;

#[test]
fn an_echo_gives_back_on_the_wire(rt: HostRuntime) -> Result<(), Fail> {
    let mut end = Echo::new(rt.alloc());
    let rows = [
        Row::Idle,
        Row::Pass(1, "<a/>", DONE),
        Row::Open(1, DONE),
        Row::Open(2, DONE),
        Row::Open(1, DONE),
        Row::Pass(2, "<a/>", DONE),
        Row::Pass(1, "<b>&lt;</b>", DONE),
        Row::Pass(1, "<a", DONE),
        Row::Restart(2, DONE),
        Row::Pass(2, "<c/>", DONE),
        Row::Gives(2, "<a/>"),
        Row::Gives(1, "<b>&lt;</b>"),
        Row::Gives(2, "<stream:features/>"),
        Row::Pass(1, "<d/>", DONE),
        Row::Close(2, DONE),
        Row::Pass(2, "<e/>", DONE),
        Row::Gives(1, "<d/>"),
        Row::Open(2, DONE),
        Row::Idle,
    ];
    for (at, row) in rows.into_iter().enumerate() {
        call(&rt, rt.alloc(), &mut end, row, at)?;
    }
    Ok(())
}

#[test]
fn a_room_gives_to_all(rt: HostRuntime) -> Result<(), Fail> {
    let mut end = Room::new(rt.alloc());
    let rows = [
        Row::Open(3, DONE),
        Row::Open(1, DONE),
        Row::Open(2, DONE),
        Row::Pass(1, "<a/>", DONE),
        Row::Restart(1, DONE),
        Row::Pass(4, "<b/>", DONE),
        Row::Pass(1, "<b></a>", DONE),
        Row::Gives(3, "<a/>"),
        Row::Close(2, DONE),
        Row::Pass(3, "<c/>", DONE),
        Row::Gives(1, "<a/>"),
        Row::Gives(3, "<c/>"),
        Row::Gives(1, "<c/>"),
        Row::Idle,
    ];
    for (at, row) in rows.into_iter().enumerate() {
        call(&rt, rt.alloc(), &mut end, row, at)?;
    }
    Ok(())
}

#[test]
fn a_script_gives_and_fails_as_listed(rt: HostRuntime) -> Result<(), Fail> {
    let alloc = rt.alloc();
    let first = vec![in alloc; text(alloc, "<x/>")?, text(alloc, "<y/>")?]?;
    let third = vec![in alloc; text(alloc, "<z/>")?]?;
    let none = Stanzas::from_vec(Vec::new(alloc));
    let answers = vec![in alloc; Stanzas::from_vec(first), none, Stanzas::from_vec(third)]?;
    let failing = [
        (BackendCall::Open, 2),
        (BackendCall::Pass, 2),
        (BackendCall::Poll, 1),
        (BackendCall::Poll, 5),
        (BackendCall::Close, 1),
    ];
    let mut listed = Vec::with_capacity(alloc, failing.len())?;
    for (call, number) in failing {
        listed.push(Failing { call, number })?;
    }
    assert!(rt; are_answers(alloc, &answers)?);
    let mut end = Scripted::new(alloc, answers, listed);
    let rows = [
        Row::Open(1, DONE),
        Row::Open(2, Passed::Failed),
        Row::Pass(1, "<a/>", DONE),
        Row::Pass(1, "<b/>", Passed::Failed),
        Row::Fails,
        Row::Gives(1, "<x/>"),
        Row::Restart(1, DONE),
        Row::Pass(1, "<c/>", DONE),
        Row::Gives(1, "<y/>"),
        Row::Gives(1, "<z/>"),
        Row::Fails,
        Row::Pass(1, "<d/>", DONE),
        Row::Idle,
        Row::Close(1, Passed::Failed),
        Row::Close(1, DONE),
    ];
    for (at, row) in rows.into_iter().enumerate() {
        call(&rt, alloc, &mut end, row, at)?;
    }
    Ok(())
}

#[test]
fn each_kind_goes_into_a_box(rt: HostRuntime) -> Result<(), Fail> {
    let alloc = rt.alloc();
    let (answers, failing) = (Vec::new(alloc), Vec::new(alloc));
    assert!(rt; are_answers(alloc, &answers)?);
    let mut ends: Vec<Box<dyn Backend + Send>> = Vec::new(alloc);
    ends.push(Box::new(alloc, Echo::new(alloc))?)?;
    ends.push(Box::new(alloc, Room::new(alloc))?)?;
    ends.push(Box::new(alloc, Scripted::new(alloc, answers, failing))?)?;
    for end in &mut ends {
        assert_eq!(rt; end.open(wire(1), b"a.example"), DONE);
        assert!(rt; matches!(end.poll(), Polled::Nothing));
    }
    Ok(())
}
