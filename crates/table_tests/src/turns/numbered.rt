// Turns for some sessions alone.
use super::{
    EMPTY, LAST, NEXT, STANZA, Scene, arrive, arrive_for, holds, host, many, open, set_up, turn,
    waiting,
};
use bosh_ports::SteadyBell;
use bosh_types::Moment;
use server_ports::StillClock;
use std::alloc::AllocError;
use std::sync::Wait;
use std::test::Fail;
use xmpp_backend::{Echo, InMemory};

const ENDS: &[u8] =
    b"<body rid='1002' sid='s1' type='terminate' xmlns='http://jabber.org/protocol/httpbind'/>";

/// A turn of the pump for these sessions at its first moment.
fn turn_for<R: Wait>(rt: &R, scene: &mut Scene, numbers: &[u64]) -> Result<(), AllocError> {
    turn_for_at(rt, scene, numbers, 0)
}

/// The same at this moment.
fn turn_for_at<R: Wait>(
    rt: &R,
    scene: &mut Scene,
    numbers: &[u64],
    at: u64,
) -> Result<(), AllocError> {
    let clock = StillClock {
        moment: Moment::from_millis(at),
    };
    let mut bell = SteadyBell;
    scene
        .pump
        .turn_for(rt, &scene.directory, &clock, &mut bell, numbers)
}

#[test]
fn only_the_sessions_of_the_list_are_served(rt: HostRuntime) -> Result<(), Fail> {
    let alloc = rt.alloc();
    let host = host(alloc, InMemory::Echo(Echo::new(alloc)), Vec::new(alloc))?;
    let mut scene = set_up(&rt, alloc, host)?;
    open(&rt, &mut scene)?;
    open(&rt, &mut scene)?;
    let body = many(alloc, 3)?;
    arrive_for(&rt, &mut scene, 2, &body, 0)?;
    let nobody: [u64; 0] = [];
    let rows: [(&[u64], u32); 5] = [
        (&nobody, 0),
        (&[1], 0),
        (&[3], 0),
        (&[1, 2], 2),
        (&[2, 2], 2),
    ];
    for (numbers, count) in rows {
        turn_for(&rt, &mut scene, numbers)?;
        assert_eq!(rt; waiting(&rt, &mut scene, 2), Some(count));
    }
    Ok(())
}

#[test]
fn a_session_that_has_ended_is_removed_by_its_number(rt: HostRuntime) -> Result<(), Fail> {
    let alloc = rt.alloc();
    let host = host(alloc, InMemory::Echo(Echo::new(alloc)), Vec::new(alloc))?;
    let mut scene = set_up(&rt, alloc, host)?;
    open(&rt, &mut scene)?;
    turn_for(&rt, &mut scene, &[1])?;
    let was_held = holds(&scene.pump.purse, 1);
    arrive(&rt, &mut scene, LAST, 0)?;
    turn_for(&rt, &mut scene, &[1])?;
    assert_eq!(rt; (was_held, holds(&scene.pump.purse, 1)), (true, false));
    Ok(())
}

#[test]
fn who_is_due_is_told_by_number(rt: HostRuntime) -> Result<(), Fail> {
    let alloc = rt.alloc();
    let host = host(alloc, InMemory::Echo(Echo::new(alloc)), Vec::new(alloc))?;
    let mut scene = set_up(&rt, alloc, host)?;
    open(&rt, &mut scene)?;
    open(&rt, &mut scene)?;
    turn(&rt, &mut scene, 0)?;
    arrive(&rt, &mut scene, EMPTY, 0)?;
    scene.pump.note_all(&rt)?;
    let nobody: [u64; 0] = [];
    let rows: [(u64, &[u64]); 5] = [
        (30_000, &nobody),
        (30_001, &[2]),
        (59_999, &nobody),
        (60_000, &[1]),
        (99_999, &nobody),
    ];
    for (at, wanted) in rows {
        let mut numbers = Vec::new(alloc);
        scene
            .pump
            .take_due(&rt, Moment::from_millis(at), &mut numbers)?;
        assert_eq!(rt; numbers.as_slice(), wanted);
    }
    Ok(())
}

#[test]
fn the_first_due_moment_is_that_of_the_sessions_that_are_noted(
    rt: HostRuntime,
) -> Result<(), Fail> {
    let alloc = rt.alloc();
    let host = host(alloc, InMemory::Echo(Echo::new(alloc)), Vec::new(alloc))?;
    let mut scene = set_up(&rt, alloc, host)?;
    open(&rt, &mut scene)?;
    turn_for(&rt, &mut scene, &[1])?;
    let rows: [(&[u8], Option<u64>); 2] = [(EMPTY, Some(60_000)), (ENDS, None)];
    for (body, wanted) in rows {
        arrive(&rt, &mut scene, body, 0)?;
        turn_for(&rt, &mut scene, &[1])?;
        assert_eq!(rt; first_due(&scene), wanted);
    }
    Ok(())
}

/// The first moment that is noted, in milliseconds.
fn first_due(scene: &Scene) -> Option<u64> {
    scene.pump.first_due().map(|moment| moment.millis())
}

// Time passes for a session that is served, and doesn't for one that is left alone: what comes after that with an earlier moment counts
// from there.
#[test]
fn a_session_with_nothing_to_do_is_left_alone(rt: HostRuntime) -> Result<(), Fail> {
    let alloc = rt.alloc();
    let rows: [(Option<&[u8]>, &[u8], u64); 2] = [
        (None, EMPTY, 60_050),
        (Some(STANZA), NEXT, 60_100),
    ];
    for (first, next, wanted) in rows {
        let host = host(alloc, InMemory::Echo(Echo::new(alloc)), Vec::new(alloc))?;
        let mut scene = set_up(&rt, alloc, host)?;
        open(&rt, &mut scene)?;
        turn_for(&rt, &mut scene, &[1])?;
        if let Some(body) = first {
            arrive(&rt, &mut scene, body, 0)?;
        }
        turn_for_at(&rt, &mut scene, &[1], 100)?;
        arrive(&rt, &mut scene, next, 50)?;
        turn_for_at(&rt, &mut scene, &[1], 50)?;
        assert_eq!(rt; first_due(&scene), Some(wanted));
    }
    Ok(())
}
