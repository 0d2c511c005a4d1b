use bosh_types::{Rid, Text};
use rid_window::{Placed, Window};
use std::alloc::AllocError;
use std::process::Abort;
use std::test::Fail;

const GREATEST: u64 = 9007199254740991;

fn rid(rt: &impl Abort, value: u64) -> Rid {
    Rid::new(value).expect(rt, "a request id")
}

// The answer's name, and the item that was handed back.
fn told(placed: Placed<u8>) -> (&'static str, Option<u8>) {
    match placed {
        Placed::Done => ("done", None),
        Placed::Below(item) => ("below", Some(item)),
        Placed::Repeat(item) => ("repeat", Some(item)),
        Placed::Above(item) => ("above", Some(item)),
    }
}

#[test]
fn places_within_the_window(rt: HostRuntime) -> Result<(), Fail> {
    let rows = [
        (1002, false, ("done", None)),
        (1002, false, ("repeat", Some(0))),
        (1003, false, ("above", Some(0))),
        (1003, true, ("done", None)),
        (1003, false, ("repeat", Some(0))),
        (1004, true, ("above", Some(0))),
        (1000, false, ("below", Some(0))),
        (1, true, ("below", Some(0))),
        (GREATEST, true, ("above", Some(0))),
    ];
    let mut window: Window<u8> = Window::new(rt.alloc(), rid(&rt, 1001), 2)?;
    for (value, extra, want) in rows {
        let placed = window.place(rid(&rt, value), extra, 0);
        assert_eq!(rt; told(placed), want, "{value}, {extra}");
    }
    Ok(())
}

#[test]
fn takes_in_the_order_of_ids(rt: HostRuntime) -> Result<(), Fail> {
    let mut window: Window<u8> = Window::new(rt.alloc(), rid(&rt, 1001), 2)?;
    let _ = window.place(rid(&rt, 1003), true, 3);
    let _ = window.place(rid(&rt, 1002), false, 2);
    assert_eq!(rt; window.take_ready(), None);
    assert_eq!(rt; window.next(), Some(rid(&rt, 1001)));
    let _ = window.place(rid(&rt, 1001), false, 1);
    for (value, item) in [(1001, 1), (1002, 2), (1003, 3)] {
        assert_eq!(rt; window.take_ready(), Some((rid(&rt, value), item)));
        let again = window.place(rid(&rt, value), false, 9);
        assert_eq!(rt; told(again), ("below", Some(9)), "{value}");
    }
    assert_eq!(rt; window.take_ready(), None);
    assert_eq!(rt; window.next(), Some(rid(&rt, 1004)));
    Ok(())
}

#[test]
fn ends_after_the_greatest_id(rt: HostRuntime) -> Result<(), Fail> {
    let mut window: Window<u8> = Window::new(rt.alloc(), rid(&rt, GREATEST - 1), 16)?;
    for (value, item) in [(GREATEST - 1, 1), (GREATEST, 2)] {
        assert_eq!(rt;
            told(window.place(rid(&rt, value), false, item)),
            ("done", None)
        );
    }
    for (value, item) in [(GREATEST - 1, 1), (GREATEST, 2)] {
        assert_eq!(rt; window.take_ready(), Some((rid(&rt, value), item)));
    }
    assert_eq!(rt; window.next(), None);
    assert_eq!(rt; window.take_ready(), None);
    for value in [1, GREATEST] {
        assert_eq!(rt;
            told(window.place(rid(&rt, value), true, 3)),
            ("below", Some(3))
        );
    }
    Ok(())
}

#[test]
fn begins_at_the_least_id(rt: HostRuntime) -> Result<(), Fail> {
    let mut window: Window<(u8, bool)> = Window::new(rt.alloc(), rid(&rt, 1), 1)?;
    let _ = window.place(rid(&rt, 1), false, (7, true));
    assert_eq!(rt; window.take_ready(), Some((rid(&rt, 1), (7, true))));
    assert_eq!(rt; window.next(), Some(rid(&rt, 2)));
    Ok(())
}

#[test]
fn looks_without_taking(rt: HostRuntime) -> Result<(), Fail> {
    let mut window: Window<Text> = Window::new(rt.alloc(), rid(&rt, GREATEST - 1), 2)?;
    assert_eq!(rt;
        (window.first().is_some(), window.is_clear()),
        (false, true)
    );
    let text = |bytes: &[u8]| -> Result<Text, AllocError> {
        Ok(Text::from_vec(Vec::from_slice(rt.alloc(), bytes)?))
    };
    let _ = window.place(rid(&rt, GREATEST), false, text(b"last")?);
    assert_eq!(rt;
        (window.first().is_some(), window.is_clear()),
        (false, false)
    );
    let _ = window.place(rid(&rt, GREATEST - 1), false, text(b"first")?);
    let mut copy = window.copied(rt.alloc())?;
    for _ in 0..2 {
        let _ = window.take_ready();
    }
    assert_eq!(rt;
        (window.next(), window.first().is_some(), window.is_clear()),
        (None, false, true)
    );
    assert_eq!(rt;
        copy.first().map(|text| text.as_slice()),
        Some(b"first".as_slice())
    );
    for (value, bytes) in [(GREATEST - 1, b"first".as_slice()), (GREATEST, b"last")] {
        match copy.take_ready() {
            Some((id, text)) => assert_eq!(rt; (id.value(), text.as_slice()), (value, bytes)),
            None => assert!(rt; false, "{value}"),
        }
    }
    Ok(())
}
