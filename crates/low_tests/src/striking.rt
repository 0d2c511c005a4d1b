use bosh_types::Rid;
use rid_window::Window;
use std::process::Abort;
use std::test::Fail;

fn id(rt: &impl Abort, value: u64) -> Rid {
    Rid::new(value).expect(rt, "a request id")
}

#[test]
fn strikes_what_was_not_taken(rt: HostRuntime) -> Result<(), Fail> {
    // an id, and the item that is struck of it; each is looked for in turn in one window of which 1001 was taken, and
    // 1003 and 1004 stand beyond the gap
    let rows = [
        (1, None),
        (1001, None),
        (1002, None),
        (1003, Some(3)),
        (1003, None),
        (1005, None),
        (9007199254740991, None),
        (1004, Some(4)),
    ];
    let mut window: Window<u8> = Window::new(rt.alloc(), id(&rt, 1001), 3)?;
    for (value, item) in [(1001, 1), (1003, 3), (1004, 4)] {
        let _ = window.place(id(&rt, value), true, item);
    }
    let _ = window.take_ready();
    for (value, want) in rows {
        assert_eq!(rt; window.strike(id(&rt, value)), want, "{value}");
    }
    Ok(())
}

#[test]
fn a_struck_id_comes_again(rt: HostRuntime) -> Result<(), Fail> {
    let mut window: Window<u8> = Window::new(rt.alloc(), id(&rt, 1001), 2)?;
    let _ = window.place(id(&rt, 1002), false, 2);
    let _ = window.strike(id(&rt, 1002));
    for (value, item) in [(1001, 1), (1002, 9)] {
        let _ = window.place(id(&rt, value), false, item);
    }
    for (value, item) in [(1001, 1), (1002, 9)] {
        assert_eq!(rt; window.take_ready(), Some((id(&rt, value), item)));
    }
    Ok(())
}
