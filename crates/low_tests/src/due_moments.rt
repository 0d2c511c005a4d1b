use bosh_types::{Moment, Terms};
use pause_rules::{Deadlines, DueIndex};
use std::alloc::AllocError;

// The terms of a session whose requests wait 60 seconds, and whose client may be silent for 30.
fn waiting_terms() -> Terms {
    Terms {
        wait: 60,
        hold: 1,
        requests: 2,
        inactivity: 30,
        polling: 5,
        maxpause: 120,
        version: (1, 6),
        polled: false,
    }
}

#[test]
fn first_moments_are_due(rt: HostRuntime) {
    // a moment, when a request of then has waited its time, and when a client that is quiet since then is silent for too long
    let rows = [
        (0, Some(60000), Some(30001)),
        (1000, Some(61000), Some(31001)),
        (u64::MAX - 60000, Some(u64::MAX), Some(u64::MAX - 29999)),
        (u64::MAX - 59999, None, Some(u64::MAX - 29998)),
        (u64::MAX - 30001, None, Some(u64::MAX)),
        (u64::MAX - 30000, None, None),
        (u64::MAX, None, None),
    ];
    let deadlines = Deadlines::new(waiting_terms());
    for (millis, wait, silent) in rows {
        let since = Moment::from_millis(millis);
        let told = (
            deadlines.wait_due_at(since).map(Moment::millis),
            deadlines.silent_due_at(since).map(Moment::millis),
        );
        assert_eq!(rt; told, (wait, silent), "{millis}");
    }
}

#[test]
fn the_first_is_due_next(rt: HostRuntime) -> Result<(), AllocError> {
    // a number, the moment that it is given or None to clear it, now, which number is due by now, and the first moment
    let rows = [
        (1, Some(50), 50, Some(1), Some(50)),
        (2, Some(40), 39, None, Some(40)),
        (3, Some(50), 39, None, Some(40)),
        (3, Some(50), 40, Some(2), Some(40)),
        (3, Some(50), 50, Some(2), Some(40)),
        (2, None, 50, Some(1), Some(50)),
        (2, None, 49, None, Some(50)),
        (1, Some(60), 60, Some(3), Some(50)),
        (3, Some(70), 60, Some(1), Some(60)),
        (3, Some(60), u64::MAX, Some(1), Some(60)),
        (0, Some(u64::MAX), 59, None, Some(60)),
        (1, None, 60, Some(3), Some(60)),
        (3, None, u64::MAX, Some(0), Some(u64::MAX)),
        (0, None, u64::MAX, None, None),
    ];
    let mut index = DueIndex::new(rt.alloc());
    for (number, moment, now, next, first) in rows {
        match moment {
            Some(millis) => index.set(number, Moment::from_millis(millis))?,
            None => index.clear(number),
        }
        let told = (
            index.next_due(Moment::from_millis(now)),
            index.first_due().map(Moment::millis),
        );
        assert_eq!(rt; told, (next, first), "{number}, {moment:?}, {now}");
    }
    Ok(())
}
