use bosh_types::{Moment, Terms};
use pause_rules::{Deadlines, Mark, PauseSet};

// The terms of a creation that asks for nothing, and those of one that asks to poll.
fn terms(polled: bool) -> Terms {
    Terms {
        wait: if polled { 0 } else { 60 },
        hold: if polled { 0 } else { 1 },
        requests: if polled { 1 } else { 2 },
        inactivity: if polled { 75 } else { 30 },
        polling: 5,
        maxpause: 120,
        version: (1, 6),
        polled,
    }
}

#[test]
fn held_requests_are_due(rt: HostRuntime) {
    let rows = [
        (1000, 60999, false),
        (1000, 61000, true),
        (61000, 1000, false),
        (0, 0, false),
        (0, u64::MAX, true),
        (u64::MAX, u64::MAX, false),
        (u64::MAX - 60000, u64::MAX, true),
    ];
    let deadlines = Deadlines::new(terms(false));
    for (arrived, now, want) in rows {
        let due = deadlines.wait_due(Moment::from_millis(arrived), Moment::from_millis(now));
        assert_eq!(rt; due, want, "from {arrived} to {now}");
    }
    let polling = Deadlines::new(terms(true));
    assert!(rt; polling.wait_due(Moment::from_millis(7), Moment::from_millis(7)));
}

#[test]
fn silence_ends(rt: HostRuntime) {
    // the pause asked for, the quiet moment, now, and whether the silence was too long
    let rows = [
        (None, 0, 30000, false),
        (None, 0, 30001, true),
        (None, 20000, 50000, false),
        (None, 20000, 50001, true),
        (Some(120), 0, 120000, false),
        (Some(120), 0, 120001, true),
        (Some(121), 0, 30001, true),
        (Some(0), 5, 5, false),
        (Some(0), 5, 6, true),
        (None, u64::MAX, 0, false),
        (None, u64::MAX - 1, u64::MAX, false),
        (None, 0, u64::MAX, true),
    ];
    for (pause, quiet, now, want) in rows {
        let mut deadlines = Deadlines::new(terms(false));
        if let Some(seconds) = pause {
            let set = deadlines.pause(seconds);
            assert_eq!(rt;
                set == PauseSet::Set,
                seconds <= 120,
                "a pause of {seconds}"
            );
        }
        let quiet_at = Moment::from_millis(quiet);
        let due = deadlines.silent_due(quiet_at, Moment::from_millis(now));
        assert_eq!(rt; due, want, "{pause:?} from {quiet} to {now}");
        deadlines.usual();
        assert!(rt; deadlines.silent_due(Moment::from_millis(0), Moment::from_millis(30001)));
    }
}

// A request with no payload in its answer.
fn mark(arrived: u64, empty: bool) -> Mark {
    Mark {
        arrived: Moment::from_millis(arrived),
        empty,
        creation: false,
        bare: true,
    }
}

#[test]
fn holds_back_empty_requests(rt: HostRuntime) {
    // how many are held, the two arrivals, whether each is empty, and how far they lie apart if that is too close
    let rows = [
        (1, 5999, 1000, true, false, Some(4999)),
        (1, 6000, 1000, true, false, None),
        (1, 1000, 5999, true, false, Some(4999)),
        (1, 5999, 1000, false, true, None),
        (0, 5999, 1000, true, true, None),
        (2, u64::MAX, u64::MAX, true, true, Some(0)),
        (1, u64::MAX, 0, true, true, None),
        (1, 0, u64::MAX, true, true, None),
    ];
    let deadlines = Deadlines::new(terms(false));
    for (held, this, prior, empty, prior_empty, want) in rows {
        let apart = deadlines.overactive(held, mark(this, empty), mark(prior, prior_empty));
        assert_eq!(rt; apart, want, "{held} held, {this} after {prior}");
    }
}

#[test]
fn holds_back_polls(rt: HostRuntime) {
    // when it came, whether it is empty, whether the one before it at 10000 created the session, is empty, and was
    // answered without payloads, and how far they lie apart if that is too close
    let rows = [
        (13000, true, false, true, true, Some(3000)),
        (14999, true, false, true, true, Some(4999)),
        (15000, true, false, true, true, None),
        (13000, false, false, true, true, None),
        (13000, true, true, true, true, None),
        (13000, true, false, false, true, None),
        (13000, true, false, true, false, None),
    ];
    let deadlines = Deadlines::new(terms(true));
    for (arrived, empty, creation, prior_empty, bare, want) in rows {
        let prior = Mark {
            arrived: Moment::from_millis(10000),
            empty: prior_empty,
            creation,
            bare,
        };
        let apart = deadlines.overactive(0, mark(arrived, empty), prior);
        assert_eq!(rt; apart, want, "at {arrived} after {prior:?}");
    }
}
