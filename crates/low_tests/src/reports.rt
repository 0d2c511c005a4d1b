ghost use Rattle.std.specs.Prelude.{◌≡◌};
ghost use Rattle.bosh_types.specs.Rid.{IsRid};

use ack_report::Acks;
use bosh_types::{Moment, Rid, SharedText, Text};
use reply_keep::{Keep, KeptAnswer};
use std::alloc::{AllocError, Global};
use std::process::Abort;
use std::test::Fail;

const GREATEST: u64 = 9007199254740991;

fn rid(rt: &impl Abort, value: u64) -> Rid
    ensures value { result ≡ value }
    ensures in_range { IsRid result }
{
    let rid = Rid::new(value).expect(rt, "a request id");
    let _value = rid.value();
    rid
}

// An answer without payloads.
fn answer(alloc: Global, given: u64) -> Result<KeptAnswer, AllocError> {
    Ok(KeptAnswer {
        bytes: SharedText::new(alloc, Text::from_vec(Vec::from_slice(alloc, b"<body/>")?))?,
        given: Moment::from_millis(given),
        payloads: 0,
    })
}

// The answers of three ids from this one on, given at 0 and at each second after it.
fn keep_of(rt: &impl Abort, alloc: Global, first: u64) -> Result<Keep, AllocError> {
    let mut keep = Keep::new(alloc, 3)?;
    let mut value = first;
    for seconds in 0..3 {
        let id = rid(rt, value);
        let kept = answer(alloc, seconds * 1000)?;
        let _ = keep.put(id, kept);
        value += 1;
    }
    Ok(keep)
}

fn told(acks: &Acks) -> Option<(u64, u64)> {
    match acks.report_due() {
        Some((missed, given)) => Some((missed.value(), given.millis())),
        None => None,
    }
}

#[test]
fn reports_what_was_lost(rt: HostRuntime) -> Result<(), Fail> {
    // the acknowledgement, if any, the moment, and the report that is due
    let rows = [
        (Some(1000), 1999, None),
        (Some(1000), 2000, Some((1001, 1000))),
        (Some(1000), u64::MAX, Some((1001, 1000))),
        (Some(1001), 2999, None),
        (Some(1001), 3000, Some((1002, 2000))),
        (Some(1002), 9000, None),
        (Some(1003), 9000, None),
        (Some(998), 9000, None),
        (Some(GREATEST), 9000, None),
        (None, 9000, None),
    ];
    for (ack, now, want) in rows {
        let mut acks = Acks::new(true);
        let mut kept = keep_of(&rt, rt.alloc(), 1000)?;
        let ack_id = ack.map(|value| rid(&rt, value));
        acks.on_request(
            rid(&rt, 1003),
            ack_id,
            &mut kept,
            rid(&rt, 1002),
            Moment::from_millis(now),
        );
        assert_eq!(rt; told(&acks), want, "{ack:?} at {now}");
        acks.reported();
        assert_eq!(rt; told(&acks), None);
    }
    Ok(())
}

#[test]
fn drops_what_was_acknowledged(rt: HostRuntime) -> Result<(), Fail> {
    // whether the client acknowledges, the acknowledgement, if any, and which answers are kept
    let rows = [
        (true, Some(999), [true, true, true]),
        (true, Some(1000), [false, true, true]),
        (true, Some(1001), [false, false, true]),
        (true, Some(1002), [false, false, false]),
        (true, None, [true, true, true]),
        (false, Some(1002), [true, true, true]),
    ];
    for (on, ack, want) in rows {
        let mut acks = Acks::new(on);
        let mut kept = keep_of(&rt, rt.alloc(), 1000)?;
        let ack_id = ack.map(|value| rid(&rt, value));
        acks.on_request(
            rid(&rt, 1003),
            ack_id,
            &mut kept,
            rid(&rt, 1002),
            Moment::from_millis(0),
        );
        for (value, stays) in [1000, 1001, 1002].into_iter().zip(want) {
            assert_eq!(rt;
                kept.find(rid(&rt, value)).is_some(),
                stays,
                "{value} after {ack:?}"
            );
        }
    }
    Ok(())
}

#[test]
fn later_reports_take_the_place_of_earlier_ones(rt: HostRuntime) -> Result<(), Fail> {
    let mut acks = Acks::new(true);
    let mut kept = keep_of(&rt, rt.alloc(), GREATEST - 2)?;
    let last = rid(&rt, GREATEST);
    for (ack, want) in [(2, GREATEST - 1), (1, GREATEST), (0, GREATEST)] {
        let ack_id = Some(rid(&rt, GREATEST.saturating_sub(ack)));
        acks.on_request(last, ack_id, &mut kept, last, Moment::from_millis(9000));
        assert_eq!(rt; told(&acks).map(|report| report.0), Some(want), "{ack}");
    }
    Ok(())
}

#[test]
fn answers_carry_acknowledgements(rt: HostRuntime) {
    let acks = Acks::new(false);
    for (answered, last, want) in [
        (1001, 1002, Some(1002)),
        (1002, 1002, None),
        (1, GREATEST, Some(GREATEST)),
    ] {
        let ack = acks.ack_for(rid(&rt, answered), rid(&rt, last));
        assert_eq!(rt; ack.map(|value| value.value()), want, "{answered}, {last}");
    }
}
