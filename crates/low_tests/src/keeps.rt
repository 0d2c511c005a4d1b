ghost use Rattle.std.specs.Prelude.{◌≡◌, ◌≤◌};
ghost use Rattle.bosh_types.specs.Rid.{IsRid};

use bosh_types::{Moment, Rid, SharedText, Text};
use reply_keep::{Keep, KeptAnswer};
use std::alloc::{AllocError, Global};
use std::process::Abort;
use std::test::Fail;

const GREATEST: u64 = 9007199254740991;

// An answer that is put at the next id, or an acknowledgement.
#[derive(Clone, Copy)]
enum Step {
    Put,
    Ack(u64),
}

fn rid(rt: &impl Abort, value: u64) -> Rid
    ensures value { result ≡ value }
    ensures in_range { IsRid result }
{
    let rid = Rid::new(value).expect(rt, "a request id");
    let _value = rid.value();
    rid
}

// An answer that is told by its moment.
fn answer(alloc: Global, given: u64) -> Result<KeptAnswer, AllocError> {
    Ok(KeptAnswer {
        bytes: SharedText::new(alloc, Text::from_vec(Vec::from_slice(alloc, b"<body/>")?))?,
        given: Moment::from_millis(given),
        payloads: 0,
    })
}

fn told(answer: Option<&KeptAnswer>) -> Option<u64> {
    match answer {
        Some(kept) => Some(kept.given.millis()),
        None => None,
    }
}

fn lowest(keep: &Keep) -> Option<u64> {
    match keep.lowest() {
        Some(rid) => Some(rid.value()),
        None => None,
    }
}

// A keep after some steps, the first id being this one, and what the last put handed back.
fn after(
    rt: &impl Abort,
    alloc: Global,
    size: u32,
    first: u64,
    steps: &[Step],
) -> Result<(Keep, Option<u64>), AllocError>
    requires some { 1 ≤ size }
    requires few { size ≤ 16 }
{
    let mut keep = Keep::new(alloc, size)?;
    let mut value = first;
    let mut out = None;
    for step in steps {
        match step {
            Step::Put => {
                let id = rid(rt, value);
                let kept = answer(alloc, value)?;
                let fallen = keep.put(id, kept);
                out = told(fallen.as_ref());
                value += 1;
            }
            Step::Ack(ack) => keep.acknowledged(rid(rt, *ack)),
        }
    }
    Ok((keep, out))
}

#[test]
fn keeps_the_last_answers(rt: HostRuntime) -> Result<(), Fail> {
    // the room, the first id, how many answers are put, what falls out at last, and what is kept then
    let rows = [
        (2, 1, 1, None, [(1, Some(1)), (2, None), (3, None)]),
        (2, 1, 2, None, [(1, Some(1)), (2, Some(2)), (3, None)]),
        (2, 1, 3, Some(1), [(1, None), (2, Some(2)), (3, Some(3))]),
        (2, 1, 4, Some(2), [(2, None), (3, Some(3)), (4, Some(4))]),
        (1, 7, 2, Some(7), [(7, None), (8, Some(8)), (9, None)]),
        (
            16,
            GREATEST - 1,
            2,
            None,
            [
                (1, None),
                (GREATEST - 1, Some(GREATEST - 1)),
                (GREATEST, Some(GREATEST)),
            ],
        ),
        (
            1,
            GREATEST - 1,
            2,
            Some(GREATEST - 1),
            [(1, None), (GREATEST - 1, None), (GREATEST, Some(GREATEST))],
        ),
    ];
    let steps = [Step::Put, Step::Put, Step::Put, Step::Put];
    for (size, first, puts, fallen, kept) in rows {
        assert!(rt; 1 <= size && size <= 16 && puts <= 4);
        let (keep, out) = after(&rt, rt.alloc(), size, first, &steps[..puts])?;
        assert_eq!(rt; out, fallen, "{puts} from {first}");
        for (value, want) in kept {
            assert_eq!(rt;
                told(keep.find(rid(&rt, value))),
                want,
                "{value} of {puts} from {first}"
            );
        }
    }
    Ok(())
}

#[test]
fn drops_what_is_acknowledged(rt: HostRuntime) -> Result<(), Fail> {
    let before_any = [Step::Ack(9), Step::Put, Step::Put, Step::Put];
    let below = [Step::Put, Step::Put, Step::Put, Step::Ack(1)];
    let worked = [Step::Put, Step::Put, Step::Put, Step::Ack(2)];
    let to_come = [Step::Put, Step::Put, Step::Ack(GREATEST), Step::Put];
    // what falls out at last, and what is kept of the ids 2 and 3
    let rows = [
        (&before_any, Some(1), [Some(2), Some(3)]),
        (&below, Some(1), [Some(2), Some(3)]),
        (&worked, Some(1), [None, Some(3)]),
        (&to_come, None, [None, Some(3)]),
    ];
    for (row, (steps, fallen, kept)) in rows.into_iter().enumerate() {
        let (keep, out) = after(&rt, rt.alloc(), 2, 1, steps)?;
        assert_eq!(rt; out, fallen, "row {row}");
        assert_eq!(rt; told(keep.find(rid(&rt, 2))), kept[0], "row {row}");
        assert_eq!(rt; told(keep.find(rid(&rt, 3))), kept[1], "row {row}");
    }
    Ok(())
}

#[test]
fn tells_the_lowest_kept_id(rt: HostRuntime) -> Result<(), Fail> {
    let none = [Step::Ack(9)];
    let one = [Step::Put];
    let fallen = [Step::Put, Step::Put, Step::Put];
    let acknowledged = [Step::Put, Step::Put, Step::Put, Step::Ack(8)];
    let all = [Step::Put, Step::Put, Step::Ack(9)];
    let after_all = [Step::Put, Step::Put, Step::Ack(9), Step::Put];
    // of a keep of two answers, the first of which is that of 7
    let rows = [
        (none.as_slice(), None),
        (&one, Some(7)),
        (&fallen, Some(8)),
        (&acknowledged, Some(9)),
        (&all, None),
        (&after_all, Some(9)),
    ];
    for (row, (steps, want)) in rows.into_iter().enumerate() {
        let (keep, _) = after(&rt, rt.alloc(), 2, 7, steps)?;
        assert_eq!(rt; lowest(&keep), want, "row {row}");
        assert_eq!(rt; lowest(&keep.copied(rt.alloc())?), want, "row {row}");
    }
    Ok(())
}
