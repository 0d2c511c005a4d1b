// A trace with one line dropped, doubled or exchanged mostly isn't a yes.
use crate::ordering::ECHO;
use crate::pages::audit;
use crate::scene::Scene;
use std::alloc::{AllocError, Global};
use std::test::Fail;

#[derive(Clone, Copy, Debug, PartialEq, Eq)]
enum Change {
    Dropped,
    Doubled,
    Exchanged,
}

fn put(into: &mut Vec<u8>, line: &[u8]) -> Result<(), AllocError> {
    into.extend_from_slice(line)?;
    into.extend_from_slice(b"\n")
}

// The trace with the line at this place changed so.
fn changed(
    alloc: Global,
    trace: &[u8],
    place: usize,
    change: Change,
) -> Result<Vec<u8>, AllocError> {
    let mut lines = Vec::new(alloc);
    for line in trace.split(|byte| *byte == b'\n') {
        lines.push(line)?;
    }
    if change == Change::Exchanged && place < lines.len().saturating_sub(1) {
        lines.swap(place, place + 1);
    }
    let mut text = Vec::new(alloc);
    for (at, line) in lines.iter().enumerate() {
        if at != place || change != Change::Dropped {
            put(&mut text, line)?;
        }
        if at == place && change == Change::Doubled {
            put(&mut text, line)?;
        }
    }
    Ok(text)
}

#[test]
fn a_change_is_mostly_seen(rt: HostRuntime) -> Result<(), Fail> {
    let mut scene = Scene::new(rt.alloc())?;
    scene.see(&rt, ECHO, 0)?;
    scene.hear(&rt, 2000);
    // Of nine lines these stay a yes: what is dropped at the end, what is doubled without harm, and what may be exchanged.
    let rows = [
        (Change::Dropped, 7),
        (Change::Doubled, 4),
        (Change::Exchanged, 5),
    ];
    for (change, wanted) in rows {
        let mut noes: u32 = 0;
        for place in 0..9 {
            let text = changed(rt.alloc(), scene.page(), place, change)?;
            if !audit(rt.alloc(), text.as_slice())?.starts_with(b"yes") {
                noes = noes.saturating_add(1);
            }
        }
        assert_eq!(rt; noes, wanted, "of {change:?}");
    }
    Ok(())
}
