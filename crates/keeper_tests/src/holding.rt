// What waits until entries are stored: links and back ends.
use crate::entries::{note, opening, shared, stanza};
use bosh_ports::{Gave, MemoryLink, MemorySink, MemorySource, Polled, Waited};
use bosh_types::{Inward, SharedText, StreamNo, Wire};
use entry_queue::EntryQueue;
use serve_journal::{HeldBackend, HeldLink};
use std::alloc::{AllocError, Global};
use std::sync::Arc;
use std::test::Fail;
use xmpp_backend::{Backend, Echo, Passed, Polled as Found};

type Held = HeldLink<Waited<MemoryLink>>;

fn held(alloc: Global, queue: Option<Arc<EntryQueue>>) -> Held {
    let source = MemorySource::new(Vec::new(alloc), Vec::new(alloc));
    let sink = MemorySink::new(alloc, Vec::new(alloc));
    let link = MemoryLink::new(source, sink, Vec::new(alloc));
    HeldLink::new(Waited { link }, queue)
}

fn has_given(gave: Option<Gave>) -> bool {
    matches!(gave, Some(Gave::Wrote(1)))
}

fn has_failed(gave: Option<Gave>) -> bool {
    matches!(gave, Some(Gave::Failed))
}

#[test]
fn a_link_gives_nothing_before_all_is_stored(rt: HostRuntime) -> Result<(), Fail> {
    let alloc = rt.alloc();
    let queue = EntryQueue::new(alloc)?;
    let mut link = held(alloc, Some(Arc::try_clone(&queue)?));
    assert!(rt; has_given(link.poll_give(b"a")));
    note(&rt, &queue, 0, opening(alloc, b"s1")?);
    assert!(rt; link.poll_give(b"b").is_none());
    assert!(rt; link.is_held());
    // What is noted later doesn't hold up what was at hand.
    note(&rt, &queue, 1, stanza(alloc)?);
    queue.tell_stored(&rt, 1);
    assert!(rt; !link.is_held());
    assert!(rt; has_given(link.poll_give(b"b")));
    assert!(rt; link.poll_give(b"c").is_none());
    queue.tell_stored(&rt, 2);
    // Who asks first is told why nothing was given, and then what is so now.
    assert!(rt; link.is_held());
    assert!(rt; !link.is_held());
    assert!(rt; has_given(link.poll_give(b"c")));
    Ok(())
}

#[test]
fn a_link_fails_once_entries_are_lost(rt: HostRuntime) -> Result<(), Fail> {
    let alloc = rt.alloc();
    let queue = EntryQueue::new(alloc)?;
    let mut link = held(alloc, Some(Arc::try_clone(&queue)?));
    note(&rt, &queue, 0, opening(alloc, b"s1")?);
    assert!(rt; link.poll_give(b"a").is_none());
    queue.lose(&rt);
    assert!(rt; has_failed(link.poll_give(b"a")));
    assert!(rt; !link.is_held());
    Ok(())
}

#[test]
fn a_link_of_a_server_without_a_file_waits_for_nothing(rt: HostRuntime) -> Result<(), Fail> {
    let mut link = held(rt.alloc(), None);
    assert!(rt; has_given(link.poll_give(b"a")));
    assert!(rt; !link.is_held());
    Ok(())
}

fn item(alloc: Global, bytes: &[u8]) -> Result<Inward, AllocError> {
    Ok(Inward::Item(StreamNo::unnamed(), shared(alloc, bytes)?))
}

fn is_out(found: &Found, stanza: &[u8]) -> bool {
    match found {
        Found::Out(_, text) => is_text(text, stanza),
        _ => false,
    }
}

fn is_text(text: &SharedText, bytes: &[u8]) -> bool {
    text.as_slice() == bytes
}

#[test]
fn a_back_end_is_passed_what_is_stored_and_in_order(rt: HostRuntime) -> Result<(), Fail> {
    let alloc = rt.alloc();
    let queue = EntryQueue::new(alloc)?;
    let mut end = HeldBackend::new(alloc, Echo::new(alloc), Some(Arc::try_clone(&queue)?));
    let wire = Wire::new(1, StreamNo::unnamed());
    assert_eq!(rt; end.open(wire, b"echo.localhost"), Passed::Done);
    note(&rt, &queue, 0, opening(alloc, b"s1")?);
    assert_eq!(rt; end.pass(wire, &item(alloc, b"<a/>")?), Passed::Done);
    note(&rt, &queue, 1, stanza(alloc)?);
    assert_eq!(rt; end.pass(wire, &item(alloc, b"<b/>")?), Passed::Done);
    assert!(rt; matches!(&end.poll(), Found::Nothing));
    queue.tell_stored(&rt, 1);
    assert!(rt; is_out(&end.poll(), b"<a/>"));
    assert!(rt; matches!(&end.poll(), Found::Nothing));
    queue.tell_stored(&rt, 2);
    assert!(rt; is_out(&end.poll(), b"<b/>"));
    Ok(())
}
