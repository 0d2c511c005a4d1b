use bosh_types::{Closing, Inward, Moment, Rid, Row, SharedText, StreamNo, Terms, Ticket};
use pause_rules::Deadlines;
use session_core::{
    AddedStream, Collected, Front, HeldRequest, HeldRequests, Inbox, Outbox, Tickets,
};
use std::alloc::{AllocError, Global};
use std::test::Fail;

fn text(alloc: Global, size: usize) -> Result<SharedText, AllocError> {
    SharedText::new(alloc, Row::from_vec(vec![in alloc; b'x'; size]?))
}

// How many stanzas a front has, and whether it is a closing.
fn told(front: &Front) -> (usize, bool) {
    match front {
        Front::OfStanzas(items) => (items.len(), false),
        Front::OfClosing(_, _) => (0, true),
    }
}

#[test]
fn takes_what_fits(rt: HostRuntime) -> Result<(), Fail> {
    // the sizes that wait, a closing after them, and how many stanzas each front has
    let rows = [
        ([0, 0, 0].as_slice(), [3, 0].as_slice()),
        (&[1000000, 0, 1], &[2, 1, 0]),
        (&[400000, 600000, 400000], &[2, 1, 0]),
        (&[], &[0]),
    ];
    for (row, (sizes, fronts)) in rows.into_iter().enumerate() {
        let mut outbox = Outbox::new(rt.alloc());
        for size in sizes {
            let stanza = text(rt.alloc(), *size)?;
            assert!(rt; outbox.has_room(stanza.len()));
            outbox.push_stanza(StreamNo::unnamed(), stanza)?;
        }
        assert_eq!(rt; outbox.counts().items as usize, sizes.len());
        assert!(rt; !outbox.is_closed(StreamNo::unnamed()));
        outbox.push_closing(StreamNo::unnamed(), Closing::Plain)?;
        for (at, want) in fronts.iter().enumerate() {
            let front = outbox.take_front()?;
            assert_eq!(rt;
                told(&front),
                (*want, at + 1 == fronts.len()),
                "row {row}, {at}"
            );
        }
        assert_eq!(rt; (outbox.is_empty(), outbox.counts().bytes), (true, 0));
    }
    Ok(())
}

// What is told of a ticket: its answer's length, or a word.
fn told_of(collected: &Collected) -> Result<usize, &'static str> {
    match collected {
        Collected::Answer(text) => Ok(text.len()),
        Collected::NotYet => Err("not yet"),
        Collected::Superseded => Err("superseded"),
        Collected::UnknownTicket => Err("unknown"),
    }
}

#[test]
fn collects_each_ticket_once(rt: HostRuntime) -> Result<(), Fail> {
    let rid = |value| Rid::new(value).expect(&rt, "a request id");
    let mut tickets = Tickets::new(rt.alloc());
    for value in [7, 7, 8, 9] {
        tickets.replace(rid(value));
        tickets.give(rid(value))?;
    }
    tickets.answer(rid(7), &text(rt.alloc(), 1)?)?;
    let mut copy = tickets.copied(rt.alloc())?;
    copy.last_words(rid(9), &text(rt.alloc(), 2)?, &text(rt.alloc(), 3)?)?;
    // the ticket, and what is told of it before the last words and after them
    let rows = [
        (0, Err("unknown"), Err("unknown")),
        (1, Err("superseded"), Err("superseded")),
        (2, Ok(1), Ok(1)),
        (3, Err("not yet"), Ok(3)),
        (4, Err("not yet"), Ok(2)),
        (5, Err("unknown"), Err("unknown")),
        (1, Err("unknown"), Err("unknown")),
        (2, Err("unknown"), Err("unknown")),
        (3, Err("not yet"), Err("unknown")),
    ];
    for (row, (number, before, after)) in rows.into_iter().enumerate() {
        let ticket = Ticket::new(number);
        assert_eq!(rt; told_of(&tickets.collect(ticket)), before, "row {row}");
        assert_eq!(rt; told_of(&copy.collect(ticket)), after, "row {row}");
    }
    Ok(())
}

#[test]
fn holds_the_oldest_first(rt: HostRuntime) -> Result<(), Fail> {
    let deadlines = Deadlines::new(Terms {
        wait: 10,
        hold: 1,
        requests: 2,
        inactivity: 30,
        polling: 5,
        maxpause: 120,
        version: (1, 11),
        polled: false,
    });
    let mut held = HeldRequests::new(rt.alloc());
    for (value, prompt) in [(7, false), (8, true)] {
        held.push(HeldRequest {
            rid: Rid::new(value).expect(&rt, "a request id"),
            arrived: Moment::from_millis(value * 1000),
            prompt,
            opened: AddedStream::new(&None),
        })?;
    }
    let copy = held.copied(rt.alloc())?;
    let due = |millis| copy.any_wait_due(&deadlines, Moment::from_millis(millis));
    assert_eq!(rt; (due(16999), due(17000), copy.len()), (false, true, 2));
    for (value, prompt) in [(7, true), (8, true)] {
        assert_eq!(rt; held.any_prompt(), prompt, "{value}");
        assert_eq!(rt; held.oldest().map(|oldest| oldest.rid.value()), Some(value));
        assert_eq!(rt;
            held.take_oldest().map(|oldest| oldest.rid.value()),
            Some(value)
        );
    }
    assert_eq!(rt; (held.any_prompt(), held.take_oldest()), (false, None));
    Ok(())
}

#[test]
fn passes_inward_in_order(rt: HostRuntime) -> Result<(), Fail> {
    let mut inbox = Inbox::new(rt.alloc());
    inbox.push(item(rt.alloc(), 3)?)?;
    inbox.push(Inward::Restart(StreamNo::unnamed()))?;
    let mut copy = inbox.copied(rt.alloc())?;
    assert_eq!(rt; size_of(inbox.take_first()), Some(3));
    assert!(rt; matches!(inbox.take_first(), Some(Inward::Restart(_))));
    assert!(rt; inbox.take_first().is_none());
    assert!(rt; inbox.is_empty() && !copy.is_empty());
    assert_eq!(rt; size_of(copy.take_first()), Some(3));
    Ok(())
}

// A stanza of so many bytes, on its way inward.
fn item(alloc: Global, size: usize) -> Result<Inward, AllocError> {
    let text = text(alloc, size)?;
    Ok(Inward::Item(StreamNo::unnamed(), text))
}

// How many bytes the stanza has, where it is one.
fn size_of(item: Option<Inward>) -> Option<usize> {
    match item? {
        Inward::Item(_, text) => Some(text.len()),
        Inward::Restart(_) | Inward::Open(_, _) | Inward::Close(_) => None,
    }
}
