// What a fault leaves: of a reader inside a content, and of a message that is written in so many pieces.

use bosh_http::{HttpFed, HttpRefusal, MessageWriter, RequestReader, WriteFault, write_post};
use bosh_ports::{KeptContent, MemoryLink, MemorySink, MemorySource};
use http::StatusCode;
use std::alloc::{AllocError, Global};
use std::test::Fail;

const TEXT: &[u8] = b"POST /http-bind HTTP/1.1\r\nHost: a\r\nContent-Length: 7\r\n\r\n<body/>";

// A link over the text up to here in one piece, which fails at this take and at this give, or at none where it is 0.
fn link_over(alloc: Global, count: usize, take: u64, give: u64) -> Result<MemoryLink, AllocError> {
    let text = Vec::from_slice(alloc, &TEXT[..count.min(TEXT.len())])?;
    let source = MemorySource::new(text, vec![in alloc; take]?);
    let sink = MemorySink::new(alloc, vec![in alloc; give]?);
    Ok(MemoryLink::new(source, sink, vec![in alloc; 60]?))
}

// After a failure inside a content nothing more is read: the rest of it isn't taken for a head.
#[test]
fn a_failure_inside_a_content_is_the_last_answer(rt: HostRuntime) -> Result<(), Fail> {
    let alloc = rt.alloc();
    let mut feed = KeptContent::new(alloc);
    let mut link = link_over(alloc, 60, 0, 0)?;
    let cut = RequestReader::new(alloc).next_fed(&mut link, &mut feed)?;
    let mut link = link_over(alloc, TEXT.len(), 2, 0)?;
    let mut reader = RequestReader::new(alloc);
    let fault = reader.next_fed(&mut link, &mut feed)?;
    let is_last = reader.next_fed(&mut link, &mut feed).is_err();
    let is_no_head = reader.next(alloc, &mut link).is_err();
    let want = (
        HttpFed::Refused(HttpRefusal::Cut(60)),
        HttpFed::ReadFault,
        true,
        true,
    );
    assert!(rt; (cut, fault, is_last, is_no_head) == want);
    Ok(())
}

// Whether a response with a content of this length is written whole, and how many bytes a link has that fails at this give.
fn written(
    alloc: Global,
    writer: &mut MessageWriter,
    length: usize,
    give: u64,
) -> Result<(bool, usize), AllocError> {
    let content = vec![in alloc; b'x'; length]?;
    let mut link = link_over(alloc, 0, 0, give)?;
    let result = writer.write_response(&mut link, StatusCode::OK, &content, false);
    Ok((result.is_ok(), link.as_slice().len()))
}

// Head and content go in one piece where they have at most 16,384 bytes together. The head has 81 bytes here. Where the last
// piece fails, the link has nothing or the head.
#[test]
fn messages_go_in_few_pieces(rt: HostRuntime) -> Result<(), Fail> {
    let rows: [(usize, u64, usize); 5] = [
        (10000, 1, 0),
        (16303, 1, 0),
        (16304, 2, 81),
        (16384, 2, 81),
        (16385, 2, 81),
    ];
    let mut writer = MessageWriter::new();
    for (length, pieces, left) in rows {
        let whole = written(rt.alloc(), &mut writer, length, pieces.saturating_add(1))?;
        let cut = written(rt.alloc(), &mut writer, length, pieces)?;
        let want = ((true, length.saturating_add(81)), (false, left));
        assert!(rt; (whole, cut) == want, "{length} bytes");
    }
    Ok(())
}

#[test]
fn a_fault_leaves_a_front(rt: HostRuntime) -> Result<(), Fail> {
    let mut link = link_over(rt.alloc(), 0, 0, 1)?;
    let result = write_post(&mut link, b"<body/>");
    assert!(rt; (result, link.as_slice().len()) == (Err(WriteFault), 0));
    Ok(())
}
