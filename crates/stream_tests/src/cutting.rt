use std::alloc::{AllocError, Global};
use std::test::Fail;
use xmpp_stream::{StreamCutter, StreamItem};

// Writes what comes next as a line, and says whether more may come.
fn write_next(
    alloc: Global,
    cutter: &mut StreamCutter,
    told: &mut Vec<u8>,
) -> Result<bool, AllocError> {
    match cutter.next()? {
        StreamItem::Item(text) => {
            told.extend_from_slice(text.as_slice())?;
            told.push(b'\n')?;
            Ok(true)
        }
        StreamItem::Closed { error } => {
            let line = format!(in alloc; "closed {error}\n")?;
            told.extend_from_slice(line.as_bytes())?;
            Ok(false)
        }
        StreamItem::Broken(place) => {
            let line = format!(in alloc; "broken {place}\n")?;
            told.extend_from_slice(line.as_bytes())?;
            Ok(false)
        }
        StreamItem::More => Ok(false),
    }
}

// What a stream that comes in pieces of this size tells, a line for each item.
fn told(alloc: Global, stream: &[u8], size: usize) -> Result<Vec<u8>, AllocError> {
    let mut cutter = StreamCutter::new(alloc);
    let mut told = Vec::new(alloc);
    for piece in stream.chunks(size.max(1)) {
        told.clear();
        cutter.feed(piece)?;
    }
    for _ in 0..stream.len() {
        if !write_next(alloc, &mut cutter, &mut told)? {
            break;
        }
    }
    Ok(told)
}

#[test]
fn streams_are_cut(rt: HostRuntime) -> Result<(), Fail> {
    let rows = [
        ("", ""),
        ("<?xml version='1.0'?>", ""),
        (
            "<?xml version='1.0'?><stream:stream version='1.0'><stream:features/><message><body>hi</body></message></stream:stream>",
            "<stream:features/>\n<message xmlns='jabber:client'><body>hi</body></message>\nclosed false\n",
        ),
        // an error of the stream, and white space in the end tag and after it
        (
            "<stream:stream><stream:error><bad-format/></stream:error></stream:stream \n> \n",
            "<stream:error><bad-format/></stream:error>\nclosed true\n",
        ),
        // a restart
        (
            "<stream:stream><success xmlns='x'/> <?xml version='1.0'?>\n<stream:stream id='a>b'><a/>",
            "<success xmlns='x'/>\n<a xmlns='jabber:client'/>\n",
        ),
        // what has a namespace of its own, and what looks as if it had
        (
            "<stream:stream><iq\txmlns = \"a\"/><iq id=' xmlns=1'/><iq xmlns:a='b'><c xmlns='d'/></iq><iq/>",
            "<iq\txmlns = \"a\"/>\n<iq xmlns='jabber:client' id=' xmlns=1'/>\n<iq xmlns='jabber:client' xmlns:a='b'><c xmlns='d'/></iq>\n<iq xmlns='jabber:client'/>\n",
        ),
        // an element that isn't whole, and the beginning of a mark
        ("<stream:stream><a/><b>", "<a xmlns='jabber:client'/>\n"),
        ("<stream:stream><stream:st", ""),
        ("<stream:stream><stream:streams/>", "<stream:streams/>\n"),
        // what is no stream
        ("x", "broken 0\n"),
        (" <?xml version='1.0'?>", "broken 1\n"),
        ("<?xml?><stream:stream>", "broken 0\n"),
        ("<stream:stream/>", "broken 0\n"),
        ("<stream:stream a='1' a='2'>", "broken 0\n"),
        ("<a/>", "broken 0\n"),
        ("</stream:stream>", "broken 0\n"),
        (
            "<stream:stream><a/>x<b/>",
            "<a xmlns='jabber:client'/>\nbroken 19\n",
        ),
        ("<stream:stream></stream>", "broken 15\n"),
        ("<stream:stream><a></b>", "broken 15\n"),
        ("<stream:stream><!-- -->", "broken 15\n"),
    ];
    for (stream, want) in rows {
        for size in [1, 3, 1000] {
            let told = told(rt.alloc(), stream.as_bytes(), size)?;
            assert_eq!(rt; told.as_slice(), want.as_bytes(), "{stream} by {size}");
        }
    }
    Ok(())
}
