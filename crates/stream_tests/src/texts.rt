use bosh_types::{Inward, SharedText, StreamNo, Text};
use std::test::Fail;
use xmpp_stream::{push_end, push_header, push_item};

#[test]
fn a_stream_is_written(rt: HostRuntime) -> Result<(), Fail> {
    let mut text = Vec::new(rt.alloc());
    let bytes = Vec::from_slice(rt.alloc(), b"<auth/>")?;
    let auth = SharedText::new(rt.alloc(), Text::from_vec(bytes))?;
    let host = b"xmpp.localhost";
    push_header(rt.alloc(), &mut text, host)?;
    push_item(
        rt.alloc(),
        &mut text,
        host,
        &Inward::Item(StreamNo::unnamed(), auth),
    )?;
    push_item(
        rt.alloc(),
        &mut text,
        b"a&'b",
        &Inward::Restart(StreamNo::unnamed()),
    )?;
    push_end(&mut text)?;
    let want =
        "<?xml version='1.0'?><stream:stream to='xmpp.localhost' version='1.0' xmlns='jabber:client' xmlns:stream='http://etherx.jabber.org/streams'><auth/><?xml version='1.0'?><stream:stream to='a&amp;&apos;b' version='1.0' xmlns='jabber:client' xmlns:stream='http://etherx.jabber.org/streams'></stream:stream>";
    assert_eq!(rt; text.as_slice(), want.as_bytes());
    Ok(())
}
