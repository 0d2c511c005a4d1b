// Names of servers, and of sessions that begin with them.
use server_name::{NamedNames, ServerName};
use server_ports::{Names, RealNames};
use std::alloc::Global;
use std::test::Fail;

const SEED: [u8; 32] = [7; 32];

#[test]
fn names_of_servers_are_read(rt: HostRuntime) -> Result<(), Fail> {
    let rows: [(&[u8], bool); 11] = [
        (b"a", true),
        (b"node-12", true),
        (b"Z", true),
        (b"abcdefghijklmn", true),
        (b"a-", true),
        (b"abcdefghijklmno", false),
        (b"", false),
        (b"1a", false),
        (b"-a", false),
        (b"a.b", false),
        (b"a\xc3\xa9", false),
    ];
    for (text, is_name) in rows {
        let name = ServerName::read(text);
        assert!(rt; name.is_some() == is_name, "of {text:?}");
        if let Some(name) = &name {
            assert!(rt; name.as_slice() == text);
        }
    }
    Ok(())
}

// What a maker of names makes for a server with this name is what it makes for one without, behind these bytes; and so does a share of it.
fn stands_before(alloc: Global, name: &[u8], first: &[u8]) -> Result<bool, Fail> {
    let mut plain = RealNames::new(alloc, SEED);
    let mut named = NamedNames::new(alloc, RealNames::new(alloc, SEED), ServerName::read(name));
    let part = plain.name()?;
    let made = named.name()?;
    let shared_part = plain.share().name()?;
    let shared = named.share().name()?;
    Ok(
        is_joined(made.as_slice(), first, part.as_slice())
            && is_joined(shared.as_slice(), first, shared_part.as_slice()),
    )
}

fn is_joined(whole: &[u8], first: &[u8], rest: &[u8]) -> bool {
    whole.starts_with(first) && &whole[first.len()..] == rest
}

#[test]
fn names_begin_with_the_servers(rt: HostRuntime) -> Result<(), Fail> {
    let alloc = rt.alloc();
    assert!(rt; stands_before(alloc, b"", b"")?);
    assert!(rt; stands_before(alloc, b"node-12", b"node-12-")?);
    assert!(rt; stands_before(alloc, b"abcdefghijklmn", b"abcdefghijklmn-")?);
    Ok(())
}
