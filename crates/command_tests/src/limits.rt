use crate::scripts::{CREATION, run, spelled};
use bosh_commands::{BAD_SCRIPT, DONE};
use std::alloc::Global;
use std::test::Fail;

#[test]
fn lines_have_at_most_2_mebibytes(rt: HostRuntime) -> Result<(), Fail> {
    let rows: [(usize, &[u8]); 2] = [(2097152, b"bad 2 grammar\n"), (2097153, b"bad 2 length\n")];
    for (length, report) in rows {
        let mut script = Vec::from_slice(rt.alloc(), b"open 5\n")?;
        let line = vec![in rt.alloc(); b'x'; length]?;
        script.extend_from_slice(&line)?;
        let (_, given) = run(rt.alloc(), &script, &[], &[])?;
        assert_eq!(rt; given.as_slice(), report);
    }
    Ok(())
}

#[test]
fn scripts_have_at_most_a_million_lines(rt: HostRuntime) -> Result<(), Fail> {
    let rows: [(usize, u8, &[u8]); 2] = [
        (999999, DONE, b"done 1000000\n"),
        (1000000, BAD_SCRIPT, b"bad 1000001 count\n"),
    ];
    for (lines, wanted, report) in rows {
        let mut script = Vec::new(rt.alloc());
        for _ in 0..lines {
            script.extend_from_slice(b"at 0\n")?;
        }
        script.extend_from_slice(b"end\n")?;
        let (status, given) = run(rt.alloc(), &script, &[], &[])?;
        assert_eq!(rt; given.as_slice(), report);
        assert_eq!(rt; status, wanted);
    }
    Ok(())
}

// At most 1024 stanzas of the server wait for a session's client.
#[test]
fn at_most_1024_stanzas_wait(rt: HostRuntime) -> Result<(), Fail> {
    let mut script = spelled(rt.alloc(), [CREATION, b""])?;
    for _ in 0..1025 {
        script.extend_from_slice(b"back s1 <a/>\n")?;
    }
    script.extend_from_slice(b"end\n")?;
    let (status, given) = run(rt.alloc(), &script, &[], &[])?;
    assert!(rt; given.ends_with(b"<stream:features/></body>\nrefused back s1 full\ndone 1028\n"));
    assert_eq!(rt; status, DONE);
    Ok(())
}

// A `post` line of a request with one child, whose body has 1,048,576 bytes.
fn post_of_a_mebibyte(alloc: Global, conn: u16, rid: u16) -> Result<Vec<u8>, Fail> {
    let opening = format!(in alloc;
        "<body rid='{rid}' sid='s1' xmlns='http://jabber.org/protocol/httpbind'><a>"
    )?;
    let end = b"</a></body>";
    let mut line = Vec::from_slice(
        alloc,
        format!(in alloc; "post {conn} {opening}")?.as_bytes(),
    )?;
    let text = vec![in alloc; b'x'; 1048576_usize
        .saturating_sub(opening.len())
        .saturating_sub(end.len())]?;
    line.extend_from_slice(&text)?;
    line.extend_from_slice(end)?;
    line.push(b'\n')?;
    Ok(line)
}

// A session's journal has at most 16,777,216 counted bytes: the request that passes them ends it.
#[test]
fn the_journal_of_a_session_is_limited(rt: HostRuntime) -> Result<(), Fail> {
    let mut script = spelled(rt.alloc(), [CREATION, b""])?;
    for k in 2..18_u16 {
        script.extend_from_slice(&post_of_a_mebibyte(rt.alloc(), k, k.saturating_add(999))?)?;
    }
    script.extend_from_slice(b"end\n")?;
    let report = spelled(
        rt.alloc(),
        [
            b"</a>\nout 15 <body @ ack='1015'/>\nout 17 <body @ type='terminate' condition='undefined-condition'/>\n",
            b"out 16 <body @ type='terminate' condition='other-request'/>\nover s1 undefined-condition journal 15731756 1048768\ndone 19\n",
        ],
    )?;
    let (status, given) = run(rt.alloc(), &script, &[], &[])?;
    assert!(rt; given.ends_with(&report));
    assert_eq!(rt; status, DONE);
    Ok(())
}
