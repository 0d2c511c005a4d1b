use bosh_commands::{
    BAD_SCRIPT, DONE, READ_FAULT, WRITE_FAULT, WRONG_WORDS, run_local, wrong_words_text,
};
use bosh_ports::{MemorySink, MemorySource};
use std::alloc::{AllocError, Global};
use std::test::Fail;

// The status and the report of a script, over a source and a sink that fail at the listed calls.
pub(crate) fn run(
    alloc: Global,
    script: &[u8],
    source_failing: &[u64],
    sink_failing: &[u64],
) -> Result<(u8, Vec<u8>), Fail> {
    run_words_failing(alloc, &["drive"], script, source_failing, sink_failing)
}

#[test]
fn a_script_is_done_or_bad(rt: HostRuntime) -> Result<(), Fail> {
    let rows: [(&[u8], u8); 3] = [
        (b"open 5\nend\n", DONE),
        (b"open 5\nopen 5\n", BAD_SCRIPT),
        (b"", BAD_SCRIPT),
    ];
    for (script, wanted) in rows {
        let (status, _) = run(rt.alloc(), script, &[], &[])?;
        assert_eq!(rt; status, wanted, "of {script:?}");
    }
    Ok(())
}

// What tables write short: `@` is the namespace of a body, `%` that of the streams of its payload.
pub(crate) fn spelled(alloc: Global, parts: [&[u8]; 2]) -> Result<Vec<u8>, Fail> {
    let mut text = Vec::new(alloc);
    for part in parts {
        for byte in part {
            match *byte {
                b'@' => text.extend_from_slice(b"xmlns='http://jabber.org/protocol/httpbind'")?,
                b'%' => {
                    text.extend_from_slice(b"xmlns:stream='http://etherx.jabber.org/streams'")?;
                }
                other => text.push(other)?,
            }
        }
    }
    Ok(text)
}

// The first lines of scripts about a session.
pub(crate) const CREATION: &[u8] =
    b"host example.org <stream:features/>\npost 1 <body rid='1000' to='example.org' wait='60' hold='1' ver='1.6' @/>\n";

// Sessions that have ended leave their room to others.
#[test]
fn at_most_256_sessions_are_live(rt: HostRuntime) -> Result<(), Fail> {
    let creation = spelled(
        rt.alloc(),
        [b"post 1 <body rid='1000' to='example.org' @/>\n", b""],
    )?;
    let rows: [(&[u8], &[u8]); 3] = [
        (
            b"at 30000\n",
            b"condition='undefined-condition'/>\ndone 260\n",
        ),
        (b"at 30001\n", b"xmpp:restartlogic='true'/>\ndone 260\n"),
        (
            b"shut s1 plain\n",
            b"condition='undefined-condition'/>\ndone 260\n",
        ),
    ];
    for (line, end) in rows {
        let mut script = Vec::from_slice(rt.alloc(), b"host example.org\n")?;
        for _ in 0..256 {
            script.extend_from_slice(&creation)?;
        }
        script.extend_from_slice(line)?;
        script.extend_from_slice(&creation)?;
        script.extend_from_slice(b"end\n")?;
        let (status, given) = run(rt.alloc(), &script, &[], &[])?;
        assert!(rt; given.ends_with(end), "of {line:?}");
        assert_eq!(rt; status, DONE, "of {line:?}");
    }
    Ok(())
}

#[test]
fn a_fault_stops_the_script(rt: HostRuntime) -> Result<(), Fail> {
    let script = b"open 1000\nshort 1001 <a/>\nshort 1003 <b/>\nshort 1002 <c/>\nend\n";
    let report = b"in s1 0 <a/>\nin s1 0 <c/>\nin s1 0 <b/>\ndone 5\n";
    let fronts: [&[u8]; 4] = [
        b"",
        b"in s1 0 <a/>\n",
        b"in s1 0 <a/>\nin s1 0 <c/>\n",
        b"in s1 0 <a/>\nin s1 0 <c/>\nin s1 0 <b/>\n",
    ];
    let mut call = 1;
    for front in fronts {
        let (status, given) = run(rt.alloc(), script, &[], &[call])?;
        assert_eq!(rt; status, WRITE_FAULT);
        assert_eq!(rt; given.as_slice(), front);
        call = call.saturating_add(1);
    }
    let (status, given) = run(rt.alloc(), script, &[2], &[call])?;
    assert_eq!(rt; status, DONE);
    assert_eq!(rt; given.as_slice(), report.as_slice());
    let (status, given) = run(rt.alloc(), script, &[1], &[])?;
    assert_eq!(rt; status, READ_FAULT);
    assert_eq!(rt; given.as_slice(), b"".as_slice());
    let (status, _) = run(rt.alloc(), b"open 1000\nshort 1001 <a/>\n", &[2], &[])?;
    assert_eq!(rt; status, READ_FAULT);
    Ok(())
}

// What follows the line `end` may lie in the piece that was taken, and no further one is asked for.
#[test]
fn nothing_is_asked_for_after_the_end(rt: HostRuntime) -> Result<(), Fail> {
    let (status, given) = run(rt.alloc(), b"open 5\nend\nshort 6 <a/>\n", &[2], &[])?;
    assert_eq!(rt; status, DONE);
    assert_eq!(rt; given.as_slice(), b"done 2\n".as_slice());
    Ok(())
}

fn words_of(alloc: Global, words: &[&str]) -> Result<Vec<String>, AllocError> {
    let mut all = Vec::new(alloc);
    for word in words {
        all.push(String::from_str(alloc, word)?)?;
    }
    Ok(all)
}

// The status of these words over a script, and what was given.
pub(crate) fn run_words(
    alloc: Global,
    words: &[&str],
    script: &[u8],
) -> Result<(u8, Vec<u8>), Fail> {
    run_words_failing(alloc, words, script, &[], &[])
}

// The same over a source and a sink that fail at the listed calls.
pub(crate) fn run_words_failing(
    alloc: Global,
    words: &[&str],
    script: &[u8],
    source_failing: &[u64],
    sink_failing: &[u64],
) -> Result<(u8, Vec<u8>), Fail> {
    let all = words_of(alloc, words)?;
    let failing = Vec::from_slice(alloc, source_failing)?;
    let mut source = MemorySource::new(Vec::from_slice(alloc, script)?, failing);
    let mut sink = MemorySink::new(alloc, Vec::from_slice(alloc, sink_failing)?);
    let status = run_local(alloc, &all, &mut source, &mut sink);
    Ok((status, Vec::from_slice(alloc, sink.as_slice())?))
}

#[test]
fn other_words_are_no_command(rt: HostRuntime) -> Result<(), Fail> {
    let rows: [&[&str]; 8] = [
        &[],
        &["Drive"],
        &["drive", "now"],
        &["pair", "1"],
        &["load"],
        &["load", "01"],
        &["load", "18446744073709551616"],
        &["load", "1", "2"],
    ];
    for row in rows {
        let (status, given) = run_words(rt.alloc(), row, b"open 5\nend\n")?;
        assert_eq!(rt; status, WRONG_WORDS);
        assert_eq!(rt; given.as_slice(), b"".as_slice());
    }
    Ok(())
}

#[test]
fn questions_are_answered(rt: HostRuntime) -> Result<(), Fail> {
    let rows: [(&[&str], &[u8]); 2] = [
        (&["--help"], b"Robelava, an XMPP BOSH connection manager.\n"),
        (&["--version"], b"robelava 0.1.0\n"),
    ];
    for (words, front) in rows {
        let (status, given) = run_words(rt.alloc(), words, b"")?;
        assert!(rt; status == DONE && given.starts_with(front), "of {words:?}");
    }
    Ok(())
}

// The front of what is told of words that are no command.
#[test]
fn wrong_words_are_told(rt: HostRuntime) -> Result<(), Fail> {
    let rows: [(&[&str], &[u8]); 7] = [
        (&[], b"robelava: a command is wanted\nusage: "),
        (&["Drive"], b"robelava: 'Drive' is no command\nusage: "),
        (
            &["drive", "now"],
            b"robelava: a script, or a trace, is read from standard input",
        ),
        (&["load"], b"robelava: load takes one number"),
        (
            &["--help", "x"],
            b"robelava: --help and --version stand alone",
        ),
        (
            &["serve", "--port", "0"],
            b"robelava serve: --port is from 1 to 65535",
        ),
        (
            &["client", "--port", "0", "--to", "h"],
            b"robelava client: --port is from 1 to 65535",
        ),
    ];
    for (words, front) in rows {
        let words = words_of(rt.alloc(), words)?;
        let text = wrong_words_text(rt.alloc(), &words)?;
        assert!(rt; text.as_bytes().starts_with(front), "of {words:?}");
    }
    Ok(())
}

#[test]
fn two_ends_meet(rt: HostRuntime) -> Result<(), Fail> {
    let script = b"host h\nclient 10 60 1 0 0\nsend\nreturn 1\n".as_slice();
    let (status, given) = run_words(rt.alloc(), &["pair"], script)?;
    assert_eq!(rt; status, BAD_SCRIPT);
    assert!(rt; given.as_slice().ends_with(b"bad 4 copy\n"));
    let (status, given) = run_words(rt.alloc(), &["load", "1"], b"")?;
    assert_eq!(rt; status, DONE);
    assert_eq!(rt;
        given.as_slice(),
        b"load 1 requests 133 copies 563 put 489 in 489 given 251 got 251 over none\n".as_slice()
    );
    Ok(())
}
