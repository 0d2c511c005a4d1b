use crate::scripts::{run_words, run_words_failing};
use bosh_commands::{BAD_SCRIPT, BROKEN_RULE, DONE, READ_FAULT, WRITE_FAULT, WRONG_WORDS};
use std::alloc::{AllocError, Global};
use std::test::Fail;

const CREATION: &str = "<body rid='7' to='a' xmlns='http://jabber.org/protocol/httpbind'/>";

const ANSWER: &str = "<body xmlns='http://jabber.org/protocol/httpbind' sid='k'><f/></body>";

// A trace of one request and its answer, with these lines after them.
fn trace(alloc: Global, others: &str) -> Result<String, AllocError> {
    format!(in alloc;
        "gave <f/>\nsent {CREATION}\ncame {CREATION}\nanswer 7 {ANSWER}\ntook 7\n{others}"
    )
}

#[test]
fn a_trace_is_judged(rt: HostRuntime) -> Result<(), Fail> {
    let rows: [(&str, u8, &str); 8] = [
        ("got <f/>\nend\n", DONE, "yes 1 0 1\n"),
        ("got <f/>\ngot <f/>\nend\n", BROKEN_RULE, "no 7 got\n"),
        ("took 8\nend\n", BROKEN_RULE, "no 6 took\n"),
        ("in restart\nend\n", BROKEN_RULE, "no 6 inward\n"),
        ("sent \nend\n", BROKEN_RULE, "no 6 body\n"),
        ("end\nsent\n", DONE, "yes 1 0 0\n"),
        ("got <f/>\n", BAD_SCRIPT, "bad 7 end\n"),
        ("got\nend\n", BAD_SCRIPT, "bad 6 grammar\n"),
    ];
    for (others, wanted, report) in rows {
        let text = trace(rt.alloc(), others)?;
        let (status, given) = run_words(rt.alloc(), &["audit"], text.as_bytes())?;
        assert!(rt;
            status == wanted && given.as_slice() == report.as_bytes(),
            "of {others:?}"
        );
    }
    Ok(())
}

#[test]
fn a_fault_stops_the_audit(rt: HostRuntime) -> Result<(), Fail> {
    let text = trace(rt.alloc(), "got <f/>\nend\n")?;
    let rows: [(&[u64], &[u64], u8); 3] = [
        (&[], &[], DONE),
        (&[1], &[], READ_FAULT),
        (&[], &[1], WRITE_FAULT),
    ];
    for (source_failing, sink_failing, wanted) in rows {
        let (status, given) = run_words_failing(
            rt.alloc(),
            &["audit"],
            text.as_bytes(),
            source_failing,
            sink_failing,
        )?;
        assert!(rt; status == wanted && given.is_empty() == (wanted != DONE));
    }
    let (status, _) = run_words(rt.alloc(), &["audit", "now"], text.as_bytes())?;
    assert_eq!(rt; status, WRONG_WORDS);
    Ok(())
}
