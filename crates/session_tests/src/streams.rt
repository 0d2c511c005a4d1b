// Several streams in one session.
use crate::calls::{Call, told_of_call};
use crate::openings::opening_with;
use bosh_types::Closing;
use bosh_types::limits::JOURNAL_BYTES;
use session_core::Session;
use std::test::Fail;

#[test]
fn streams_are_kept_apart(rt: HostRuntime) -> Result<(), Fail> {
    let alloc = rt.alloc();
    let body =
        b"<body rid='1000' to='example.org' wait='60' hold='1' ver='1.6' xmlns='http://jabber.org/protocol/httpbind'/>";
    let rows: [&[(Call, &str)]; 11] = [
        // an add is answered at once; a stanza that names no stream goes to both, and one that names a stream to that alone
        &[
            (
                Call::Arrive(1001, "to='other.org'", "", 0),
                "Answer <body xmlns='http://jabber.org/protocol/httpbind' stream='t1'/>",
            ),
            (Call::TakeOn, "1 Open other.org"),
            (Call::Arrive(1002, "", "<a/>", 0), "Parked 1"),
            (Call::TakeOn, "0 Item <a/>"),
            (Call::TakeOn, "1 Item <a/>"),
            (Call::BackOn(1, "<x/>", 0), "Done"),
            (
                Call::Collect(1),
                "Answer <body xmlns='http://jabber.org/protocol/httpbind' xmlns:stream='http://etherx.jabber.org/streams' stream='t1'><x/></body>",
            ),
            (Call::Arrive(1003, "stream='t1'", "<b/>", 0), "Parked 2"),
            (Call::TakeOn, "1 Item <b/>"),
            (Call::TakeOn, "0 None"),
            (Call::BackOn(0, "<y/>", 0), "Done"),
            (
                Call::Collect(2),
                "Answer <body xmlns='http://jabber.org/protocol/httpbind' xmlns:stream='http://etherx.jabber.org/streams' stream='t0'><y/></body>",
            ),
        ],
        // without an add no answer but the creation's names a stream; the first one has its name all the same
        &[
            (Call::Arrive(1001, "stream='t0'", "<a/>", 0), "Parked 1"),
            (Call::TakeOn, "0 Item <a/>"),
            (Call::BackOn(0, "<x/>", 0), "Done"),
            (
                Call::Collect(1),
                "Answer <body xmlns='http://jabber.org/protocol/httpbind' xmlns:stream='http://etherx.jabber.org/streams'><x/></body>",
            ),
            (Call::BackOn(1, "<y/>", 0), "Over"),
            (Call::CloseOn(1, Closing::Plain, 0), "Over"),
        ],
        // a name that no open stream has ends the session
        &[
            (
                Call::Arrive(1001, "to='other.org'", "", 0),
                "Answer <body xmlns='http://jabber.org/protocol/httpbind' stream='t1'/>",
            ),
            (
                Call::Arrive(1002, "stream='t2'", "<a/>", 0),
                "Answer <body xmlns='http://jabber.org/protocol/httpbind' type='terminate' condition='item-not-found'/>",
            ),
            (Call::TakeOn, "1 Open other.org"),
            (Call::TakeOn, "0 None"),
            (Call::Ending, "UnknownStream { rid: Rid { value: 1002 } }"),
        ],
        // a terminate that names a stream closes that one, and the closing of the other ends the session
        &[
            (
                Call::Arrive(1001, "to='other.org'", "", 0),
                "Answer <body xmlns='http://jabber.org/protocol/httpbind' stream='t1'/>",
            ),
            (
                Call::Arrive(1002, "stream='t1' type='terminate'", "<z/>", 0),
                "Parked 1",
            ),
            (Call::TakeOn, "1 Open other.org"),
            (Call::TakeOn, "1 Item <z/>"),
            (Call::TakeOn, "1 Close"),
            (Call::TakeOn, "0 None"),
            (Call::BackOn(1, "<x/>", 0), "Over"),
            (Call::Ending, "goes on"),
            (Call::CloseOn(0, Closing::Plain, 0), "Done"),
            (
                Call::Collect(1),
                "Answer <body xmlns='http://jabber.org/protocol/httpbind' type='terminate'/>",
            ),
            (
                Call::Ending,
                "Closed { closing: Plain, rid: Rid { value: 1002 } }",
            ),
        ],
        // one that names the only open stream ends the session
        &[
            (
                Call::Arrive(1001, "stream='t0' type='terminate'", "<z/>", 0),
                "Answer <body xmlns='http://jabber.org/protocol/httpbind' type='terminate'/>",
            ),
            (Call::TakeOn, "0 Item <z/>"),
            (Call::TakeOn, "0 Close"),
            (Call::TakeOn, "0 None"),
            (Call::Ending, "Terminated { rid: Rid { value: 1001 } }"),
        ],
        // what names a closed stream ends the session
        &[
            (
                Call::Arrive(1001, "to='other.org'", "", 0),
                "Answer <body xmlns='http://jabber.org/protocol/httpbind' stream='t1'/>",
            ),
            (
                Call::Arrive(1002, "stream='t1' type='terminate'", "", 0),
                "Parked 1",
            ),
            (
                Call::Arrive(1003, "stream='t1'", "<a/>", 0),
                "Answer <body xmlns='http://jabber.org/protocol/httpbind' type='terminate' condition='item-not-found'/>",
            ),
            (
                Call::Collect(1),
                "Answer <body xmlns='http://jabber.org/protocol/httpbind' type='terminate' condition='other-request'/>",
            ),
        ],
        // a closing beside which another stream is open ends its stream alone
        &[
            (
                Call::Arrive(1001, "to='other.org'", "", 0),
                "Answer <body xmlns='http://jabber.org/protocol/httpbind' stream='t1'/>",
            ),
            (Call::BackOn(0, "<x/>", 0), "Done"),
            (Call::CloseOn(0, Closing::RemoteConnectionFailed, 0), "Done"),
            (Call::BackOn(0, "<y/>", 0), "Over"),
            (Call::BackOn(1, "<z/>", 0), "Done"),
            (
                Call::Arrive(1002, "", "<a/>", 0),
                "Answer <body xmlns='http://jabber.org/protocol/httpbind' xmlns:stream='http://etherx.jabber.org/streams' stream='t0'><x/></body>",
            ),
            (
                Call::Arrive(1003, "", "<b/>", 0),
                "Answer <body xmlns='http://jabber.org/protocol/httpbind' type='terminate' condition='remote-connection-failed' stream='t0'/>",
            ),
            (
                Call::Arrive(1004, "", "<c/>", 0),
                "Answer <body xmlns='http://jabber.org/protocol/httpbind' xmlns:stream='http://etherx.jabber.org/streams' stream='t1'><z/></body>",
            ),
            (Call::TakeOn, "1 Open other.org"),
            (Call::TakeOn, "0 Item <a/>"),
            (Call::TakeOn, "1 Item <a/>"),
            (Call::TakeOn, "0 Item <b/>"),
            (Call::TakeOn, "1 Item <b/>"),
            (Call::TakeOn, "1 Item <c/>"),
            (Call::TakeOn, "0 None"),
        ],
        // seven adds open the streams from 1 to 7, and an eighth opens nothing and is answered all the same
        &[
            (
                Call::Arrive(1001, "to='other.org'", "", 0),
                "Answer <body xmlns='http://jabber.org/protocol/httpbind' stream='t1'/>",
            ),
            (
                Call::Arrive(1002, "to='other.org'", "", 0),
                "Answer <body xmlns='http://jabber.org/protocol/httpbind' stream='t2'/>",
            ),
            (
                Call::Arrive(1003, "to='other.org'", "", 0),
                "Answer <body xmlns='http://jabber.org/protocol/httpbind' stream='t3'/>",
            ),
            (
                Call::Arrive(1004, "to='other.org'", "", 0),
                "Answer <body xmlns='http://jabber.org/protocol/httpbind' stream='t4'/>",
            ),
            (
                Call::Arrive(1005, "to='other.org'", "", 0),
                "Answer <body xmlns='http://jabber.org/protocol/httpbind' stream='t5'/>",
            ),
            (
                Call::Arrive(1006, "to='other.org'", "", 0),
                "Answer <body xmlns='http://jabber.org/protocol/httpbind' stream='t6'/>",
            ),
            (
                Call::Arrive(1007, "to='other.org'", "", 0),
                "Answer <body xmlns='http://jabber.org/protocol/httpbind' stream='t7'/>",
            ),
            (
                Call::Arrive(1008, "to='other.org'", "", 0),
                "Answer <body xmlns='http://jabber.org/protocol/httpbind'/>",
            ),
            (Call::TakeOn, "1 Open other.org"),
            (Call::TakeOn, "2 Open other.org"),
            (Call::TakeOn, "3 Open other.org"),
            (Call::TakeOn, "4 Open other.org"),
            (Call::TakeOn, "5 Open other.org"),
            (Call::TakeOn, "6 Open other.org"),
            (Call::TakeOn, "7 Open other.org"),
            (Call::TakeOn, "0 None"),
        ],
        // an add and a closing of the first stream in one call
        &[
            (Call::Arrive(1002, "to='other.org'", "", 0), "Parked 1"),
            (Call::CloseOn(0, Closing::Plain, 0), "Done"),
            (
                Call::Arrive(1001, "", "<a/>", 0),
                "Answer <body xmlns='http://jabber.org/protocol/httpbind' type='terminate' stream='t0' ack='1002'/>",
            ),
            (
                Call::Collect(1),
                "Answer <body xmlns='http://jabber.org/protocol/httpbind' stream='t1'/>",
            ),
            (Call::TakeOn, "0 Item <a/>"),
            (Call::TakeOn, "1 Open other.org"),
            (Call::Ending, "goes on"),
        ],
        // of two adds in one call each is answered with its own stream
        &[
            (Call::Arrive(1002, "to='other.org'", "", 0), "Parked 1"),
            (
                Call::Arrive(1001, "to='other.org'", "", 0),
                "Answer <body xmlns='http://jabber.org/protocol/httpbind' stream='t1' ack='1002'/>",
            ),
            (
                Call::Collect(1),
                "Answer <body xmlns='http://jabber.org/protocol/httpbind' stream='t2'/>",
            ),
        ],
        // a client that names its host in each body opens a stream with each empty one, and with no other
        &[
            (Call::Arrive(1001, "to='other.org'", "<a/>", 0), "Parked 1"),
            (
                Call::Arrive(
                    1002,
                    "to='other.org' xmpp:restart='true' xmlns:xmpp='urn:xmpp:xbosh'",
                    "",
                    0,
                ),
                "Parked 2",
            ),
            (
                Call::Arrive(1003, "to='other.org'", "", 0),
                "Answer <body xmlns='http://jabber.org/protocol/httpbind' stream='t1'/>",
            ),
            (Call::TakeOn, "0 Item <a/>"),
            (Call::TakeOn, "0 Restart"),
            (Call::TakeOn, "1 Open other.org"),
        ],
    ];
    for (row, calls) in rows.iter().enumerate() {
        let opening = opening_with(alloc, body, JOURNAL_BYTES)?;
        let (mut session, _answer) = Session::open(alloc, &opening)?;
        for (at, (call, want)) in calls.iter().enumerate() {
            let told = told_of_call(alloc, &mut session, *call)?;
            assert_eq!(rt; told.as_str(), *want, "row {row}, {at}");
        }
    }
    Ok(())
}
