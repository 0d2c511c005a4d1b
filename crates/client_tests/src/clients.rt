// A client's calls in a row, with what each is replied. The texts are those of worked examples and of other
// managers.
ghost use Rattle.std.specs.Prelude.{◌≡◌, IsTrue, true};
ghost use Rattle.body_cutter.specs.Cutting.{is_stanza};

use body_cutter::read_stanza;
use bosh_client::{Answered, Client, ClientEnd, ClientSetup, Next, Queued};
use bosh_types::{Moment, Rid, Text};
use std::alloc::{AllocError, Global};
use std::test::Fail;

// What a manager of this project answers to a creation.
const CREATED: &[u8] =
    b"<body xmlns='http://jabber.org/protocol/httpbind' xmlns:xmpp='urn:xmpp:xbosh' xmlns:stream='http://etherx.jabber.org/streams' sid='s1' wait='60' requests='2' inactivity='30' polling='5' maxpause='120' hold='1' ver='1.11' from='example.org' ack='1000' xmpp:version='1.0' xmpp:restartlogic='true'><stream:features/></body>";

// What Prosody and ejabberd answer, with what a client has no use for.
const OF_PROSODY: &[u8] =
    b"<body wait='60' xmlns:xmpp='urn:xmpp:xbosh' xmpp:version='1.0' requests='2' inactivity='60' ver='1.6' xmlns:stream='http://etherx.jabber.org/streams' hold='1' sid='a-b-c' authid='d' polling='2' from='example.org' secure='true' xmlns='http://jabber.org/protocol/httpbind'><stream:features><bind xmlns='urn:ietf:params:xml:ns:xmpp-bind'/></stream:features></body>";

const OF_EJABBERD: &[u8] =
    b"<body xmlns=\"http://jabber.org/protocol/httpbind\" xmlns:xmpp=\"urn:xmpp:xbosh\" xmlns:stream=\"http://etherx.jabber.org/streams\" sid=\"0f\" wait=\"60\" requests=\"2\" inactivity=\"30\" maxpause=\"120\" polling=\"2\" ver=\"1.10\" from=\"example.org\" secure=\"true\" authid=\"1\" xmpp:restartlogic=\"true\" xmpp:version=\"1.0\"/>";

const EMPTY: &[u8] = b"<body xmlns='http://jabber.org/protocol/httpbind'/>";

#[tactic(auto, unfolding(body_cutter::specs::Cutting::is_stanza))]
fn is_one_stanza(alloc: Global, text: &[u8]) -> bool
    ensures { result ≡ true → IsTrue (is_stanza text.now) }
{
    match read_stanza(alloc, text) {
        Ok(()) => true,
        Err(_) => false,
    }
}

fn text(alloc: Global, bytes: &[u8]) -> Result<Text, AllocError> {
    Ok(Text::from_vec(Vec::from_slice(alloc, bytes)?))
}

// A client that asks for acknowledgements, from this id on.
fn setup(alloc: Global, first: Rid, wait: u32, keys: u32) -> Result<ClientSetup, AllocError> {
    Ok(ClientSetup {
        first,
        to: text(alloc, b"example.org")?,
        wait,
        hold: 1,
        ack: true,
        seed: text(alloc, b"seed")?,
        keys,
    })
}

/// A client that has made no request.
fn client(alloc: Global, id: u64, wait: u32, keys: u32) -> Result<Client, &'static str> {
    let Some(first) = Rid::new(id) else {
        return Err("no id");
    };
    let Ok(setup) = setup(alloc, first, wait, keys) else {
        return Err("no memory");
    };
    if !setup.is_valid() {
        return Err("no setup");
    }
    match Client::new(alloc, setup) {
        Ok(client) => Ok(client),
        Err(AllocError) => Err("no memory"),
    }
}

/// Whether this is the request, and its copy is the same.
fn is_sent(client: &Client, next: &Next, want: &[u8]) -> bool {
    match next {
        Next::Nothing => want == b"nothing".as_slice(),
        Next::RidsSpent => want == b"spent".as_slice(),
        Next::Request { rid, body } => {
            body.as_slice() == want && client.copy(*rid) == Some(want)
        }
    }
}

/// Whether a client sends this at the moment: a body, `nothing` or `spent`.
fn sends(alloc: Global, client: &mut Client, millis: u64, want: &[u8]) -> Result<bool, AllocError> {
    let next = client.next_request(alloc, Moment::from_millis(millis))?;
    Ok(is_sent(client, &next, want))
}

/// What a client makes of an answer.
fn takes(
    alloc: Global,
    client: &mut Client,
    id: u64,
    body: &[u8],
    millis: u64,
) -> Result<Answered, &'static str> {
    let Some(rid) = Rid::new(id) else {
        return Err("no id");
    };
    match client.answer(alloc, rid, body, Moment::from_millis(millis)) {
        Ok(answered) => Ok(answered),
        Err(AllocError) => Err("no memory"),
    }
}

/// What a client makes of a stanza.
fn puts(alloc: Global, client: &mut Client, stanza: &[u8]) -> Result<Queued, &'static str> {
    if !is_one_stanza(alloc, stanza) {
        return Err("no stanza");
    }
    match client.put(alloc, stanza) {
        Ok(queued) => Ok(queued),
        Err(AllocError) => Err("no memory"),
    }
}

/// Whether a client hands out this next, where nothing is the empty text.
fn hands(client: &mut Client, want: &[u8]) -> bool {
    match client.hand_out() {
        Some(payload) => payload.as_slice() == want,
        None => want.is_empty(),
    }
}

// The request that creates its session.
const FIRST: &[u8] =
    b"<body xmlns='http://jabber.org/protocol/httpbind' xmlns:xmpp='urn:xmpp:xbosh' rid='1000' to='example.org' xml:lang='en' wait='60' hold='1' ver='1.11' content='text/xml; charset=utf-8' ack='1' xmpp:version='1.0'/>";

/// A client whose session was created.
fn created(alloc: Global) -> Result<Client, &'static str> {
    let mut c = client(alloc, 1000, 60, 0)?;
    if !matches!(sends(alloc, &mut c, 0, FIRST), Ok(true)) {
        return Err("no creation");
    }
    match takes(alloc, &mut c, 1000, CREATED, 0)? {
        Answered::Done => Ok(c),
        _ => Err("no session"),
    }
}

/// A client with two more requests, neither of them answered, whose creation's payload was handed out.
fn with_requests(alloc: Global) -> Result<Client, &'static str> {
    let mut c = created(alloc)?;
    if !hands(&mut c, b"<stream:features/>") {
        return Err("no features");
    }
    puts(alloc, &mut c, b"<message id='1'/>")?;
    let stanza =
        b"<body xmlns='http://jabber.org/protocol/httpbind' rid='1001' sid='s1'><message id='1'/></body>";
    if !matches!(sends(alloc, &mut c, 0, stanza), Ok(true)) {
        return Err("no stanza");
    }
    Ok(c)
}

#[test]
fn a_restart_follows_and_then_nothing_is_due(rt: HostRuntime) -> Result<(), Fail> {
    let mut c = with_requests(rt.alloc())?;
    assert_eq!(rt; c.restart()?, Queued::Done);
    let restart =
        b"<body xmlns='http://jabber.org/protocol/httpbind' xmlns:xmpp='urn:xmpp:xbosh' rid='1002' sid='s1' ack='1000' xmpp:restart='true'/>";
    assert!(rt; sends(rt.alloc(), &mut c, 0, restart)?);
    assert!(rt; sends(rt.alloc(), &mut c, 0, b"nothing")?);
    Ok(())
}

const OF_A: &[u8] = b"<body xmlns='http://jabber.org/protocol/httpbind'><a/></body>";

const OF_B: &[u8] = b"<body xmlns='http://jabber.org/protocol/httpbind'><b/></body>";

#[test]
fn an_early_answer_is_handed_out_in_its_order(rt: HostRuntime) -> Result<(), Fail> {
    let mut c = with_requests(rt.alloc())?;
    c.restart()?;
    c.next_request(rt.alloc(), Moment::from_millis(0))?;
    assert_eq!(rt; takes(rt.alloc(), &mut c, 1002, OF_B, 0)?, Answered::Done);
    assert!(rt; hands(&mut c, b""));
    assert_eq!(rt; takes(rt.alloc(), &mut c, 1001, OF_A, 0)?, Answered::Done);
    assert!(rt; hands(&mut c, b"<a/>") && hands(&mut c, b"<b/>"));
    assert!(rt; hands(&mut c, b""));
    Ok(())
}

const ERROR: &[u8] = b"<body xmlns='http://jabber.org/protocol/httpbind' type='error'/>";

// What a manager says to a request.
#[derive(Clone, Copy, Debug, PartialEq, Eq)]
enum Reply {
    Error,
    OfA,
    OfB,
}

impl Reply {
    fn body(self) -> &'static [u8] {
        match self {
            Reply::Error => ERROR,
            Reply::OfA => OF_A,
            Reply::OfB => OF_B,
        }
    }
}

// What is to be sent again, from the first id to the last.
fn again(first: u64, last: u64) -> Option<Answered> {
    Some(Answered::Again {
        first: Rid::new(first)?,
        last: Rid::new(last)?,
    })
}

#[test]
fn an_error_asks_for_all_again_that_have_no_answer(rt: HostRuntime) -> Result<(), Fail> {
    let mut c = with_requests(rt.alloc())?;
    c.restart()?;
    c.next_request(rt.alloc(), Moment::from_millis(0))?;
    // the id, its answer, and what is made of it
    let rows = [
        (1003, Reply::Error, Some(Answered::Unmade)),
        (1000, Reply::Error, Some(Answered::Stale)),
        (1002, Reply::Error, again(1001, 1002)),
        (1001, Reply::Error, again(1001, 1001)),
        (1001, Reply::OfA, Some(Answered::Done)),
        (1002, Reply::Error, again(1002, 1002)),
        (1002, Reply::OfB, Some(Answered::Done)),
        (1002, Reply::Error, Some(Answered::Stale)),
    ];
    for (rid, reply, want) in rows {
        let answered = takes(rt.alloc(), &mut c, rid, reply.body(), 0)?;
        assert_eq!(rt; Some(answered), want, "{reply:?} to {rid}");
    }
    assert!(rt; hands(&mut c, b"<a/>") && hands(&mut c, b"<b/>") && hands(&mut c, b""));
    Ok(())
}

#[test]
fn an_answer_of_no_request_or_a_second_one_is_nothing(rt: HostRuntime) -> Result<(), Fail> {
    let mut c = created(rt.alloc())?;
    assert_eq!(rt; takes(rt.alloc(), &mut c, 1000, OF_A, 0)?, Answered::Stale);
    assert_eq!(rt; takes(rt.alloc(), &mut c, 1001, OF_A, 0)?, Answered::Unmade);
    let empty = b"<body xmlns='http://jabber.org/protocol/httpbind' rid='1001' sid='s1'/>";
    assert!(rt; sends(rt.alloc(), &mut c, 0, empty)?);
    assert_eq!(rt; takes(rt.alloc(), &mut c, 1001, EMPTY, 0)?, Answered::Done);
    Ok(())
}

#[test]
fn a_pause_is_as_long_as_was_agreed(rt: HostRuntime) -> Result<(), Fail> {
    let mut c = created(rt.alloc())?;
    assert_eq!(rt; c.pause(121)?, Queued::TooLong);
    assert_eq!(rt; c.pause(120)?, Queued::Done);
    let pause =
        b"<body xmlns='http://jabber.org/protocol/httpbind' rid='1001' sid='s1' pause='120'/>";
    assert!(rt; sends(rt.alloc(), &mut c, 0, pause)?);
    Ok(())
}

const LAST: &[u8] =
    b"<body xmlns='http://jabber.org/protocol/httpbind' type='terminate'><a/></body>";

#[test]
fn a_session_ends(rt: HostRuntime) -> Result<(), Fail> {
    let mut c = created(rt.alloc())?;
    assert_eq!(rt; c.terminate()?, Queued::Done);
    assert_eq!(rt; puts(rt.alloc(), &mut c, b"<a/>")?, Queued::Over);
    let terminate =
        b"<body xmlns='http://jabber.org/protocol/httpbind' rid='1001' sid='s1' type='terminate'/>";
    assert!(rt; sends(rt.alloc(), &mut c, 0, terminate)?);
    assert_eq!(rt; takes(rt.alloc(), &mut c, 1001, LAST, 0)?, Answered::Done);
    assert_eq!(rt; c.ended(), Some(ClientEnd { condition: None }));
    assert!(rt; hands(&mut c, b"<stream:features/>") && hands(&mut c, b""));
    assert!(rt; sends(rt.alloc(), &mut c, 0, b"nothing")?);
    Ok(())
}

/// A polling client with sequences of two keys, whose session was created after a second.
fn with_keys(alloc: Global) -> Result<Client, &'static str> {
    let mut c = client(alloc, 1, 0, 2)?;
    let creation =
        b"<body xmlns='http://jabber.org/protocol/httpbind' xmlns:xmpp='urn:xmpp:xbosh' rid='1' to='example.org' xml:lang='en' wait='0' hold='1' ver='1.11' content='text/xml; charset=utf-8' ack='1' newkey='ec17259117e754202a5df8fd0116580ff0741835' xmpp:version='1.0'/>";
    if !matches!(sends(alloc, &mut c, 0, creation), Ok(true)) {
        return Err("no creation");
    }
    takes(alloc, &mut c, 1, CREATED, 1000)?;
    Ok(c)
}

#[test]
fn sequences_of_keys_follow_each_other(rt: HostRuntime) -> Result<(), Fail> {
    let mut c = with_keys(rt.alloc())?;
    assert!(rt; sends(rt.alloc(), &mut c, 5999, b"nothing")?);
    let second =
        b"<body xmlns='http://jabber.org/protocol/httpbind' rid='2' sid='s1' key='acfb443ca32367b65a333af124091aaca89c4bf1' newkey='f7a8e5e8b2703f1849d8a1184a43618cca4b8329'/>";
    assert!(rt; sends(rt.alloc(), &mut c, 6000, second)?);
    takes(rt.alloc(), &mut c, 2, EMPTY, 6000)?;
    let third =
        b"<body xmlns='http://jabber.org/protocol/httpbind' rid='3' sid='s1' key='1f748191b13a43ca7cccb140635dd9f91bee94a9' newkey='2b44a7d18a559fac12c9b654f7f1af2c739bb864'/>";
    assert!(rt; sends(rt.alloc(), &mut c, 11000, third)?);
    Ok(())
}

#[test]
fn no_id_is_left(rt: HostRuntime) -> Result<(), Fail> {
    let mut c = client(rt.alloc(), 9007199254740991, 60, 0)?;
    c.next_request(rt.alloc(), Moment::from_millis(0))?;
    takes(rt.alloc(), &mut c, 9007199254740991, CREATED, 0)?;
    assert!(rt; sends(rt.alloc(), &mut c, 0, b"spent")?);
    Ok(())
}

/// How many of so many stanzas are queued.
fn queued_of(alloc: Global, client: &mut Client, stanzas: usize) -> Result<usize, &'static str> {
    for _ in 0..stanzas {
        puts(alloc, client, b"<a/>")?;
    }
    Ok(client.queued())
}

#[test]
fn the_queue_has_an_end(rt: HostRuntime) -> Result<(), Fail> {
    let mut c = client(rt.alloc(), 5, 60, 0)?;
    assert_eq!(rt; queued_of(rt.alloc(), &mut c, 1025)?, 1024);
    assert_eq!(rt; c.restart()?, Queued::Done);
    Ok(())
}

/// What a client makes of this answer to its creation, in a word: `taken`, `broken`, or how it ends the client.
fn made_of(alloc: Global, body: &[u8]) -> Result<&'static str, &'static str> {
    let mut c = client(alloc, 1000, 60, 0)?;
    if !matches!(sends(alloc, &mut c, 0, FIRST), Ok(true)) {
        return Err("no creation");
    }
    let answered = takes(alloc, &mut c, 1000, body, 0)?;
    if let Some(end) = c.ended() {
        return Ok(end.condition.map_or("plain", |condition| condition.name()));
    }
    match answered {
        Answered::Done => Ok("taken"),
        _ => Ok("broken"),
    }
}

#[test]
fn reads_the_answers_of_managers(rt: HostRuntime) -> Result<(), Fail> {
    assert_eq!(rt; made_of(rt.alloc(), CREATED)?, "taken");
    assert_eq!(rt; made_of(rt.alloc(), OF_PROSODY)?, "taken");
    assert_eq!(rt; made_of(rt.alloc(), OF_EJABBERD)?, "taken");
    assert_eq!(rt;
        made_of(
            rt.alloc(),
            b"<body sid='s' condition='other-request' xmlns='http://jabber.org/protocol/httpbind'/>"
        )?,
        "taken"
    );
    Ok(())
}

#[test]
fn reads_how_a_session_ends(rt: HostRuntime) -> Result<(), Fail> {
    assert_eq!(rt;
        made_of(
            rt.alloc(),
            b"<body type='terminate' condition='remote-stream-error' xmlns='http://jabber.org/protocol/httpbind'/>"
        )?,
        "remote-stream-error"
    );
    assert_eq!(rt;
        made_of(
            rt.alloc(),
            b"<body type='terminate' condition='see-other-uri' xmlns='http://jabber.org/protocol/httpbind'><uri>http://h</uri></body>"
        )?,
        "undefined-condition"
    );
    assert_eq!(rt; made_of(rt.alloc(), LAST)?, "plain");
    Ok(())
}

#[test]
fn a_broken_answer_is_none(rt: HostRuntime) -> Result<(), Fail> {
    assert_eq!(rt; made_of(rt.alloc(), EMPTY)?, "broken");
    assert_eq!(rt;
        made_of(
            rt.alloc(),
            b"<body type='error' xmlns='http://jabber.org/protocol/httpbind'/>"
        )?,
        "broken"
    );
    assert_eq!(rt; made_of(rt.alloc(), b"<body type='terminate'/>")?, "broken");
    assert_eq!(rt; made_of(rt.alloc(), b"<html></html>")?, "broken");
    Ok(())
}
