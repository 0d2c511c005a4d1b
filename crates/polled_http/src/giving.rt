// A response that is given piece by piece.
ghost use Rattle.std.specs.Prelude.{◌≡◌, ◌≢◌, ◌≤◌, ◌<◌, ◌+◌, ◌^◌, ◌++◌, ℕ, List, length, drop};
ghost use Rattle.std.specs.Io.KnownBytes.{Keeps};
ghost use Rattle.bosh_http.specs.Texts.{allow_line, connection_line, phrase_of, response_text, response_with};
ghost use Rattle.bosh_ports.specs.Faults.{HasRisen};
ghost use Rattle.http.specs.StatusCode.{code_digits};
ghost use Rattle.polled_http.specs.Giving.{GivesFrom, given_after};
ghost use Rattle.polled_http.specs.Windows.{Shows};

use crate::heads::{allow, connection, phrase};
use crate::window::{Room, show};
use bosh_ports::{Gave, Polled};
use http::StatusCode;
use itoa::Buffer;

/// What giving some of a response did.
#[derive(Clone, Copy, Debug, PartialEq, Eq)]
pub enum Given {
    /// Its bytes before this place have been given now, and others are left.
    Upto(u128),
    /// All of it has been given.
    All,
    /// The link has no room now.
    NotYet,
    /// The link failed.
    Failed,
}

/// Room in which a piece of a response is put together. It serves one connection after the other: nothing stays in it.
#[derive(Drop)]
pub struct GiveRoom {
    room: Room,
}

impl GiveRoom {
    pub fn new() -> GiveRoom {
        GiveRoom { room: Room::new() }
    }

    /// Gives the next piece of a response with this content, of which the bytes before a place were given. A place is a number of 128
    /// bits, so that no text is too long for it. It takes no memory.
    pub fn give<K: Polled>(
        &mut self,
        link: &mut K,
        status: StatusCode,
        body: &[u8],
        closing: bool,
        place: u128,
    ) -> Given
        ensures given { GivesFrom (response_text status body.now closing) place (K.given link.old) (K.given link.new) result }
        ensures left { Keeps (K.left link.old) (K.left link.new) }
        ensures closed { K.closed link.new ≡ K.closed link.old }
        ensures failed { result ≡ Given.Failed → HasRisen (K.faults link.old) (K.faults link.new) }
        ensures quiet { result ≢ Given.Failed → K.faults link.new ≡ K.faults link.old }
        ensures faults { K.faults link.old ≤ K.faults link.new }
        ensures waits { result ≡ Given.NotYet → HasRisen (K.waits link.old) (K.waits link.new) }
        ensures answered { result ≢ Given.NotYet → K.waits link.new ≡ K.waits link.old }
    {
        let is_all = show_response(&mut self.room, status, body, closing, place);
        give_shown(link, self.room.as_slice(), is_all, place)
    }
}

// Shows the response with this content from a place on, as far as there is room for it. Whether that is all.
#[tactic(auto, unfolding(bosh_http::specs::Texts::response_text))]
fn show_response(
    room: &mut Room,
    status: StatusCode,
    body: &[u8],
    closing: bool,
    place: u128,
) -> bool
    ensures shows { Shows (drop place (response_text status body.now closing)) room.new.items result }
    ensures fits { 0 < length room.new.items → place + length room.new.items < 2 ^ 128 }
{
    let head = Head {
        code: status.as_str().as_bytes(),
        phrase: phrase(status).as_bytes(),
        allow: allow(status).as_bytes(),
        connection: connection(closing).as_bytes(),
    };
    show_parts(room, &head, body, place)
}

// What differs between the heads of responses.
#[derive(Drop)]
struct Head<'p> {
    code: &'p [u8],
    phrase: &'p [u8],
    allow: &'p [u8],
    connection: &'p [u8],
}

// Shows a response of these parts from a place on.
#[tactic(auto, unfolding(bosh_http::specs::Texts::response_with))]
fn show_parts(room: &mut Room, head: &Head<'_>, body: &[u8], place: u128) -> bool
    ensures shows { Shows (drop place (response_with head.now.code.now head.now.phrase.now (head.now.allow.now ++ head.now.connection.now) body.now)) room.new.items result }
    ensures fits { 0 < length room.new.items → place + length room.new.items < 2 ^ 128 }
{
    let mut digits = Buffer::new();
    let parts: [&[u8]; 13] = [
        b"HTTP/1.1 ",
        head.code,
        b" ",
        head.phrase,
        b"\r\n",
        b"Content-Type: text/xml; charset=utf-8\r\n",
        b"Content-Length: ",
        digits.format(body.len()).as_bytes(),
        b"\r\n",
        head.allow,
        head.connection,
        b"\r\n",
        body,
    ];
    show(room, &parts, place)
}

// Gives what is shown of a text from a place on.
fn give_shown<K: Polled>(link: &mut K, shown: &[u8], is_all: bool, place: u128) -> Given
    requires { 0 < length shown.now → place + length shown.now < 2 ^ 128 }
    ensures given { (text : List ℕ) → Shows (drop place text) shown.now is_all → GivesFrom text place (K.given link.old) (K.given link.new) result }
    ensures left { Keeps (K.left link.old) (K.left link.new) }
    ensures closed { K.closed link.new ≡ K.closed link.old }
    ensures failed { result ≡ Given.Failed → HasRisen (K.faults link.old) (K.faults link.new) }
    ensures quiet { result ≢ Given.Failed → K.faults link.new ≡ K.faults link.old }
    ensures faults { K.faults link.old ≤ K.faults link.new }
    ensures waits { result ≡ Given.NotYet → HasRisen (K.waits link.old) (K.waits link.new) }
    ensures answered { result ≢ Given.NotYet → K.waits link.new ≡ K.waits link.old }
{
    if shown.is_empty() {
        return Given::All;
    }
    match link.poll_give(shown) {
        None => Given::NotYet,
        Some(Gave::Wrote(count)) => given_after(shown.len(), is_all, place, count),
        Some(Gave::Failed) => Given::Failed,
    }
}

// How far a text is given, where so many bytes were given of those that were shown.
fn given_after(shown: usize, is_all: bool, place: u128, count: usize) -> Given
    requires within { count ≤ shown }
    requires fits { place + shown < 2 ^ 128 }
    ensures { result ≡ given_after shown is_all place count }
{
    if is_all && count == shown {
        return Given::All;
    }
    Given::Upto(place + count as u128)
}
