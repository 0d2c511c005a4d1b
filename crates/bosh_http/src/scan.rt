// Which bytes of a head may tell something new. A head that comes byte by byte isn't parsed anew at each of them.
ghost use Rattle.std.specs.Prelude.{◌≡◌, ◌<◌, ℕ, List, false, length};
ghost use Rattle.bosh_http.specs.Message.{longest_head};
ghost use Rattle.bosh_http.specs.Scanning.{NoHeadEnds, Scans, fine, line_step, step_of, value_step, within_step};

use bosh_types::limits::LONGEST_HEAD;
use httparse::{is_header_name_token, is_header_value_token, is_method_token, is_uri_token};

// How many bytes of a request line stand after its target, and of a status line before its phrase.
const AFTER_TARGET: u8 = 10;

const BEFORE_PHRASE: u8 = 13;

// Where in a head the next byte stands.
#[derive(Clone, Copy, Debug, PartialEq, Eq)]
enum Place {
    // Before the first line, or in an empty line there after its CR.
    Before,
    BeforeReturn,
    MethodStart,
    Method,
    Target,
    // In the first line, where so many bytes may each tell something.
    Line(u8),
    LineStart,
    Name,
    Value,
    // After the CR of a line.
    Return,
    // Where each byte may tell something.
    Anywhere,
}

// A scan of a head as its bytes come.
#[derive(Clone, Copy, Debug)]
pub(crate) struct Scan {
    // Where the first line begins.
    first: Place,
    place: Place,
    // How many bytes were scanned.
    seen: usize,
}

impl Scan {
    pub(crate) fn request() -> Self
        ensures scans { (bytes : List ℕ) → Scans result.seen result.place bytes }
        ensures none { result.seen ≡ 0 }
    {
        Scan {
            first: Place::MethodStart,
            place: Place::Before,
            seen: 0,
        }
    }

    pub(crate) fn response() -> Self
        ensures scans { (bytes : List ℕ) → Scans result.seen result.place bytes }
        ensures none { result.seen ≡ 0 }
    {
        Scan {
            first: Place::Line(BEFORE_PHRASE),
            place: Place::Before,
            seen: 0,
        }
    }

    // Whether one of the bytes that weren't scanned yet may tell something. The scan goes no further than that byte, since the
    // parser then sees all of them.
    pub(crate) fn is_due(&mut self, bytes: &[u8]) -> bool
        requires { Scans self.old.seen self.old.place bytes.now }
        ensures scans { Scans self.new.seen self.new.place bytes.now }
        ensures short { result ≡ false → length bytes.now < longest_head }
        // Where it is not due, no head ends in the bytes that weren't scanned yet.
        ensures none { result ≡ false → NoHeadEnds self.old.seen (length bytes.now) bytes.now }
    {
        while self.seen < bytes.len() {
            let (place, is_due) = self.step(bytes[self.seen]);
            self.place = place;
            self.seen += 1;
            if is_due {
                return true;
            }
        }
        bytes.len() >= LONGEST_HEAD
    }

    // Where the byte after this one stands, and whether this one may tell something.
    #[tactic(auto, unfolding(crate::specs::Scanning::step_of))]
    fn step(&self, byte: u8) -> (Place, bool)
        ensures { result ≡ step_of self.now.first self.now.place byte }
    {
        match self.place {
            Place::Before => match byte {
                b'\r' => (Place::BeforeReturn, false),
                b'\n' => (Place::Before, false),
                _ => step_within(self.first, byte),
            },
            Place::BeforeReturn => fine(byte == b'\n', Place::Before),
            place => step_within(place, byte),
        }
    }
}

// The same from the first line on.
#[tactic(auto, unfolding(crate::specs::Scanning::within_step))]
fn step_within(place: Place, byte: u8) -> (Place, bool)
    ensures { result ≡ within_step place byte }
{
    match place {
        Place::MethodStart => fine(is_method_token(byte), Place::Method),
        Place::Method => match byte {
            b' ' => (Place::Target, false),
            _ => fine(is_method_token(byte), Place::Method),
        },
        Place::Target => match byte {
            b' ' => (Place::Line(AFTER_TARGET), true),
            _ => fine(is_uri_token(byte), Place::Target),
        },
        Place::Line(left) => step_in_line(left, byte),
        Place::LineStart => fine(is_header_name_token(byte), Place::Name),
        Place::Name => match byte {
            b':' => (Place::Value, false),
            _ => fine(is_header_name_token(byte), Place::Name),
        },
        Place::Value => step_in_value(byte),
        Place::Return => fine(byte == b'\n', Place::LineStart),
        _ => (Place::Anywhere, true),
    }
}

// The same in the first line.
#[tactic(auto, unfolding(crate::specs::Scanning::line_step))]
fn step_in_line(left: u8, byte: u8) -> (Place, bool)
    ensures { result ≡ line_step left byte }
{
    if byte == b'\n' {
        return (Place::LineStart, true);
    }
    if byte == b'\r' {
        return (Place::Return, true);
    }
    if left == 0 {
        return step_in_value(byte);
    }
    (Place::Line(left - 1), true)
}

// The same in a value.
#[tactic(auto, unfolding(crate::specs::Scanning::value_step))]
fn step_in_value(byte: u8) -> (Place, bool)
    ensures { result ≡ value_step byte }
{
    match byte {
        b'\r' => (Place::Return, false),
        b'\n' => (Place::LineStart, false),
        _ => fine(is_header_value_token(byte), Place::Value),
    }
}

// A byte that goes on as it may tells nothing.
#[tactic(auto, unfolding(crate::specs::Scanning::fine))]
fn fine(goes_on: bool, place: Place) -> (Place, bool)
    ensures { result ≡ fine goes_on place }
{
    if goes_on {
        return (place, false);
    }
    (Place::Anywhere, true)
}
