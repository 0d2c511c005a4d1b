ghost use Rattle.std.specs.Prelude.{◌≡◌, min};
ghost use Rattle.session_attrs.specs.Terms.{asked_hold, asked_wait, is_lower, is_polling, lower_version, terms_of};

use crate::request::Creation;
use bosh_types::Terms;

/// What a session waits and holds at most, and where its client asks for nothing.
const LONGEST_WAIT: u32 = 120;

const USUAL_WAIT: u32 = 60;

const MOST_HELD: u32 = 4;

const USUAL_HELD: u32 = 1;

/// How long a client may be silent, and one that polls.
const INACTIVITY: u32 = 30;

const POLLING_INACTIVITY: u32 = 75;

/// How far empty requests lie apart, and how long a pause may be.
const POLLING: u32 = 5;

const LONGEST_PAUSE: u32 = 120;

/// The version of XEP-0124 that this manager speaks.
const VERSION: (u32, u32) = (1, 11);

/// The terms of a session (XEP-0124, section 7). It takes no memory.
#[tactic(auto, unfolding(crate::specs::Terms::terms_of))]
pub fn negotiate(creation: &Creation) -> Terms
    ensures { result ≡ terms_of creation.now }
{
    let polled = is_polling(creation);
    let hold = if polled { 0 } else { held(creation) };
    Terms {
        wait: if polled { 0 } else { waited(creation) },
        hold,
        requests: hold + 1,
        inactivity: if polled {
            POLLING_INACTIVITY
        } else {
            INACTIVITY
        },
        polling: POLLING,
        maxpause: LONGEST_PAUSE,
        version: lower(creation.version, VERSION),
        polled,
    }
}

// How long a request may be held: `wait` asks for it, 60 seconds where it is absent, and 120 are the most.
fn waited(creation: &Creation) -> u32
    ensures { result ≡ min (asked_wait creation.now) 120 }
{
    creation.wait.unwrap_or(USUAL_WAIT).min(LONGEST_WAIT)
}

fn held(creation: &Creation) -> u32
    ensures { result ≡ min (asked_hold creation.now) 4 }
{
    creation.hold.unwrap_or(USUAL_HELD).min(MOST_HELD)
}

fn is_polling(creation: &Creation) -> bool
    ensures { result ≡ is_polling creation.now }
{
    creation.wait.unwrap_or(USUAL_WAIT) == 0 || creation.hold.unwrap_or(USUAL_HELD) == 0
}

// The lower of two versions: major first, then minor, as numbers.
fn lower(this: (u32, u32), other: (u32, u32)) -> (u32, u32)
    ensures { result ≡ lower_version this other }
{
    if is_lower(this, other) { this } else { other }
}

fn is_lower(this: (u32, u32), other: (u32, u32)) -> bool
    ensures { result ≡ is_lower this other }
{
    this.0 < other.0 || (this.0 == other.0 && this.1 < other.1)
}
