ghost use Rattle.std.specs.Prelude.{◌≡◌, ◌≢◌, ℕ, ◌+◌, ◌<◌, List, IfSome, IfNone};
ghost use Rattle.std.specs.Option.{SomeIff};
ghost use Rattle.std.specs.Fmt.{decimal};
ghost use Rattle.bosh_types.specs.Rid.{IsRid, greatest_rid, rid_of};

use std::marker::Model;

const GREATEST: u64 = 9007199254740991;

/// A request id, from 1 to 9007199254740991 (XEP-0124, sections 7 and 14).
#[derive(Clone, Copy, Debug, PartialEq, Eq, PartialOrd, Ord)]
pub struct Rid {
    value: u64,
}

impl Model for Rid {
    ghost Value = { ℕ };

    ghost view = { λ r. r.value };

    ghost invariant = { λ r. IsRid r.value };

    ghost inverse = { λ n. record { value = n } };
}

impl Rid {
    /// `None` exactly outside the range of request ids.
    pub fn new(value: u64) -> Option<Rid>
        ensures { SomeIff result (IsRid value) value }
    {
        if value == 0 || GREATEST < value {
            return None;
        }
        Some(Rid { value })
    }

    pub fn value(self) -> u64
        ensures value { result ≡ self }
        ensures in_range { IsRid self }
    {
        self.value
    }

    /// The next request id: `None` exactly after the greatest.
    pub fn next(self) -> Option<Rid>
        ensures { SomeIff result (self < greatest_rid) (self + 1) }
    {
        Rid::new(self.value + 1)
    }

    /// Reads a request id from plain decimal, without a sign or a leading zero: `None` exactly where the text is none.
    pub fn read(text: &[u8]) -> Option<Rid>
        ensures value { result ≡ rid_of text.now }

        // It is the text that the number writes, and no text of a request id is refused.
        ensures written { IfSome result (λ rid. text.now ≡ decimal rid) }
        ensures refused { IfNone result ((n : ℕ) → IsRid n → text.now ≢ decimal n) }
    {
        Rid::new(number(text)?)
    }
}

// The number that the text writes, if it is that of a request id.
fn number(text: &[u8]) -> Option<u64>
    ensures { result ≡ rid_of text.now }
{
    match text {
        [b'1'..=b'9', ..] => {}
        _ => return None,
    }
    let mut value = 0u64;
    for digit in text {
        if !digit.is_ascii_digit() {
            return None;
        }
        value = value * 10 + u64::from(*digit - b'0');
        if value > GREATEST {
            return None;
        }
    }
    Some(value)
}
