ghost use Rattle.std.specs.Prelude.{◌≡◌, ◌↔◌, true, ℕ, List};
ghost use Rattle.std.specs.List.{AllPass};
ghost use Rattle.std.specs.Option.{SomeIff};
ghost use Rattle.bosh_types.specs.Key.{IsKey, is_key_digit};

use std::marker::Model;

/// A key of a key sequence: forty lower-case hexadecimal digits in ASCII (XEP-0124, section 15).
#[derive(Clone, Copy, Debug, PartialEq, Eq)]
pub struct Key {
    digits: [u8; 40],
}

impl Model for Key {
    ghost Value = { List ℕ };

    ghost view = { λ k. k.digits };

    ghost invariant = { λ k. AllPass is_key_digit k.digits };

    ghost inverse = { λ text. record { digits = text } };
}

impl Key {
    /// The key with these digits.
    pub fn new(digits: [u8; 40]) -> Self
        requires { AllPass is_key_digit digits }
        ensures { result ≡ digits }
    {
        Key { digits }
    }

    /// Reads a key: `None` exactly where the text is none.
    pub fn read(text: &[u8]) -> Option<Key>
        ensures { SomeIff result (IsKey text.now) text.now }
    {
        let Ok(digits) = <[u8; 40]>::try_from(text) else {
            return None;
        };
        if !all_key_digits(text) {
            return None;
        }
        Some(Key { digits })
    }

    pub fn as_slice(&self) -> &[u8]
        ensures value { result.now ≡ self.now }
        ensures in_form { IsKey self.now }
    {
        &self.digits
    }
}

fn is_key_digit(c: u8) -> bool
    ensures { result ≡ is_key_digit c }
{
    matches!(c, b'0'..=b'9' | b'a'..=b'f')
}

fn all_key_digits(text: &[u8]) -> bool
    ensures { (result ≡ true) ↔ AllPass is_key_digit text.now }
{
    text.iter().all(|c| is_key_digit(*c))
}
