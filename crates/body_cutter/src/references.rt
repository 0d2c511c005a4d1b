ghost use Rattle.std.specs.Prelude.{◌≡◌};
ghost use Rattle.body_cutter.specs.References.{begun_next, decimal_more, decimal_next, decimal_or_end, done_if, done_number, hex_digit, hex_more, hex_next, hex_or_end, letter, letter_a_next, number_next, reference_next};

use crate::chars::is_allowed;
use crate::place::{Reference, ReferenceMove};

#[tactic(auto, unfolding(crate::specs::References::letter))]
fn letter(b: u8, wanted: u8, then: Reference) -> Option<ReferenceMove>
    ensures { result ≡ letter b wanted then }
{
    if b == wanted {
        Some(ReferenceMove::More(then))
    } else {
        None
    }
}

#[tactic(auto, unfolding(crate::specs::References::begun_next))]
fn begun_next(b: u8) -> Option<ReferenceMove>
    ensures { result ≡ begun_next b }
{
    match b {
        b'#' => Some(ReferenceMove::More(Reference::Number)),
        b'l' => Some(ReferenceMove::More(Reference::L)),
        b'g' => Some(ReferenceMove::More(Reference::G)),
        b'a' => Some(ReferenceMove::More(Reference::A)),
        b'q' => Some(ReferenceMove::More(Reference::Q)),
        _ => None,
    }
}

#[tactic(auto, unfolding(crate::specs::References::letter_a_next))]
fn letter_a_next(b: u8) -> Option<ReferenceMove>
    ensures { result ≡ letter_a_next b }
{
    match b {
        b'm' => Some(ReferenceMove::More(Reference::Am)),
        b'p' => Some(ReferenceMove::More(Reference::Ap)),
        _ => None,
    }
}

/// A reference that ends here, where it may.
#[tactic(auto, unfolding(crate::specs::References::done_if))]
fn done_if(is_good: bool, value: char) -> Option<ReferenceMove>
    ensures { result ≡ done_if is_good value }
{
    if is_good {
        Some(ReferenceMove::Done(value))
    } else {
        None
    }
}

/// A number that ends here, if it is an allowed character.
#[tactic(auto, unfolding(crate::specs::References::done_number, crate::specs::References::done_if, crate::specs::Chars::is_allowed))]
fn done_number(value: u32) -> Option<ReferenceMove>
    ensures { result ≡ done_number value }
{
    match char::from_u32(value) {
        Some(character) => done_if(is_allowed(value), character),
        None => None,
    }
}

/// A number so far, which may not pass the greatest code point.
#[tactic(auto, unfolding(crate::specs::References::decimal_more))]
fn decimal_more(value: u64) -> Option<ReferenceMove>
    ensures { result ≡ decimal_more value }
{
    if value <= 0x10ffff {
        Some(ReferenceMove::More(Reference::Decimal(value as u32)))
    } else {
        None
    }
}

#[tactic(auto, unfolding(crate::specs::References::hex_more))]
fn hex_more(value: u64) -> Option<ReferenceMove>
    ensures { result ≡ hex_more value }
{
    if value <= 0x10ffff {
        Some(ReferenceMove::More(Reference::Hex(value as u32)))
    } else {
        None
    }
}

/// What a hexadecimal digit stands for.
#[tactic(auto, unfolding(crate::specs::References::hex_digit))]
fn hex_digit(b: u8) -> Option<u8>
    ensures digit { result ≡ hex_digit b }
{
    if 48 <= b && b <= 57 {
        return Some(b - 48);
    }
    if 97 <= b && b <= 102 {
        return Some(b - 87);
    }
    if 65 <= b && b <= 70 {
        return Some(b - 55);
    }
    None
}

#[tactic(auto, unfolding(crate::specs::References::decimal_next))]
fn decimal_next(value: u32, b: u8) -> Option<ReferenceMove>
    ensures { result ≡ decimal_next value b }
{
    if 48 <= b && b <= 57 {
        decimal_more(value as u64 * 10 + (b - 48) as u64)
    } else {
        None
    }
}

#[tactic(auto, unfolding(crate::specs::References::hex_next))]
fn hex_next(value: u32, b: u8) -> Option<ReferenceMove>
    ensures { result ≡ hex_next value b }
{
    match hex_digit(b) {
        Some(digit) => hex_more(value as u64 * 16 + digit as u64),
        None => None,
    }
}

/// What a byte makes of an unfinished reference.
#[tactic(auto, unfolding(crate::specs::References::reference_next))]
pub(crate) fn reference_next(reference: Reference, b: u8) -> Option<ReferenceMove>
    ensures { result ≡ reference_next reference b }
{
    match reference {
        Reference::Begun => begun_next(b),
        Reference::L => letter(b, b't', Reference::Named('<')),
        Reference::G => letter(b, b't', Reference::Named('>')),
        Reference::A => letter_a_next(b),
        Reference::Am => letter(b, b'p', Reference::Named('&')),
        Reference::Ap => letter(b, b'o', Reference::Apo),
        Reference::Apo => letter(b, b's', Reference::Named('\'')),
        Reference::Q => letter(b, b'u', Reference::Qu),
        Reference::Qu => letter(b, b'o', Reference::Quo),
        Reference::Quo => letter(b, b't', Reference::Named('"')),
        Reference::Named(value) => done_if(b == b';', value),
        Reference::Number => number_next(b),
        Reference::Decimal(value) => decimal_or_end(value, b),
        Reference::HexMark => hex_next(0, b),
        Reference::Hex(value) => hex_or_end(value, b),
    }
}

#[tactic(auto, unfolding(crate::specs::References::number_next))]
fn number_next(b: u8) -> Option<ReferenceMove>
    ensures { result ≡ number_next b }
{
    if b == b'x' {
        Some(ReferenceMove::More(Reference::HexMark))
    } else {
        decimal_next(0, b)
    }
}

#[tactic(auto, unfolding(crate::specs::References::decimal_or_end))]
fn decimal_or_end(value: u32, b: u8) -> Option<ReferenceMove>
    ensures { result ≡ decimal_or_end value b }
{
    if b == b';' {
        done_number(value)
    } else {
        decimal_next(value, b)
    }
}

#[tactic(auto, unfolding(crate::specs::References::hex_or_end))]
fn hex_or_end(value: u32, b: u8) -> Option<ReferenceMove>
    ensures { result ≡ hex_or_end value b }
{
    if b == b';' {
        done_number(value)
    } else {
        hex_next(value, b)
    }
}
