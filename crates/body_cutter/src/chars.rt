ghost use Rattle.std.specs.Prelude.{◌≡◌};
ghost use Rattle.body_cutter.specs.Chars.{is_space, is_plain, is_letter, is_digit, begins_name_plainly, grows_name_plainly, is_char_byte, is_name_start, is_name_byte, wide_begin, wide_next, after_tail, is_allowed};
ghost use Rattle.body_cutter.specs.Utf8.{utf8_next};

use crate::place::Wide;

/// White space (XML 1.0 section 2.3).
#[inline]
#[tactic(auto, unfolding(crate::specs::Chars::is_space))]
pub(crate) fn is_space(b: u8) -> bool
    ensures { result ≡ is_space b }
{
    b == 32 || b == 9 || b == 10 || b == 13
}

/// An allowed character below U+0080 (XML 1.0 section 2.2).
#[inline]
#[tactic(auto, unfolding(crate::specs::Chars::is_plain))]
fn is_plain(b: u8) -> bool
    ensures { result ≡ is_plain b }
{
    b == 9 || b == 10 || b == 13 || (32 <= b && b < 128)
}

#[inline]
#[tactic(auto, unfolding(crate::specs::Chars::is_letter))]
fn is_letter(b: u8) -> bool
    ensures { result ≡ is_letter b }
{
    (65 <= b && b <= 90) || (97 <= b && b <= 122)
}

#[inline]
#[tactic(auto, unfolding(crate::specs::Chars::is_digit))]
fn is_digit(b: u8) -> bool
    ensures { result ≡ is_digit b }
{
    48 <= b && b <= 57
}

/// An ASCII character that may begin a name.
#[inline]
#[tactic(auto, unfolding(crate::specs::Chars::begins_name_plainly))]
fn begins_name_plainly(b: u8) -> bool
    ensures { result ≡ begins_name_plainly b }
{
    is_letter(b) || b == 95 || b == 58
}

/// An ASCII character that a name may go on with.
#[inline]
#[tactic(auto, unfolding(crate::specs::Chars::grows_name_plainly))]
fn grows_name_plainly(b: u8) -> bool
    ensures { result ≡ grows_name_plainly b }
{
    begins_name_plainly(b) || is_digit(b) || b == 45 || b == 46
}

/// An allowed character (XML 1.0 section 2.2).
#[tactic(auto, unfolding(crate::specs::Chars::is_allowed))]
pub fn is_allowed(n: u32) -> bool
    ensures { result ≡ is_allowed n }
{
    n == 9
        || n == 10
        || n == 13
        || (32 <= n && n < 0xd800)
        || (0xe000 <= n && n <= 0xfffd)
        || (0x10000 <= n && n <= 0x10ffff)
}

/// What is left of a character after its first byte.
#[inline]
#[tactic(auto, unfolding(crate::specs::Chars::wide_begin))]
fn wide_begin(b: u8) -> Option<Wide>
    ensures { result ≡ wide_begin b }
{
    if b < 0x80 {
        return Some(Wide::Whole);
    }
    if b < 0xc2 {
        return None;
    }
    if b < 0xe0 {
        return Some(Wide::One);
    }
    if b == 0xe0 {
        return Some(Wide::AfterE0);
    }
    if b == 0xed {
        return Some(Wide::AfterEd);
    }
    if b == 0xef {
        return Some(Wide::AfterEf);
    }
    if b < 0xf0 {
        return Some(Wide::Two);
    }
    if b == 0xf0 {
        return Some(Wide::AfterF0);
    }
    if b < 0xf4 {
        return Some(Wide::Three);
    }
    if b == 0xf4 {
        return Some(Wide::AfterF4);
    }
    None
}

#[inline]
fn after_tail(is_tail: bool, rest: Wide) -> Option<Wide>
    ensures { result ≡ after_tail is_tail rest }
{
    if is_tail { Some(rest) } else { None }
}

/// What is left of a character after one byte more. U+FFFE and U+FFFF are no allowed characters.
#[inline]
#[tactic(auto, unfolding(crate::specs::Chars::wide_next))]
pub(crate) fn wide_next(wide: Wide, b: u8) -> Option<Wide>
    ensures { result ≡ wide_next wide b }
{
    match wide {
        Wide::Whole => wide_begin(b),
        Wide::One => after_tail(0x80 <= b && b < 0xc0, Wide::Whole),
        Wide::Two => after_tail(0x80 <= b && b < 0xc0, Wide::One),
        Wide::Three => after_tail(0x80 <= b && b < 0xc0, Wide::Two),
        Wide::AfterE0 => after_tail(0xa0 <= b && b < 0xc0, Wide::One),
        Wide::AfterEd => after_tail(0x80 <= b && b < 0xa0, Wide::One),
        Wide::AfterEf => {
            if b == 0xbf {
                Some(Wide::AfterEfBf)
            } else {
                after_tail(0x80 <= b && b < 0xbf, Wide::One)
            }
        }
        Wide::AfterEfBf => after_tail(0x80 <= b && b < 0xbe, Wide::Whole),
        Wide::AfterF0 => after_tail(0x90 <= b && b < 0xc0, Wide::Two),
        Wide::AfterF4 => after_tail(0x80 <= b && b < 0x90, Wide::Two),
    }
}

/// What is left of a character, allowed or not, after one byte more.
#[tactic(auto, unfolding(crate::specs::Utf8::utf8_next, crate::specs::Chars::wide_next))]
pub(crate) fn utf8_next(wide: Wide, b: u8) -> Option<Wide>
    ensures { result ≡ utf8_next wide b }
{
    match wide {
        Wide::AfterEfBf => after_tail(0x80 <= b && b < 0xc0, Wide::Whole),
        _ => wide_next(wide, b),
    }
}

/// A byte of an allowed character.
#[inline]
#[tactic(auto, unfolding(crate::specs::Chars::is_char_byte))]
pub(crate) fn is_char_byte(b: u8) -> bool
    ensures { result ≡ is_char_byte b }
{
    is_plain(b) || 128 <= b
}

/// The first byte of a character that may begin a name.
#[inline]
#[tactic(auto, unfolding(crate::specs::Chars::is_name_start))]
pub(crate) fn is_name_start(b: u8) -> bool
    ensures { result ≡ is_name_start b }
{
    begins_name_plainly(b) || 128 <= b
}

/// A byte of a character that a name may go on with.
#[inline]
#[tactic(auto, unfolding(crate::specs::Chars::is_name_byte))]
pub(crate) fn is_name_byte(b: u8) -> bool
    ensures { result ≡ is_name_byte b }
{
    grows_name_plainly(b) || 128 <= b
}
