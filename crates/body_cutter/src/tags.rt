ghost use Rattle.std.specs.Prelude.{◌≡◌};
ghost use Rattle.body_cutter.specs.Tables.{after_value_next, attr_equals_next, attr_name_next, attr_quote_next, tag_name_next, tag_slash_next, tag_space_next, value_next, value_plain, begins_reference};

use crate::chars::{is_char_byte, is_name_byte, is_name_start, is_space};
use crate::place::{Act, Move, Place, Reference};
use crate::prolog::{goes, goes_if, name_ended};

/// In the name of a start tag.
#[inline]
#[tactic(auto, unfolding(crate::specs::Tables::tag_name_next))]
pub(crate) fn tag_name_next(b: u8) -> Option<Move>
    ensures { result ≡ tag_name_next b }
{
    if is_name_byte(b) {
        goes(Place::TagName, Act::GrowName)
    } else {
        name_ended(b)
    }
}

/// After white space in a tag.
#[inline]
#[tactic(auto, unfolding(crate::specs::Tables::tag_space_next))]
pub(crate) fn tag_space_next(b: u8) -> Option<Move>
    ensures { result ≡ tag_space_next b }
{
    if b == b'/' {
        return goes(Place::TagSlash, Act::Pass);
    }
    if b == b'>' {
        return goes(Place::Content(0), Act::Pass);
    }
    if is_space(b) {
        return goes(Place::TagSpace, Act::Pass);
    }
    goes_if(is_name_start(b), Place::AttrName, Act::BeginName)
}

/// In the name of an attribute.
#[inline]
#[tactic(auto, unfolding(crate::specs::Tables::attr_name_next))]
pub(crate) fn attr_name_next(b: u8) -> Option<Move>
    ensures { result ≡ attr_name_next b }
{
    if b == b'=' {
        return goes(Place::AttrQuote, Act::EndAttrName);
    }
    if is_space(b) {
        return goes(Place::AttrEquals, Act::EndAttrName);
    }
    goes_if(is_name_byte(b), Place::AttrName, Act::GrowName)
}

/// In the white space before `=`.
#[tactic(auto, unfolding(crate::specs::Tables::attr_equals_next))]
pub(crate) fn attr_equals_next(b: u8) -> Option<Move>
    ensures { result ≡ attr_equals_next b }
{
    if b == b'=' {
        return goes(Place::AttrQuote, Act::Pass);
    }
    goes_if(is_space(b), Place::AttrEquals, Act::Pass)
}

/// After `=`.
#[tactic(auto, unfolding(crate::specs::Tables::attr_quote_next))]
pub(crate) fn attr_quote_next(b: u8) -> Option<Move>
    ensures { result ≡ attr_quote_next b }
{
    if b == b'\'' {
        return goes(Place::Value(39, false), Act::Pass);
    }
    if b == b'"' {
        return goes(Place::Value(34, false), Act::Pass);
    }
    goes_if(is_space(b), Place::AttrQuote, Act::Pass)
}

/// After a `&`.
pub(crate) fn begins_reference(place: Place) -> Option<Move>
    ensures { result ≡ begins_reference place }
{
    Some(Move {
        place,
        reference: Some(Reference::Begun),
        act: Act::Pass,
    })
}

/// A character of a value that stands for itself, or for a space (XML 1.0 section 3.3.3).
#[inline]
#[tactic(auto, unfolding(crate::specs::Tables::value_plain))]
fn value_plain(quote: u8, after_cr: bool, b: u8) -> Option<Move>
    ensures { result ≡ value_plain quote after_cr b }
{
    if b == 10 && after_cr {
        return goes(Place::Value(quote, false), Act::Pass);
    }
    if b == 13 {
        return goes(Place::Value(quote, true), Act::ValueChar(' '));
    }
    if b == 10 || b == 9 {
        return goes(Place::Value(quote, false), Act::ValueChar(' '));
    }
    goes_if(is_char_byte(b), Place::Value(quote, false), Act::ValueByte)
}

/// In a value.
#[inline]
#[tactic(auto, unfolding(crate::specs::Tables::value_next))]
pub(crate) fn value_next(quote: u8, after_cr: bool, b: u8) -> Option<Move>
    ensures { result ≡ value_next quote after_cr b }
{
    if b == quote {
        return goes(Place::AfterValue, Act::EndAttr);
    }
    if b == b'<' {
        return None;
    }
    if b == b'&' {
        return begins_reference(Place::Value(quote, false));
    }
    value_plain(quote, after_cr, b)
}

/// After a value's last quote.
#[tactic(auto, unfolding(crate::specs::Tables::after_value_next))]
pub(crate) fn after_value_next(b: u8) -> Option<Move>
    ensures { result ≡ after_value_next b }
{
    if b == b'/' {
        return goes(Place::TagSlash, Act::Pass);
    }
    if b == b'>' {
        return goes(Place::Content(0), Act::Pass);
    }
    goes_if(is_space(b), Place::TagSpace, Act::Pass)
}

/// After the `/` of an empty element.
#[tactic(auto, unfolding(crate::specs::Tables::tag_slash_next))]
pub(crate) fn tag_slash_next(b: u8) -> Option<Move>
    ensures { result ≡ tag_slash_next b }
{
    goes_if(b == b'>', Place::Content(0), Act::CloseElement)
}
