ghost use Rattle.std.specs.Prelude.{◌≡◌};
ghost use Rattle.body_cutter.specs.Tables.{body_letter, xml_letter, declaration_next, declaration_word_next, first_next, goes, goes_if, body_word_next, name_ended, prolog_next, start_next};

use crate::chars::{is_char_byte, is_space};
use crate::place::{Act, Move, Place};

/// A move after a whole character.
#[inline]
pub(crate) fn goes(place: Place, act: Act) -> Option<Move>
    ensures { result ≡ goes place act }
{
    Some(Move {
        place,
        reference: None,
        act,
    })
}

#[inline]
pub(crate) fn goes_if(can: bool, place: Place, act: Act) -> Option<Move>
    ensures { result ≡ goes_if can place act }
{
    if can { goes(place, act) } else { None }
}

/// At the first byte.
#[tactic(auto, unfolding(crate::specs::Tables::start_next))]
pub(crate) fn start_next(b: u8) -> Option<Move>
    ensures { result ≡ start_next b }
{
    if b == b'<' {
        return goes(Place::First, Act::Pass);
    }
    goes_if(is_space(b), Place::Prolog, Act::Pass)
}

/// After a `<` that is the first byte.
#[tactic(auto, unfolding(crate::specs::Tables::first_next))]
pub(crate) fn first_next(b: u8) -> Option<Move>
    ensures { result ≡ first_next b }
{
    if b == b'?' {
        return goes(Place::DeclarationWord(0), Act::Pass);
    }
    goes_if(b == b'b', Place::BodyWord(1), Act::GrowName)
}

/// The letter of `xml` at this place.
#[tactic(auto, unfolding(crate::specs::Tables::xml_letter))]
fn xml_letter(count: u8) -> u8
    ensures { result ≡ xml_letter count }
{
    match count {
        0 => b'x',
        1 => b'm',
        _ => b'l',
    }
}

/// After `<?` and letters of `xml`.
#[tactic(auto, unfolding(crate::specs::Tables::declaration_word_next))]
pub(crate) fn declaration_word_next(count: u8, b: u8) -> Option<Move>
    ensures { result ≡ declaration_word_next count b }
{
    if count < 3 {
        goes_if(
            b == xml_letter(count),
            Place::DeclarationWord(count + 1),
            Act::Pass,
        )
    } else {
        goes_if(is_space(b), Place::Declaration(false), Act::Pass)
    }
}

/// In the declaration, up to the first `?>`.
#[tactic(auto, unfolding(crate::specs::Tables::declaration_next))]
pub(crate) fn declaration_next(after_mark: bool, b: u8) -> Option<Move>
    ensures { result ≡ declaration_next after_mark b }
{
    if after_mark && b == b'>' {
        return goes(Place::Prolog, Act::Pass);
    }
    goes_if(is_char_byte(b), Place::Declaration(b == b'?'), Act::Pass)
}

/// Before the body's `<`.
#[tactic(auto, unfolding(crate::specs::Tables::prolog_next))]
pub(crate) fn prolog_next(b: u8) -> Option<Move>
    ensures { result ≡ prolog_next b }
{
    if b == b'<' {
        return goes(Place::BodyWord(0), Act::Pass);
    }
    goes_if(is_space(b), Place::Prolog, Act::Pass)
}

/// The letter of `body` at this place.
#[tactic(auto, unfolding(crate::specs::Tables::body_letter))]
fn body_letter(count: u8) -> u8
    ensures { result ≡ body_letter count }
{
    match count {
        0 => b'b',
        1 => b'o',
        2 => b'd',
        _ => b'y',
    }
}

/// After the body's `<` and letters of `body`.
#[tactic(auto, unfolding(crate::specs::Tables::body_word_next))]
pub(crate) fn body_word_next(count: u8, b: u8) -> Option<Move>
    ensures { result ≡ body_word_next count b }
{
    if count < 4 {
        goes_if(
            b == body_letter(count),
            Place::BodyWord(count + 1),
            Act::GrowName,
        )
    } else {
        name_ended(b)
    }
}

/// After the name of a start tag.
#[inline]
#[tactic(auto, unfolding(crate::specs::Tables::name_ended))]
pub(crate) fn name_ended(b: u8) -> Option<Move>
    ensures { result ≡ name_ended b }
{
    if b == b'/' {
        return goes(Place::TagSlash, Act::OpenElement);
    }
    if b == b'>' {
        return goes(Place::Content(0), Act::OpenElement);
    }
    goes_if(is_space(b), Place::TagSpace, Act::OpenElement)
}
