ghost use Rattle.std.specs.Prelude.{◌≡◌};
ghost use Rattle.body_cutter.specs.Tables.{body_content_next, child_content_next, content_next, end_name_next, end_space_next, more_brackets, opened_in_body, opened_in_child, opened_next, section_letter, section_next, section_word_next, stanza_start_next};

use crate::chars::{is_char_byte, is_name_start, is_space};
use crate::place::{Act, Around, Move, Place};
use crate::prolog::{goes, goes_if};
use crate::tags::begins_reference;

/// One `]` more, of which two are counted.
#[inline]
#[tactic(auto, unfolding(crate::specs::Tables::more_brackets))]
fn more_brackets(count: u8) -> u8
    ensures { result ≡ more_brackets count }
{
    if count == 0 { 1 } else { 2 }
}

/// In a child's content, where `]]>` may not stand (XML 1.0 section 2.4).
#[inline]
#[tactic(auto, unfolding(crate::specs::Tables::child_content_next))]
fn child_content_next(brackets: u8, b: u8) -> Option<Move>
    ensures { result ≡ child_content_next brackets b }
{
    if b == b'<' {
        return goes(Place::Opened, Act::Pass);
    }
    if b == b'&' {
        return begins_reference(Place::Content(0));
    }
    if b == b']' {
        return goes(Place::Content(more_brackets(brackets)), Act::Pass);
    }
    if b == b'>' && brackets == 2 {
        return None;
    }
    goes_if(is_char_byte(b), Place::Content(0), Act::Pass)
}

/// In the body's own content: white space and children.
#[inline]
#[tactic(auto, unfolding(crate::specs::Tables::body_content_next))]
fn body_content_next(b: u8) -> Option<Move>
    ensures { result ≡ body_content_next b }
{
    if b == b'<' {
        return goes(Place::Opened, Act::Mark);
    }
    goes_if(is_space(b), Place::Content(0), Act::Pass)
}

/// Between tags.
#[inline]
#[tactic(auto, unfolding(crate::specs::Tables::content_next, crate::specs::Names::around))]
pub(crate) fn content_next(around: Around, brackets: u8, b: u8) -> Option<Move>
    ensures { result ≡ content_next around brackets b }
{
    match around {
        Around::NoBody => goes_if(is_space(b), Place::Content(0), Act::Pass),
        Around::NoStanza => None,
        Around::Body => body_content_next(b),
        Around::Child => child_content_next(brackets, b),
    }
}

/// After a `<` in content. A comment, a processing instruction and, between children, a CDATA section are no part of it.
#[inline]
#[tactic(auto, unfolding(crate::specs::Tables::opened_next, crate::specs::Names::around))]
pub(crate) fn opened_next(around: Around, b: u8) -> Option<Move>
    ensures { result ≡ opened_next around b }
{
    match around {
        Around::NoBody | Around::NoStanza => goes_if(
            is_name_start(b),
            Place::TagName,
            Act::BeginName,
        ),
        Around::Body => opened_in_body(b),
        Around::Child => opened_in_child(b),
    }
}

#[tactic(auto, unfolding(crate::specs::Tables::opened_in_body))]
fn opened_in_body(b: u8) -> Option<Move>
    ensures { result ≡ opened_in_body b }
{
    if b == b'/' {
        return goes(Place::EndName(0), Act::Pass);
    }
    goes_if(is_name_start(b), Place::TagName, Act::BeginName)
}

#[tactic(auto, unfolding(crate::specs::Tables::opened_in_child))]
fn opened_in_child(b: u8) -> Option<Move>
    ensures { result ≡ opened_in_child b }
{
    if b == b'!' {
        return goes(Place::SectionWord(0), Act::Pass);
    }
    opened_in_body(b)
}

/// The byte of `[CDATA[` at this place.
#[tactic(auto, unfolding(crate::specs::Tables::section_letter))]
fn section_letter(count: u8) -> u8
    ensures { result ≡ section_letter count }
{
    match count {
        1 => b'C',
        2 => b'D',
        3 => b'A',
        4 => b'T',
        5 => b'A',
        _ => b'[',
    }
}

/// After `<!` and bytes of `[CDATA[`.
#[tactic(auto, unfolding(crate::specs::Tables::section_word_next))]
pub(crate) fn section_word_next(count: u8, b: u8) -> Option<Move>
    ensures { result ≡ section_word_next count b }
{
    if count < 6 {
        goes_if(
            b == section_letter(count),
            Place::SectionWord(count + 1),
            Act::Pass,
        )
    } else {
        goes_if(b == b'[', Place::Section(0), Act::Pass)
    }
}

/// In a CDATA section, up to the first `]]>`.
#[inline]
#[tactic(auto, unfolding(crate::specs::Tables::section_next))]
pub(crate) fn section_next(brackets: u8, b: u8) -> Option<Move>
    ensures { result ≡ section_next brackets b }
{
    if b == b']' {
        return goes(Place::Section(more_brackets(brackets)), Act::Pass);
    }
    if b == b'>' && brackets == 2 {
        return goes(Place::Content(0), Act::Pass);
    }
    goes_if(is_char_byte(b), Place::Section(0), Act::Pass)
}

/// In an end tag: the byte of the name that is due, and after the name white space or `>`.
#[tactic(auto, unfolding(crate::specs::Tables::end_name_next, crate::specs::Names::due))]
pub(crate) fn end_name_next(due: Option<(u8, usize)>, b: u8) -> Option<Move>
    ensures { result ≡ end_name_next due b }
{
    match due {
        Some((wanted, count)) => goes_if(b == wanted, Place::EndName(count), Act::Pass),
        None => end_space_next(b),
    }
}

/// After the name of an end tag.
#[tactic(auto, unfolding(crate::specs::Tables::end_space_next))]
pub(crate) fn end_space_next(b: u8) -> Option<Move>
    ensures { result ≡ end_space_next b }
{
    if b == b'>' {
        return goes(Place::Content(0), Act::CloseElement);
    }
    goes_if(is_space(b), Place::EndSpace, Act::Pass)
}

/// Before the `<` of a stanza by itself.
#[tactic(auto, unfolding(crate::specs::Tables::stanza_start_next))]
pub(crate) fn stanza_start_next(b: u8) -> Option<Move>
    ensures { result ≡ stanza_start_next b }
{
    goes_if(b == b'<', Place::Opened, Act::Pass)
}
