ghost use Rattle.std.specs.Prelude.{◌≡◌};
ghost use Rattle.body_cutter.specs.Chars.{is_whole};
ghost use Rattle.body_cutter.specs.Feeding.{refusal_after};
ghost use Rattle.body_cutter.specs.Reading.{state_of};
ghost use Rattle.body_cutter.specs.Refusal.{ended_refusal, ends_in_section_start, is_before_body, is_complete, is_content, is_forbidden, is_opened, limit_refusal};

use crate::parts::CutRefusal;
use crate::place::{Place, Wide};
use crate::reader::Reader;
use bosh_types::limits::MOST_CHILDREN;

#[tactic(auto, unfolding(crate::specs::Refusal::is_before_body))]
fn is_before_body(place: Place) -> bool
    ensures { result ≡ is_before_body place }
{
    match place {
        Place::Start => true,
        Place::First => true,
        Place::DeclarationWord(_) => true,
        Place::Declaration(_) => true,
        Place::Prolog => true,
        Place::BodyWord(_) => true,
        _ => false,
    }
}

pub(crate) fn is_whole(wide: Wide) -> bool
    ensures { result ≡ is_whole wide }
{
    match wide {
        Wide::Whole => true,
        _ => false,
    }
}

fn is_content(place: Place) -> bool
    ensures { result ≡ is_content place }
{
    match place {
        Place::Content(_) => true,
        _ => false,
    }
}

fn is_opened(place: Place) -> bool
    ensures { result ≡ is_opened place }
{
    match place {
        Place::Opened => true,
        _ => false,
    }
}

/// Whether the bytes end with `<!` or a longer unfinished beginning of `<![CDATA[`.
#[tactic(auto, unfolding(crate::specs::Refusal::ends_in_section_start))]
fn ends_in_section_start(bytes: &[u8]) -> bool
    ensures { result ≡ ends_in_section_start bytes.now }
{
    bytes.ends_with(b"<!")
        || bytes.ends_with(b"<![")
        || bytes.ends_with(b"<![C")
        || bytes.ends_with(b"<![CD")
        || bytes.ends_with(b"<![CDA")
        || bytes.ends_with(b"<![CDAT")
        || bytes.ends_with(b"<![CDATA")
}

#[tactic(auto, unfolding(crate::specs::Refusal::is_forbidden))]
fn is_forbidden(before: &[u8], reader: &Reader, b: u8) -> bool
    ensures { result ≡ is_forbidden before.now (state_of reader.now) b }
{
    reader.reference.is_some()
        || (is_opened(reader.place) && (b == b'?' || b == b'!'))
        || ends_in_section_start(before)
}

/// The refusal of a text that goes wrong at a place, after these bytes.
pub(crate) fn refusal_after(before: &[u8], at: usize, b: u8, reader: &Reader) -> CutRefusal
    ensures { result ≡ refusal_after before.now at b (state_of reader.now) }
{
    if is_before_body(reader.place) {
        return CutRefusal::NotBody;
    }
    if is_forbidden(before, reader, b) {
        return CutRefusal::Forbidden(at);
    }
    CutRefusal::Malformed(at)
}

/// The first limit that a complete text passes.
#[tactic(auto, unfolding(crate::specs::Refusal::limit_refusal))]
pub(crate) fn limit_refusal(reader: &Reader) -> Option<CutRefusal>
    ensures { result ≡ limit_refusal (state_of reader.now) }
{
    if reader.too_many_attributes {
        return Some(CutRefusal::TooManyAttributes);
    }
    if reader.children.len() > MOST_CHILDREN {
        return Some(CutRefusal::TooManyChildren);
    }
    if reader.too_deep {
        return Some(CutRefusal::TooDeep);
    }
    None
}

#[tactic(auto, unfolding(crate::specs::Refusal::is_complete))]
pub(crate) fn is_complete(reader: &Reader) -> bool
    ensures { result ≡ is_complete (state_of reader.now) }
{
    is_content(reader.place)
        && is_whole(reader.wide)
        && reader.reference.is_none()
        && reader.elements.is_empty()
}

/// The refusal of a text of this length that is read to its end.
#[tactic(auto, unfolding(crate::specs::Refusal::ended_refusal))]
pub(crate) fn ended_refusal(len: usize, reader: &Reader) -> Option<CutRefusal>
    ensures { result ≡ ended_refusal len (state_of reader.now) }
{
    if is_before_body(reader.place) {
        return Some(CutRefusal::NotBody);
    }
    if is_complete(reader) {
        return limit_refusal(reader);
    }
    Some(CutRefusal::Malformed(len))
}
