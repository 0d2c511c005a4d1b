ghost use Rattle.std.specs.Prelude.{◌≡◌};
ghost use Rattle.std.specs.Option.{option_copied};
ghost use Rattle.session_attrs.specs.Attributes.{is_named, value_of};

use body_cutter::{Attr, Cut};

// Whether the attribute has this name in the text.
#[tactic(auto, unfolding(crate::specs::Attributes::is_named))]
fn is_named(text: &[u8], name: &[u8], attr: &Attr) -> bool
    ensures { result ≡ is_named text.now name.now attr.now }
{
    let span = attr.name;
    if span.start > span.end || span.end > text.len() {
        return false;
    }
    &text[span.start..span.end] == name
}

/// The value of the first attribute with this name, of a body that was cut from this text.
#[tactic(auto, unfolding(crate::specs::Attributes::value_of))]
pub fn value_of<'a>(cut: &'a Cut, text: &[u8], name: &[u8]) -> Option<&'a [u8]>
    ensures { option_copied result ≡ value_of text.now cut.now.attrs name.now }
{
    let attr = cut
        .attrs
        .as_slice()
        .iter()
        .find(|attr| is_named(text, name, attr))?;
    Some(attr.value.as_slice())
}
