// An element of a stream, as it stands alone.
ghost use Rattle.std.specs.Prelude.{◌≡◌, ◌+◌, ◌<◌, ◌≤◌, ◌++◌, ◌&&◌, ◌||◌, ◌==◌, not, IfOk, OnOk, None, drop, length, slice_index};
ghost use Rattle.std.specs.List.{list_any};
ghost use Rattle.body_cutter.specs.Chars.{is_space};
ghost use Rattle.xmpp_stream.specs.Qualified.{begins_namespace, has_namespace, is_bare, is_prefixed, name_length, namespace_text, qualified, stands_after, with_namespace};

use crate::tag::{ends_name, ends_tag, is_space, quote_after};
use bosh_types::Text;
use std::alloc::{AllocError, Global};

// How many bytes are put into an element.
const NAMESPACE_ROOM: usize = 22;

// How many bytes stand before the end of the name with which an element begins.
#[tactic(auto, unfolding(crate::specs::Qualified::name_length))]
fn name_length(element: &[u8]) -> usize
    ensures length { result ≡ name_length 0 element.now }
    ensures within { result ≤ length element.now }
{
    for (at, b) in element.iter().enumerate() {
        if ends_name(*b) {
            return at;
        }
    }
    element.len()
}

fn is_prefixed(element: &[u8]) -> bool
    ensures { result ≡ is_prefixed element.now }
{
    let name = &element[..name_length(element)];
    name.iter().any(|b| *b == b':')
}

// Whether an attribute's name ends with this byte.
fn ends_word(b: u8) -> bool
    ensures { result ≡ (is_space b || b == 61) }
{
    is_space(b) || b == b'='
}

// Whether the text begins with the attribute `xmlns` from this place on.
#[tactic(auto, unfolding(crate::specs::Qualified::begins_namespace))]
fn begins_namespace(text: &[u8], at: usize) -> bool
    requires { at ≤ length text.now }
    ensures { result ≡ begins_namespace (drop at text.now) }
{
    let rest = &text[at..];
    if !rest.starts_with(b"xmlns") {
        return false;
    }
    match rest.get(5) {
        None => false,
        Some(b) => ends_word(*b),
    }
}

// Whether that attribute stands after the byte at this place, outside of all values.
fn stands_after(quote: Option<u8>, text: &[u8], at: usize) -> bool
    requires { at < length text.now }
    ensures { result ≡ stands_after quote (slice_index text.now at) (drop (at + 1) text.now) }
{
    match quote {
        None => is_space(text[at]) && begins_namespace(text, at + 1),
        Some(_) => false,
    }
}

// Whether the start tag with which the text begins has an attribute `xmlns`.
#[tactic(auto, unfolding(crate::specs::Qualified::has_namespace))]
fn has_namespace(element: &[u8]) -> bool
    ensures { result ≡ has_namespace None element.now }
{
    let mut quote = None;
    for (at, b) in element.iter().enumerate() {
        if ends_tag(quote, *b) {
            return false;
        }
        if stands_after(quote, element, at) {
            return true;
        }
        quote = quote_after(quote, *b);
    }
    false
}

#[tactic(auto, unfolding(crate::specs::Qualified::is_bare))]
fn is_bare(element: &[u8]) -> bool
    ensures { result ≡ is_bare element.now }
{
    if is_prefixed(element) {
        return false;
    }
    !has_namespace(element)
}

#[tactic(auto, unfolding(crate::specs::Qualified::namespace_text))]
fn push_namespace(text: &mut Vec<u8>) -> Result<(), AllocError>
    ensures { OnOk result (text.new.items ≡ text.old.items ++ namespace_text) }
{
    text.extend_from_slice(b" xmlns='jabber:client'")
}

#[tactic(auto, unfolding(crate::specs::Qualified::with_namespace))]
fn with_namespace(alloc: Global, element: &[u8]) -> Result<Text, AllocError>
    ensures { IfOk result (λ text. text ≡ with_namespace element.now) }
{
    let at = name_length(element);
    let mut text = Vec::with_capacity(alloc, element.len().saturating_add(NAMESPACE_ROOM))?;
    text.extend_from_slice(&element[..at])?;
    push_namespace(&mut text)?;
    text.extend_from_slice(&element[at..])?;
    Ok(Text::from_vec(text))
}

// The element with the namespace of its stream, unless it has a prefix or a namespace of its own.
#[tactic(auto, unfolding(crate::specs::Qualified::qualified))]
pub(crate) fn qualified(alloc: Global, element: &[u8]) -> Result<Text, AllocError>
    ensures { IfOk result (λ text. text ≡ qualified element.now) }
{
    if is_bare(element) {
        return with_namespace(alloc, element);
    }
    Ok(Text::from_vec(Vec::from_slice(alloc, element)?))
}
