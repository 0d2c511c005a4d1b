// The stanzas in what is passed.
ghost use Rattle.std.specs.Prelude.{◌≡◌, Option, IfOk, IfSome, IsTrue};
ghost use Rattle.body_cutter.specs.Cutting.{is_stanza};
ghost use Rattle.xmpp_backend.specs.Kinds.{features, stanza_of, echo_of};
ghost use Rattle.xmpp_backend.specs.Script.{are_stanzas, are_answers};

use body_cutter::{CutError, read_stanza};
use bosh_types::{Inward, SharedText, Stanzas, Text};
use std::alloc::{AllocError, Global};

// Whether the text is a stanza by itself.
#[tactic(auto, unfolding(body_cutter::specs::Cutting::is_stanza))]
fn is_stanza(alloc: Global, text: &[u8]) -> Result<bool, AllocError>
    ensures { IfOk result (λ yes. yes ≡ is_stanza text.now) }
{
    match read_stanza(alloc, text) {
        Ok(()) => Ok(true),
        Err(CutError::Refused(_)) => Ok(false),
        Err(CutError::Memory) => Err(AllocError),
    }
}

// The stanza of an item, where it is one. No byte is copied.
pub(crate) fn stanza_in(alloc: Global, item: &Inward) -> Result<Option<SharedText>, AllocError>
    ensures stanza { IfOk result (λ stanza. stanza ≡ stanza_of item.now) }
    ensures text { IfOk result (λ stanza. IfSome stanza (λ text. IsTrue (is_stanza text))) }
{
    match item {
        Inward::Item(_, text) => {
            if is_stanza(alloc, text.as_slice())? {
                return Ok(Some(text.again()?));
            }
            Ok(None)
        }
        Inward::Restart(_) | Inward::Open(_, _) | Inward::Close(_) => Ok(None),
    }
}

// The features of a stream that has none.
#[tactic(auto, unfolding(crate::specs::Kinds::features))]
fn features(alloc: Global) -> Result<SharedText, AllocError>
    ensures { IfOk result (λ text. text ≡ features) }
{
    let text = Text::from_vec(Vec::from_slice(alloc, b"<stream:features/>")?);
    SharedText::new(alloc, text)
}

// What an echo gives for an item.
pub(crate) fn echo_of(alloc: Global, item: &Inward) -> Result<Option<SharedText>, AllocError>
    ensures echo { IfOk result (λ stanza. stanza ≡ echo_of item.now) }
    ensures text { IfOk result (λ stanza. IfSome stanza (λ text. IsTrue (is_stanza text))) }
{
    match item {
        Inward::Item(_, _) => stanza_in(alloc, item),
        Inward::Restart(_) => Ok(Some(features(alloc)?)),
        Inward::Open(_, _) | Inward::Close(_) => Ok(None),
    }
}

// Whether each of the texts is a stanza.
fn are_stanzas(alloc: Global, texts: &[Text]) -> Result<bool, AllocError>
    ensures { IfOk result (λ yes. yes ≡ are_stanzas texts.now) }
{
    for text in texts {
        if !is_stanza(alloc, text.as_slice())? {
            return Ok(false);
        }
    }
    Ok(true)
}

/// Whether each text of each list is a stanza by itself.
pub fn are_answers(alloc: Global, answers: &[Stanzas]) -> Result<bool, AllocError>
    ensures { IfOk result (λ yes. yes ≡ are_answers answers.now) }
{
    for stanzas in answers {
        if !are_stanzas(alloc, stanzas.as_slice())? {
            return Ok(false);
        }
    }
    Ok(true)
}
