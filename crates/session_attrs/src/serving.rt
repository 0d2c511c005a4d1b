// What may stand in a host's name and in its greeting, so that sessions can be opened at it.
ghost use Rattle.std.specs.Prelude.{◌≡◌, IfOk, chars, length, nat_le, sum_by};
ghost use Rattle.std.specs.List.{list_all};
ghost use Rattle.body_cutter.specs.Chars.{is_allowed};
ghost use Rattle.body_cutter.specs.Cutting.{is_stanza};
ghost use Rattle.bosh_types.specs.Limits.{longest_stanza};
ghost use Rattle.session_attrs.specs.Serving.{can_serve, is_allowed_text, is_host_name, may_greet};

use body_cutter::{CutError, is_allowed, read_stanza};
use bosh_types::limits::{LONGEST_STANZA, MOST_WAITING};
use bosh_types::{HostName, Text};
use std::alloc::{AllocError, Global};

// How many bytes the name of a host has at most.
const LONGEST_NAME: usize = 1023;

/// Whether a session can be opened at this host: its name is one of a host, and one answer may take its greeting. The only
/// error is want of memory.
pub fn can_serve(alloc: Global, host: &HostName) -> Result<bool, AllocError>
    ensures { IfOk result (λ can. can ≡ can_serve host.now) }
{
    if !is_host_name(host.name.as_slice()) {
        return Ok(false);
    }
    may_greet(alloc, host.greeting.as_slice())
}

/// Whether a host may have this name: it has 1 to 1023 bytes and is text that may stand in XML.
#[tactic(auto, unfolding(crate::specs::Serving::is_host_name))]
pub fn is_host_name(name: &[u8]) -> bool
    ensures { result ≡ is_host_name name.now }
{
    if name.is_empty() || name.len() > LONGEST_NAME {
        return false;
    }
    is_allowed_text(name)
}

/// Whether the bytes are UTF-8 of the characters that XML 1.0, section 2.2, allows.
pub fn is_allowed_text(bytes: &[u8]) -> bool
    ensures { result ≡ is_allowed_text bytes.now }
{
    match std::str::from_utf8(bytes) {
        Ok(text) => is_all_allowed(text),
        Err(_) => false,
    }
}

fn is_all_allowed(text: &str) -> bool
    ensures { result ≡ list_all is_allowed (chars text.now) }
{
    text.chars().all(|c| is_allowed(u32::from(c)))
}

/// Whether one answer may take these: at most 1024 stanzas, each a stanza by itself, of at most 1,000,000 bytes in all. The
/// only error is want of memory.
#[tactic(auto, unfolding(crate::specs::Serving::may_greet))]
pub fn may_greet(alloc: Global, stanzas: &[Text]) -> Result<bool, AllocError>
    ensures { IfOk result (λ may. may ≡ may_greet stanzas.now) }
{
    if stanzas.len() > MOST_WAITING || !fits(stanzas) {
        return Ok(false);
    }
    all_stanzas(alloc, stanzas)
}

// Whether the texts have at most 1,000,000 bytes in all.
fn fits(texts: &[Text]) -> bool
    ensures { result ≡ nat_le (sum_by (λ text. length text) texts.now) longest_stanza }
{
    let mut room = LONGEST_STANZA;
    for text in texts {
        if text.len() > room {
            return false;
        }
        room -= text.len();
    }
    true
}

fn all_stanzas(alloc: Global, texts: &[Text]) -> Result<bool, AllocError>
    ensures { IfOk result (λ all. all ≡ list_all is_stanza texts.now) }
{
    for text in texts {
        if !is_stanza(alloc, text.as_slice())? {
            return Ok(false);
        }
    }
    Ok(true)
}

/// Whether the text is a stanza by itself. The only error is want of memory.
#[tactic(auto, unfolding(body_cutter::specs::Cutting::is_stanza))]
pub fn is_stanza(alloc: Global, text: &[u8]) -> Result<bool, AllocError>
    ensures { IfOk result (λ yes. yes ≡ is_stanza text.now) }
{
    match read_stanza(alloc, text) {
        Ok(()) => Ok(true),
        Err(CutError::Refused(_)) => Ok(false),
        Err(CutError::Memory) => Err(AllocError),
    }
}
