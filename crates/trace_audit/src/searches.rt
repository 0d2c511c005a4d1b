// Searches of what the lines of a trace told.
ghost use Rattle.std.specs.Prelude.{◌≡◌, ◌+◌, ℕ, List, None, Some, IfNone, IfSome, drop, false, if◌then◌else◌, length};
ghost use Rattle.std.specs.Str.{bytes_eq};
ghost use Rattle.trace_audit.specs.declared.bodies.Posted.{Posted};
ghost use Rattle.trace_audit.specs.declared.bodies.Reply.{Reply};
ghost use Rattle.trace_audit.specs.declared.line.Item.TheVariants.{Stanza, Restart};
ghost use Rattle.trace_audit.specs.Ids.{has_at};
ghost use Rattle.trace_audit.specs.Rules.{are_next, follows, is_begun_well, last_of, same_item};
ghost use Rattle.trace_audit.specs.Run.{has_come, was_taken};
ghost use Rattle.trace_audit.specs.Stands.{IsInwardAt, IsNextAt, HasNoneAt, IsOutwardAt, MarksCome, MarksTaken, is_changed};

use crate::bodies::{Posted, Reply};
use crate::heard::Place;
use crate::ids::is_marked;
use crate::line::Item;
use crate::outcome::Rule;
use bosh_types::{Rid, Text};

// Exactly the first request is a creation.
pub(crate) fn is_begun_well(sent: &[Posted], creates: bool) -> bool
    ensures { result ≡ is_begun_well sent.now creates }
{
    match sent {
        [] => creates,
        [_, ..] => !creates,
    }
}

// The id is one more than that of the last request.
pub(crate) fn follows(sent: &[Posted], rid: Rid) -> bool
    ensures { result ≡ follows (last_of sent.now) rid }
{
    match sent.last() {
        None => true,
        Some(last) => last.rid.value() + 1 == rid.value(),
    }
}

// It is the id of the first request without an answer that counts, where so many have one.
pub(crate) fn is_lowest(sent: &[Posted], answered: usize, rid: Rid) -> bool
    ensures { result ≡ has_at sent.now answered rid }
{
    match sent.get(answered) {
        None => false,
        Some(posted) => posted.rid == rid,
    }
}

// The rule that a repeated answer breaks.
pub(crate) fn changed(earlier: &Reply, reply: &Reply) -> Option<Rule>
    ensures { result ≡ is_changed (bytes_eq earlier.now.body reply.now.body) }
{
    if earlier.body.as_slice() == reply.body.as_slice() {
        return None;
    }
    Some(Rule::Changed)
}

// How many stanzas were handed out after these, where they are the next of what was given.
pub(crate) fn handed_after(gave: &[Text], handed: usize, payloads: &[Text]) -> Option<usize>
    ensures { result ≡ (if are_next (drop handed gave.now) payloads.now then Some (handed + length payloads.now) else None) }
{
    let mut place = handed;
    for payload in payloads {
        let Some(given) = gave.get(place) else {
            return None;
        };
        if given.as_slice() != payload.as_slice() {
            return None;
        }
        place += 1;
    }
    Some(place)
}

pub(crate) fn same_item(one: &Item, other: &Item) -> bool
    ensures { result ≡ same_item one.now other.now }
{
    match one {
        Item::Stanza(stanza) => is_stanza(other, stanza),
        Item::Restart => is_restart(other),
    }
}

fn is_stanza(item: &Item, stanza: &Text) -> bool
    ensures { result ≡ same_item (Stanza stanza.now) item.now }
{
    match item {
        Item::Stanza(other) => stanza.as_slice() == other.as_slice(),
        Item::Restart => false,
    }
}

fn is_restart(item: &Item) -> bool
    ensures { result ≡ same_item Restart item.now }
{
    match item {
        Item::Stanza(_) => false,
        Item::Restart => true,
    }
}

// The next item of the run, and the place after it.
pub(crate) fn next_item<'a>(
    sent: &'a [Posted],
    came: &[bool],
    place: Place,
) -> Option<(&'a Item, Place)>
    ensures some { (ids : List ℕ) (count : ℕ) → MarksCome ids sent.now came.now → IsInwardAt ids sent.now place count →
        IfSome result (λ found. IsNextAt (has_come ids) (λ (posted : Posted). posted.terminate) (λ (posted : Posted). posted.items) sent.now count found.0.now found.1) }
    ensures none { (ids : List ℕ) (count : ℕ) → MarksCome ids sent.now came.now → IsInwardAt ids sent.now place count →
        IfNone result (HasNoneAt (has_come ids) (λ (posted : Posted). posted.terminate) (λ (posted : Posted). posted.items) sent.now count) }
{
    let mut offset = place.offset;
    for index in place.index..sent.len() {
        let posted = &sent[index];
        if !is_marked(came, index) {
            return None;
        }
        let items = posted.items.as_slice();
        if offset < items.len() {
            let after = Place {
                index,
                offset: offset + 1,
            };
            return Some((&items[offset], after));
        }
        if posted.terminate {
            return None;
        }
        offset = 0;
    }
    None
}

// The next payload of what was taken, and the place after it.
pub(crate) fn next_payload<'a>(
    counted: &'a [Reply],
    took: &[bool],
    place: Place,
) -> Option<(&'a Text, Place)>
    ensures some { (ids : List ℕ) (count : ℕ) → MarksTaken ids counted.now took.now → IsOutwardAt ids counted.now place count →
        IfSome result (λ found. IsNextAt (was_taken ids) (λ (reply : Reply). false) (λ (reply : Reply). reply.payloads) counted.now count found.0.now found.1) }
    ensures none { (ids : List ℕ) (count : ℕ) → MarksTaken ids counted.now took.now → IsOutwardAt ids counted.now place count →
        IfNone result (HasNoneAt (was_taken ids) (λ (reply : Reply). false) (λ (reply : Reply). reply.payloads) counted.now count) }
{
    let mut offset = place.offset;
    for index in place.index..counted.len() {
        let reply = &counted[index];
        if !is_marked(took, index) {
            return None;
        }
        let payloads = reply.payloads.as_slice();
        if offset < payloads.len() {
            let after = Place {
                index,
                offset: offset + 1,
            };
            return Some((&payloads[offset], after));
        }
        offset = 0;
    }
    None
}
