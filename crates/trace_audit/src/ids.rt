// Where an id stands: ids go on by one, so that each is found by its distance to the first.
ghost use Rattle.std.specs.Prelude.{◌≡◌, set, slice_get, true};
ghost use Rattle.std.specs.Option.{option_copied};
ghost use Rattle.trace_audit.specs.Ids.{distance, first_id, is_marked};

use crate::bodies::{Posted, Reply};
use bosh_types::Rid;

// How many ids lie between that of the first request and this one, where it isn't lower.
pub(crate) fn distance(sent: &[Posted], rid: Rid) -> Option<usize>
    ensures { result ≡ distance (first_id sent.now) rid }
{
    let first = match sent {
        [] => return None,
        [first, ..] => first.rid.value(),
    };
    let rid = rid.value();
    if rid < first {
        return None;
    }
    Some((rid - first) as usize)
}

// What stands there is marked.
pub(crate) fn is_marked(marks: &[bool], place: usize) -> bool
    ensures { result ≡ is_marked marks.now place }
{
    match marks.get(place) {
        None => false,
        Some(mark) => *mark,
    }
}

// Marks what stands there.
pub(crate) fn mark(marks: &mut Vec<bool>, place: usize)
    ensures { marks.new.items ≡ set marks.old.items place true }
{
    if place < marks.len() {
        marks[place] = true;
    }
}

// The request that stands there.
pub(crate) fn request_at(sent: &[Posted], place: usize) -> Option<&Posted>
    ensures { option_copied result ≡ slice_get sent.now place }
{
    sent.get(place)
}

// The answer that stands there.
pub(crate) fn answer_at(replies: &[Reply], place: usize) -> Option<&Reply>
    ensures { option_copied result ≡ slice_get replies.now place }
{
    replies.get(place)
}
