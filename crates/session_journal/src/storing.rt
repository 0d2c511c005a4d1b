// The steps with which entries are stored.
ghost use Rattle.std.specs.Prelude.{◌≡◌, ◌+◌, ◌<◌, ◌≤◌, ◌^◌, OnOk, Some, length, vec_len, vec_capacity};
ghost use Rattle.parked_gate.specs.Histories.{Appends};
ghost use Rattle.session_core.specs.Tickets.{uses_up};
ghost use Rattle.session_journal.specs.declared.entry.Entered.{Entered as Call};
ghost use Rattle.session_journal.specs.Storing.{by_caller, handed_out, cost_at_end, is_quiet, stored_as};

use crate::entry::{Entered, Entry, Limited};
use crate::history::History;
use bosh_types::{Ending, Moment};
use session_core::{Arrived, Collected, Ticked};
use std::alloc::AllocError;

/// Makes room for an entry, and for one more for each ticket that is out and each that may be handed out.
pub(crate) fn make_room(entries: &mut Vec<Entry>, out: usize, more: usize) -> Result<(), AllocError>
    ensures items { entries.new.items ≡ entries.old.items }
    ensures len { vec_len entries.new ≡ vec_len entries.old }
    ensures capacity { vec_capacity entries.old ≤ vec_capacity entries.new }
    ensures fits { OnOk result (out + more + 1 < 2 ^ 64) }
    ensures ok { OnOk result (vec_len entries.new + (out + more + 1) ≤ vec_capacity entries.new) }
{
    let Some(tickets) = out.checked_add(more) else {
        return Err(AllocError);
    };
    let Some(room) = tickets.checked_add(1) else {
        return Err(AllocError);
    };
    entries.reserve(room)
}

/// Whether an entry can be counted, and one more for each ticket that is out and each that may be handed out.
pub(crate) fn has_room(count: u64, out: usize, more: u64) -> Result<(), AllocError>
    ensures ok { OnOk result (count + out + more + 1 < 2 ^ 64) }
{
    let Some(tickets) = count.checked_add(out as u64) else {
        return Err(AllocError);
    };
    let Some(room) = tickets.checked_add(more) else {
        return Err(AllocError);
    };
    match room.checked_add(1) {
        Some(_) => Ok(()),
        None => Err(AllocError),
    }
}

/// Enters what the caller made, if it made something, and hands it out. It takes no memory.
pub(crate) fn enter(
    entries: &mut History<Entry>,
    caller: u32,
    entered: Option<Entered>,
) -> Option<Entered>
    requires { length entries.old + 1 < 2 ^ 64 }
    ensures made { result ≡ entered }
    ensures entries { Appends (λ e. e.caller) caller entries.old (by_caller caller entered) entries.new }
{
    let call = entered?;
    let entry = Entry { caller, call };
    entries.add(&entry);
    Some(entry.call)
}

/// Adds the entry of a caller, if there is one. It takes no memory.
pub(crate) fn store(entries: &mut Vec<Entry>, caller: u32, entered: Option<Entered>)
    requires { (call : Call) → entered ≡ Some call → vec_len entries.old < vec_capacity entries.old }
    ensures items { Appends (λ e. e.caller) caller entries.old.items (by_caller caller entered) entries.new.items }
    ensures len { vec_len entries.new ≤ vec_len entries.old + 1 }
    ensures capacity { vec_capacity entries.new ≡ vec_capacity entries.old }
{
    if let Some(call) = entered {
        entries.push_reserved(Entry { caller, call });
    }
}

// The cost of the call that met the limit, where a session ended so.
fn cost_at_end(ending: Option<Ending>) -> Option<u64>
    ensures { result ≡ cost_at_end ending }
{
    match ending {
        Some(Ending::JournalFull { cost, .. }) => Some(cost),
        _ => None,
    }
}

/// What is stored of a call that may meet the limit of the journal: nothing where the session had ended before it, and in the
/// call's place the limit where the session has ended by that.
pub(crate) fn stored_as(
    before: Option<Ending>,
    after: Option<Ending>,
    kind: Limited,
    now: Moment,
    call: Entered,
) -> Option<Entered>
    ensures { result ≡ stored_as before after kind now call }
{
    if before.is_some() {
        return None;
    }
    match cost_at_end(after) {
        Some(cost) => Some(Entered::Limit { kind, cost, now }),
        None => Some(call),
    }
}

/// How many tickets an arrival hands out.
pub(crate) fn handed_out(reply: &Arrived) -> usize
    ensures { result ≡ handed_out reply.now }
{
    match reply {
        Arrived::Parked(_) => 1,
        Arrived::Answer(_) => 0,
        Arrived::Over => 0,
    }
}

/// Whether what there is for a ticket uses it up.
pub(crate) fn uses_up(collected: &Collected) -> bool
    ensures { result ≡ uses_up collected.now }
{
    match collected {
        Collected::Answer(_) => true,
        Collected::Superseded => true,
        Collected::NotYet => false,
        Collected::UnknownTicket => false,
    }
}

/// Whether time found nothing to do.
pub(crate) fn is_quiet(ticked: Ticked) -> bool
    ensures { result ≡ is_quiet ticked }
{
    match ticked {
        Ticked::Changed => false,
        Ticked::Quiet => true,
    }
}
