// What the pump tells of the sessions that it met and of those that it removed, and a loop of the creations that were refused in it.
ghost use Rattle.std.specs.Prelude.{◌≡◌};

use bosh_types::{CopyIn, Moment, SharedText, Text};
use serve_loop::Refused;
use server_watch::{Limit, Note, Watch};
use session_pump::{Hosts, Met, News, Removed};
use std::alloc::{AllocError, Global};
use std::sync::Wait;
use xmpp_backend::Backend;

/// Tells the news of a pump, those of sessions that were met first, and clears them. What finds no memory is counted.
pub(crate) fn tell_news<R: Wait, E: Backend>(
    rt: &R,
    alloc: Global,
    watch: &Watch,
    news: &mut News,
    hosts: &Hosts<E>,
    at: Moment,
) {
    if !watch.is_on() {
        return;
    }
    for met in &news.met {
        watch.note(rt, opened(alloc, met, hosts, at).ok());
    }
    for removed in &news.removed {
        watch.note(rt, ended(removed, at).ok());
    }
    watch.lose(rt, news.lost);
    news.clear();
}

/// Tells of the creations that were refused since that was told last.
pub(crate) fn tell_refused<R: Wait>(rt: &R, watch: &Watch, refused: &mut Refused)
    ensures { refused.new ≡ record { table_full = 0; openings_spent = 0 } }
{
    for _ in 0..refused.table_full {
        watch.refuse(rt, Limit::Sessions);
    }
    for _ in 0..refused.openings_spent {
        watch.refuse(rt, Limit::Openings);
    }
    *refused = Refused::NONE;
}

// A session was opened.
fn opened<E: Backend>(
    alloc: Global,
    met: &Met,
    hosts: &Hosts<E>,
    at: Moment,
) -> Result<Note, AllocError> {
    Ok(Note::Opened {
        number: met.number,
        sid: met.sid.again()?,
        host: SharedText::new(alloc, name_at(alloc, hosts, met.host)?)?,
        at,
    })
}

// A session has ended.
fn ended(removed: &Removed, at: Moment) -> Result<Note, AllocError> {
    Ok(Note::Ended {
        number: removed.number,
        sid: removed.sid.again()?,
        ending: removed.ending,
        at,
    })
}

// The name of the host at this place; none is empty.
fn name_at<E: Backend>(
    alloc: Global,
    hosts: &Hosts<E>,
    place: Option<usize>,
) -> Result<Text, AllocError> {
    let Some(place) = place else {
        return Ok(Text::from_vec(Vec::new(alloc)));
    };
    match hosts.stands.get(place) {
        Some(stand) => stand.host.name.copy_in(alloc),
        None => Ok(Text::from_vec(Vec::new(alloc))),
    }
}
