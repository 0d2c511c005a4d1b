ghost use Rattle.std.specs.Prelude.{◌≡◌, []};
ghost use Rattle.std.specs.BTreeMap.{IsEmpty};
ghost use Rattle.std.specs.List.{list_any};

use crate::hosts::{Hosts, Stand};
use crate::line::Line;
use crate::news::News;
use pause_rules::DueIndex;
use session_table::Purse;
use std::alloc::Global;
use std::collections::BTreeMap;
use xmpp_backend::Backend;

/// What stands between the sessions of a server and its back ends: a purse of its own, the hosts, and the lines of the sessions
/// that it has met, by their opening numbers.
#[derive(Drop)]
pub struct Pump<E: Backend> {
    pub(crate) alloc: Global,
    pub purse: Purse,
    pub hosts: Hosts<E>,
    pub lines: BTreeMap<u64, Line>,
    /// When time next has something to do for each of the sessions, as they answered when that was last noted.
    pub dues: DueIndex,
    /// What there is to tell of sessions that were met and removed, where that is wanted.
    pub news: News,
}

impl<E: Backend> Pump<E> {
    /// A pump with this purse and these hosts that has met no session yet. It takes no memory.
    pub fn new(alloc: Global, purse: Purse, hosts: Hosts<E>) -> Pump<E>
        ensures purse { result.purse ≡ purse }
        ensures hosts { result.hosts ≡ hosts }
        ensures lines { IsEmpty result.lines }
        ensures dues { result.dues ≡ [] }
    {
        Pump {
            alloc,
            purse,
            hosts,
            lines: BTreeMap::new(alloc),
            dues: DueIndex::new(alloc),
            news: News::new(alloc),
        }
    }

    /// Whether the back end of some host was polled in the last turn as often as may be, so that it may have more.
    pub fn is_behind(&self) -> bool
        ensures { result ≡ list_any (λ stand. stand.is_behind) self.now.hosts.stands.items }
    {
        any_is_behind(self.hosts.stands.as_slice())
    }
}

fn any_is_behind<E: Backend>(stands: &[Stand<E>]) -> bool
    ensures { result ≡ list_any (λ stand. stand.is_behind) stands.now }
{
    for stand in stands {
        if stand.has_more() {
            return true;
        }
    }
    false
}
