// What the one who writes a log knows of the sessions that are live.
use bosh_types::{Moment, SharedText};
use server_watch::Carried;
use std::alloc::{AllocError, Global};
use std::collections::BTreeMap;

/// A session that was opened and hasn't ended.
#[derive(Drop)]
pub struct Live {
    pub host: SharedText,
    /// When it was opened, by the clock of the server.
    pub since: Moment,
    /// What was carried for it, as far as that was told.
    pub carried: Carried,
}

/// The sessions that are live, by their opening numbers, and how many were opened and ended.
#[derive(Drop)]
pub struct Ledger {
    live: BTreeMap<u64, Live>,
    opened: u64,
    ended: u64,
}

impl Ledger {
    /// Nothing was opened. It takes no memory.
    pub fn new(alloc: Global) -> Ledger {
        Ledger {
            live: BTreeMap::new(alloc),
            opened: 0,
            ended: 0,
        }
    }

    /// How many sessions were opened.
    pub fn opened(&self) -> u64 {
        self.opened
    }

    /// How many of them have ended.
    pub fn ended(&self) -> u64 {
        self.ended
    }

    /// How many are live.
    pub fn live(&self) -> u64 {
        self.opened.saturating_sub(self.ended)
    }

    /// A session was opened. The only error is want of memory: it counts, and nothing more is known of it.
    pub fn open(&mut self, number: u64, host: SharedText, since: Moment) -> Result<(), AllocError> {
        self.opened = self.opened.saturating_add(1);
        let carried = Carried {
            inward: 0,
            outward: 0,
        };
        let live = Live {
            host,
            since,
            carried,
        };
        self.live.insert(number, live)?;
        Ok(())
    }

    /// So much was carried for a session.
    pub fn carry(&mut self, number: u64, carried: Carried) {
        if let Some(live) = self.live.get_mut(&number) {
            live.carried = Carried {
                inward: live.carried.inward.saturating_add(carried.inward),
                outward: live.carried.outward.saturating_add(carried.outward),
            };
        }
    }

    /// A session has ended: what was known of it, if anything was.
    pub fn end(&mut self, number: u64) -> Option<Live> {
        self.ended = self.ended.saturating_add(1);
        self.live.remove(&number)
    }
}
