// A poller in memory.
use crate::door::Rouse;
use crate::poller::Poller;
use std::alloc::{AllocError, Global};
use std::sync::Arc;
use std::sync::atomic::{AtomicU64, Ordering};

/// Counts how often it is to end a wait, and ends none.
#[derive(Drop)]
pub struct CountedRouse {
    pub count: Arc<AtomicU64>,
}

impl Rouse for CountedRouse {
    fn rouse(&self) {
        self.count.fetch_add(1, Ordering::SeqCst);
    }
}

/// Tells of links by a list: at each wait those numbers that stand in its next entry, and nothing past its end. It never waits.
#[derive(Drop)]
pub struct ListedPoller {
    news: Vec<Vec<usize>>,
    pub waits: usize,
    pub entered: usize,
}

impl ListedPoller {
    pub fn new(news: Vec<Vec<usize>>) -> ListedPoller {
        ListedPoller {
            news,
            waits: 0,
            entered: 0,
        }
    }
}

impl<L> Poller<L> for ListedPoller {
    fn enter(&mut self, _link: &L, _at: usize) -> bool {
        self.entered = self.entered.saturating_add(1);
        true
    }

    fn wait(&mut self, _most: Option<u64>, ready: &mut Vec<usize>) -> Result<(), AllocError> {
        let place = self.waits;
        self.waits = self.waits.saturating_add(1);
        match self.news.get(place) {
            Some(numbers) => ready.extend_from_slice(numbers.as_slice()),
            None => Ok(()),
        }
    }
}
