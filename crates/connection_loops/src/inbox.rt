// Links that were accepted and wait for their loop.
use crate::door::{Door, Rouse};
use std::alloc::{AllocError, Global};
use std::collections::VecDeque;
use std::sync::{Arc, Condvar, Mutex, Wait};

/// Where links are left for a loop, at its door.
#[derive(Drop)]
pub struct Inbox<L: Drop, W: Rouse + Drop> {
    pub door: Arc<Door<W>>,
    links: Mutex<VecDeque<L>>,
    // There is room for one more.
    left: Condvar,
}

impl<L: Drop, W: Rouse + Drop> Inbox<L, W> {
    /// Nothing was left here, and there is room for so many links. The only error is want of memory.
    pub fn with_room(
        alloc: Global,
        room: usize,
        door: Arc<Door<W>>,
    ) -> Result<Inbox<L, W>, AllocError> {
        let links = VecDeque::with_capacity(alloc, room)?;
        Ok(Inbox {
            door,
            links: Mutex::new(links),
            left: Condvar::new(),
        })
    }

    /// Leaves a link, once there is room for it. It takes no memory.
    pub fn put<R: Wait>(&self, rt: &R, link: L) {
        self.push(rt, link);
        self.door.leave_one();
    }

    fn push<R: Wait>(&self, rt: &R, link: L) {
        let mut links = self.links.lock(rt);
        for _ in rt.forever() {
            if links.len() < links.capacity() {
                links.push_back_reserved(link);
                return;
            }
            links = self.left.wait(rt, links);
        }
        unreachable!()
    }

    /// Takes the link that was left first.
    pub fn take<R: Wait>(&self, rt: &R) -> Option<L> {
        if !self.door.has_some() {
            return None;
        }
        let link = self.links.lock(rt).pop_front()?;
        self.left.notify_one();
        self.door.take_one();
        Some(link)
    }
}
