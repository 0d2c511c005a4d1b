// What one thread has for all the connections that it steps.
use crate::giving::GiveRoom;
use crate::taking::TakeRoom;
use std::alloc::Global;

/// The rooms of one thread. They serve one connection after the other: nothing stays in them.
#[derive(Drop)]
pub struct Rooms {
    pub taking: TakeRoom,
    pub giving: GiveRoom,
}

impl Rooms {
    /// Takes no memory.
    pub fn new(alloc: Global) -> Rooms {
        Rooms {
            taking: TakeRoom::new(alloc),
            giving: GiveRoom::new(),
        }
    }
}
