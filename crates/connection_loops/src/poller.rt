// What tells a loop which of its links may have something.
use crate::door::Rouse;
use std::alloc::AllocError;

/// Tells of links on which something may have happened. What it tells is a hint: nothing is claimed of it, and a step that comes for nothing
/// changes nothing.
pub trait Poller<L> {
    /// From here on this link is told of by this number. False where that can't be: then it never is.
    fn enter(&mut self, link: &L, at: usize) -> bool;

    /// Waits until something may have happened on a link, until it is roused, or for so many milliseconds; None is without end, and 0 is not at all.
    /// The numbers of the links are put behind those that stand in `ready`, each whose number isn't told for want of memory is told again.
    fn wait(&mut self, most: Option<u64>, ready: &mut Vec<usize>) -> Result<(), AllocError>;
}

/// Makes the pollers of loops.
pub trait Pollers<L> {
    type Poller: Poller<L>;

    type Rouse: Rouse;

    /// A poller of no link yet, and what ends its waits. The error is that there is none to be had.
    fn poller(&mut self) -> Result<(Self::Poller, Self::Rouse), AllocError>;
}
