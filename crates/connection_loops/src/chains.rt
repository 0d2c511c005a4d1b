// Numbers of slots in the order in which they were put, chained through the slots, so that a chain takes no memory.

/// The first and the last of a chain.
#[derive(Clone, Copy, Debug, PartialEq, Eq)]
pub(crate) enum Chain {
    None,
    Some { first: usize, last: usize },
}
