// Sources that say whether a take would wait.
use bosh_ports::{MemorySource, QuietSource, ReadSource, Source};
use std::io::Read;

/// A source that says whether a take would wait, so that whoever takes from it can do something else until it would not. Nothing is
/// said of when that is. One that can't tell says that it would not.
pub trait Ready: Source {
    /// Whether a take would give bytes, the end or a fault without waiting.
    fn is_ready(&self) -> bool;
}

impl Ready for MemorySource {
    fn is_ready(&self) -> bool {
        true
    }
}

impl Ready for QuietSource {
    fn is_ready(&self) -> bool {
        true
    }
}

/// It can't tell.
impl<R: Read + Drop> Ready for ReadSource<R> {
    fn is_ready(&self) -> bool {
        true
    }
}
