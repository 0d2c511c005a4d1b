// What traces are written on.

/// Where each trace has a sheet of its own.
pub trait Paper {
    type Sheet: Drop;

    /// The sheet of the session with this opening number, if it can be had.
    fn begin(&mut self, number: u64) -> Option<Self::Sheet>;

    /// Writes behind what is there. Whether that could be done.
    fn write(&mut self, number: u64, sheet: &mut Self::Sheet, bytes: &[u8]) -> bool;
}
