/// Where an arriving copy belongs (XEP-0124, sections 11 and 14).
#[derive(Clone, Copy, Debug, PartialEq, Eq)]
pub enum Place {
    /// Its id was answered.
    Answered,
    /// Its id is open: a copy of it is held or stands beyond a gap.
    Open,
    /// Its id is beyond what the session takes.
    Above,
    /// Its id is new, and the session takes it.
    New,
}
