use crate::numbers::Moment;
use crate::rid::Rid;

/// How the server closes a stream, and what its client is told.
#[derive(Clone, Copy, Debug, PartialEq, Eq)]
pub enum Closing {
    /// The stream ended as it should: no condition.
    Plain,
    RemoteConnectionFailed,
    RemoteStreamError,
    SystemShutdown,
}

/// Why a session ended, with the numbers that show it.
#[derive(Clone, Copy, Debug, PartialEq, Eq)]
pub enum Ending {
    /// The request `rid` was of type `terminate` (XEP-0124, section 13).
    Terminated { rid: Rid },
    /// The request `rid` came again when its answer was no longer kept; `lowest` is the least request id whose answer was
    /// (XEP-0124, section 14.3).
    Stale { rid: Rid, lowest: Rid },
    /// The request id is beyond what the session takes: `last` is the highest one processed, and `requests` how many
    /// requests a client may have open (XEP-0124, sections 11 and 14.2).
    Above { rid: Rid, last: Rid, requests: u32 },
    /// The request's key does not belong to the key sequence (XEP-0124, section 15).
    WrongKey { rid: Rid },
    /// The request names a stream that isn't open (XEP-0124, section 16).
    UnknownStream { rid: Rid },
    /// The request asks for a pause of `pause` seconds, and `maxpause` are allowed (XEP-0124, section 10).
    PauseTooLong { rid: Rid, pause: u32, maxpause: u32 },
    /// The request and the one before it came `apart` milliseconds from one another, too close (XEP-0124, section 12).
    Overactive { rid: Rid, apart: u64 },
    /// No request was held since the moment `since`, and it was then longer than the inactivity period
    /// (XEP-0124, section 10).
    Silent { since: Moment, now: Moment },
    /// The server closed the last stream, and the answer to `rid` said so.
    Closed { closing: Closing, rid: Rid },
    /// The journal of the session has `counted` bytes, and an entry of `cost` more would exceed its limit.
    JournalFull { counted: u64, cost: u64 },
}
