use crate::copy::SharedCopy;
use crate::held::HeldRequests;
use crate::inbox::Inbox;
use crate::outbox::Outbox;
use crate::tickets::Tickets;
use ack_report::Acks;
use bosh_types::{Ending, Moment, Rid};
use key_sequence::KeyCheck;
use pause_rules::{Deadlines, Mark};
use reply_keep::Keep;
use rid_window::Window;
use stream_names::Streams;

/// One session of a client with a server, apart from every connection, clock and thread (XEP-0124, XEP-0206). It keeps what
/// its next calls need and forgets the rest.
#[derive(Drop)]
pub struct Session {
    // The terms, and the silence that is allowed now.
    pub(crate) deadlines: Deadlines,
    pub(crate) keys: KeyCheck,
    pub(crate) acks: Acks,
    pub(crate) keep: Keep,
    // The copies that were not processed yet.
    pub(crate) window: Window<SharedCopy>,
    // The highest ids that were processed and answered, and the requests between them, the oldest first.
    pub(crate) last: Rid,
    pub(crate) answered: Rid,
    pub(crate) held: HeldRequests,
    // The copy that was processed last; when the last answer was given, and whether it had no payload.
    pub(crate) latest: Mark,
    pub(crate) last_given: Moment,
    pub(crate) last_bare: bool,
    // How many streams were opened, and which are open.
    pub(crate) streams: Streams,
    // What goes inward and was not taken yet.
    pub(crate) inward: Inbox,
    // What the server gave and no answer took yet.
    pub(crate) outbox: Outbox,
    // The tickets that are out.
    pub(crate) tickets: Tickets,
    // The greatest moment so far, and those of the last arrival and of the last error, 0 where none was.
    pub(crate) moment: Moment,
    pub(crate) last_arrival: Moment,
    pub(crate) last_error: Moment,
    // The counted bytes of its journal, and how many it may have.
    pub(crate) counted: u64,
    pub(crate) limit: u64,
    // After how many times `wait` a copy beyond a gap is struck.
    pub(crate) gap_waits: u32,
    pub(crate) ending: Option<Ending>,
}
