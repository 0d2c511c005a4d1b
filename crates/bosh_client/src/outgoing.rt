use bosh_types::{StreamNo, Text};

/// What a client has to send.
#[derive(Debug, Drop)]
pub enum Outgoing {
    /// A stanza, as its bytes: for one stream, or for all that are open.
    Stanza { on: Option<StreamNo>, bytes: Text },
    /// Each open stream is to begin anew (XEP-0206, section 5).
    Restart,
    /// The client will be silent for so many seconds (XEP-0124, section 10).
    Pause(u32),
    /// One more stream is to be opened, to this host (XEP-0124, section 16).
    Add(Text),
    /// A stream is to be closed (XEP-0124, section 16).
    Close(StreamNo),
    /// The session is to end (XEP-0124, section 13).
    Terminate,
}
