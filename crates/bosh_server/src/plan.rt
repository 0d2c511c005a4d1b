use session_table::Limits;

/// How a server is to run.
#[derive(Clone, Copy, Debug, PartialEq, Eq)]
pub struct ServePlan {
    /// How many loops serve the connections, each a thread. 0 counts as 1.
    pub workers: u32,
    /// After how many links the server ends. 0 is without end.
    pub connections: u32,
    /// The limits that sessions are opened within. A creation beyond them is refused; a call whose entry would pass that of the journal ends
    /// its session.
    pub limits: Limits,
    /// How many connections may be open at once; None is as many as the network has room for. One more takes the place of that which waits
    /// longest for its next request, or is answered by 503 and closed where none of its loop waits for one.
    pub open: Option<u32>,
    /// How many bytes of contents may be coming in at once. The request whose content would pass it is answered by 503, and its connection
    /// ends.
    pub incoming: u64,
}

impl ServePlan {
    /// That of a server that was told nothing.
    pub const USUAL: ServePlan = ServePlan {
        workers: 8,
        connections: 0,
        limits: Limits::USUAL,
        open: None,
        incoming: 67_108_864,
    };
}

/// How a server ended.
#[derive(Clone, Copy, Debug, PartialEq, Eq)]
pub enum Ran {
    /// The network stopped, or as many links as were planned came. So many were accepted, and each was served to its end.
    Done { connections: u32 },
    /// The network failed.
    NetFault,
    /// A job could not be started.
    SpawnFault,
}
