use bosh_types::{Closing, Moment, Rid, StreamNo, Text};

/// What happens in a world: at the client, at the manager, or between the two.
#[derive(Debug, Drop)]
pub enum WorldEvent {
    /// It is this moment, or as late as it is.
    At(Moment),
    /// The client is to send a stanza, for all streams that are open.
    Put(Text),
    /// The client is to send a stanza on this stream.
    PutOn(StreamNo, Text),
    /// The client is to add a stream, to this host.
    Add(Text),
    /// The client is to close this stream.
    StopOn(StreamNo),
    /// The client is to begin its streams anew.
    Restart,
    /// The client is to pause for so many seconds.
    Pause(u32),
    /// The client is to end the session.
    Stop,
    /// The client makes its next request, if one is due.
    Send,
    /// A copy of the request with this id arrives at the manager.
    Carry(Rid),
    /// The server gives a stanza, on the first stream or on this one.
    Give(Text),
    GiveOn(StreamNo, Text),
    /// The server closes the first stream, or this one.
    Shut(Closing),
    ShutOn(StreamNo, Closing),
    /// The answer with this number, from 1, arrives at the client.
    Return(u64),
}
