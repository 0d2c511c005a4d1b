// What comes to one session of a script.
use bosh_types::{Closing, SharedText, StreamNo};
use session_attrs::Request;

#[derive(Drop)]
pub(crate) enum Event {
    // A request arrives on this connection.
    Arrives {
        conn: u16,
        request: Request,
        body: SharedText,
    },
    // The server gives a stanza on this stream.
    Gives {
        stream: StreamNo,
        stanza: SharedText,
    },
    // The server closes this stream.
    Shuts {
        stream: StreamNo,
        closing: Closing,
    },
    // Time passes.
    Passes,
}
