// What is to be written to a link.
ghost use Rattle.std.specs.Prelude.{◌≡◌};
ghost use Rattle.serve_loop.specs.Connections.{closes, end_after, refused_text, status_owed, text_owed};

use crate::connection::ConnectionEnd;
use bosh_http::HttpRefusal;
use bosh_types::SharedText;
use http::StatusCode;

/// What a person who looks is shown. It is XHTML, since each answer says that it is XML.
const SHOWN: &str =
    "<p xmlns='http://www.w3.org/1999/xhtml'>This is Robelava, a BOSH connection manager: chat clients speak XMPP with it by POST (XEP-0124).</p>\n";

/// What a connection has to write.
#[derive(Drop)]
pub(crate) enum Owed {
    /// The answer of a request, with its line in the trail.
    Answer { text: SharedText, closing: bool },
    /// What came is no request that is served.
    Refusal(HttpRefusal),
    /// There was no memory for the last request.
    NoMemory,
}

impl Owed {
    pub(crate) fn status(&self) -> StatusCode
        ensures { result ≡ status_owed self.now }
    {
        match self {
            Owed::Answer { .. } => StatusCode::OK,
            Owed::Refusal(refusal) => refusal.status(),
            Owed::NoMemory => StatusCode::SERVICE_UNAVAILABLE,
        }
    }

    pub(crate) fn text(&self) -> &[u8]
        ensures { result.now ≡ text_owed self.now }
    {
        match self {
            Owed::Answer { text, .. } => text.as_slice(),
            Owed::Refusal(refusal) => refused_text(*refusal),
            Owed::NoMemory => b"",
        }
    }

    /// Whether the connection ends behind it.
    pub(crate) fn closes(&self) -> bool
        ensures { result ≡ closes self.now }
    {
        match self {
            Owed::Answer { closing, .. } => *closing,
            Owed::Refusal(_) | Owed::NoMemory => true,
        }
    }

    /// How the connection ends if it does.
    pub(crate) fn end(&self) -> ConnectionEnd
        ensures { result ≡ end_after self.now }
    {
        match self {
            Owed::Answer { .. } | Owed::Refusal(_) => ConnectionEnd::Ended,
            Owed::NoMemory => ConnectionEnd::Memory,
        }
    }
}

// The content of a refusal.
#[tactic(auto, unfolding(crate::specs::Connections::shown_text))]
fn refused_text(refusal: HttpRefusal) -> &'static [u8]
    ensures { result.now ≡ refused_text refusal }
{
    match refusal {
        HttpRefusal::Get => SHOWN.as_bytes(),
        _ => b"",
    }
}
