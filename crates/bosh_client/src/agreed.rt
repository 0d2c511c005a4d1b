use bosh_types::Text;

/// What the answer to the creation says of the session (XEP-0124, section 7.2).
#[derive(Debug, Drop)]
pub struct Agreed {
    /// The session's id.
    pub sid: Text,
    /// How many requests may be open at once, at least 1.
    pub requests: u32,
    /// How far empty requests of a polling client lie apart, in seconds.
    pub polling: u32,
    /// How long a pause may be, in seconds.
    pub maxpause: u32,
    /// Whether requests acknowledge: the client asked for it, and the manager does.
    pub acks: bool,
}
