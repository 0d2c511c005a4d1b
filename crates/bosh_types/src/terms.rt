/// What a session agreed with its client when it was created (XEP-0124, section 7), in the numbers that its answer names.
#[derive(Clone, Copy, Debug, PartialEq, Eq)]
pub struct Terms {
    /// How long a request is held at most, in seconds.
    pub wait: u32,
    /// How many requests are held at most.
    pub hold: u32,
    /// How many requests the client may have open.
    pub requests: u32,
    /// How long the client may be silent while no request is held, in seconds (XEP-0124, section 10).
    pub inactivity: u32,
    /// How far empty requests have to lie apart, in seconds (XEP-0124, sections 11 and 12).
    pub polling: u32,
    /// How long a pause may be, in seconds (XEP-0124, section 10).
    pub maxpause: u32,
    /// The version of the protocol, major and minor.
    pub version: (u32, u32),
    /// Whether this is a polling session, which holds no request (XEP-0124, section 12).
    pub polled: bool,
}
