// Where a server refuses.

/// A limit at which a server refuses something.
#[derive(Clone, Copy, Debug, PartialEq, Eq)]
pub enum Limit {
    /// As many connections are open as may be: one more is answered 503 and closed.
    Connections,
    /// As many bytes of contents are coming in as may be: the request is answered 503, and its connection ends.
    Incoming,
    /// As many sessions are live as may be: a creation is answered `undefined-condition`.
    Sessions,
    /// As many sessions were opened since the start as may be: the same.
    Openings,
}

/// All of them.
pub const LIMITS: [Limit; 4] = [
    Limit::Connections,
    Limit::Incoming,
    Limit::Sessions,
    Limit::Openings,
];
