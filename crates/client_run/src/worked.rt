use bosh_types::Condition;

/// How a worker ended.
#[derive(Clone, Copy, Debug, PartialEq, Eq)]
pub enum Worked {
    /// The first terminal answer that the client took has no condition, or no request id is left.
    Done,
    /// It has this one.
    Ended(Condition),
    /// Three dials failed in a row before the first request; or a dial was the third fault in a row of one request.
    DialFault,
    /// A link failed while it was read, as the third fault in a row of one request.
    ReadFault,
    /// The same while it was written.
    WriteFault,
    /// The third response in a row to one request had this status, as the two before it had others than 200.
    Refused { status: u16 },
    /// The bell was silent, and nothing was due.
    Silent,
}
