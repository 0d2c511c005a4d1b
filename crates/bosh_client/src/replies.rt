use body_cutter::CutRefusal;
use bosh_types::{Condition, Rid, SharedText};

/// What a client makes of something to send.
#[derive(Clone, Copy, Debug, PartialEq, Eq)]
pub enum Queued {
    /// It is sent after all that was queued before.
    Done,
    /// The client has ended, or a terminate was queued.
    Over,
    /// 1024 stanzas are queued already; or eight streams were opened.
    Full,
    /// The stream was never opened, or was closed by this client.
    NoStream,
    /// The pause is of 0 seconds or longer than the manager allows, or the manager's word on it has not come.
    TooLong,
}

/// What a client sends next.
#[derive(Debug, Drop)]
pub enum Next {
    /// Nothing is due, or the client has ended.
    Nothing,
    /// Something is due, and no request id is left for it.
    RidsSpent,
    /// This request, whose body stays the same for ever.
    Request { rid: Rid, body: SharedText },
}

/// What a client makes of an answer.
#[derive(Clone, Copy, Debug, PartialEq, Eq)]
pub enum Answered {
    /// It is the answer of its request from now on.
    Done,
    /// There is no request with this id.
    Unmade,
    /// The answer of this request was taken before.
    Stale,
    /// It is no answer, for this reason.
    Broken(Why),
    /// Its request counts as not received (XEP-0124, section 17.3): each request without an answer from the first of these ids to the
    /// last, which is its own, is to be sent again.
    Again { first: Rid, last: Rid },
}

/// Why a body is no answer: the first of these that holds.
#[derive(Clone, Copy, Debug, PartialEq, Eq)]
pub enum Why {
    /// It can't be cut.
    Cut(CutRefusal),
    /// It isn't in the namespace of the protocol.
    Namespace,
    /// Its `type` is neither `terminate` nor `error`, its `ack` is no request id, or its `requests`, `polling` or `maxpause` is no number;
    /// or it has payloads on a stream whose name none of eight has, and doesn't answer a creation.
    Attribute,
    /// It answers a creation, has no `type` and names no session.
    NoSid,
}

/// How a client ended: by its first terminal answer (XEP-0124, sections 13 and 17).
#[derive(Clone, Copy, Debug, PartialEq, Eq)]
pub struct ClientEnd {
    /// Why, where the answer says it. One that has no name here is read as `UndefinedCondition`.
    pub condition: Option<Condition>,
}
