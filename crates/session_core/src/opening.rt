// A session begins with the request that creates it (XEP-0124, section 7).
ghost use Rattle.std.specs.Prelude.{◌≡◌, ℕ, ◌∷◌, ◌≤◌, [], IfOk, List, None, Some};
ghost use Rattle.body_writer.specs.Answer.{answer_text};
ghost use Rattle.reply_keep.specs.StandsFor as keeps;
ghost use Rattle.rid_window.specs.PlainWindow.{id_after};
ghost use Rattle.rid_window.specs.StandsFor as windows;
ghost use Rattle.session_core.specs.Arriving.{IsModest};
ghost use Rattle.session_core.specs.Journal.{IsOpening};
ghost use Rattle.session_core.specs.Kept.{kept_answer};
ghost use Rattle.session_core.specs.Machine.{asks_ack, created_parts, first_answer, opened};
ghost use Rattle.session_core.specs.StandsFor.{StandsFor};

use crate::copy::{RequestCopy, SharedCopy, copied_request};
use crate::counting::cost_of_body;
use crate::held::HeldRequests;
use crate::inbox::Inbox;
use crate::outbox::Outbox;
use crate::processing::{pass_inward, targets_among};
use crate::session::Session;
use crate::tickets::Tickets;
use ack_report::Acks;
use body_writer::{AnswerKind, AnswerParts, Created, write_answer};
use bosh_types::{
    CopyIn, KeptAnswer, Moment, Rid, SharedText, Stanzas, StreamNo, Terms, Text, copy_items,
};
use key_sequence::KeyCheck;
use pause_rules::{Deadlines, Mark};
use reply_keep::Keep;
use rid_window::Window;
use session_attrs::{Kind, Request};
use std::alloc::{AllocError, Global};
use stream_names::Streams;

/// What opens a session: the request that creates it and what the manager has for it (XEP-0124, section 7).
#[derive(Debug, Drop)]
pub struct Opening {
    /// The request, which is the one that the body gives.
    pub request: Request,
    pub body: SharedText,
    /// The terms, which are those that the request's creation leads to.
    pub terms: Terms,
    /// The name of the session: 1 to 64 bytes.
    pub sid: Text,
    /// The host that it is for: 1 to 1,023 bytes.
    pub host: SharedText,
    /// The stanzas that greet the client: 1,024 at most, of 1,000,000 bytes together.
    pub greeting: Stanzas,
    /// When the request came.
    pub at: Moment,
    /// How many counted bytes the journal of the session may have. The call whose entry would pass it ends the session.
    pub limit: u64,
    /// After how many times the session's `wait` a copy beyond a gap is struck (XEP-0124, section 17.3): 1 to 10. A session that polls
    /// strikes none.
    pub gap_waits: u32,
}

impl Session {
    /// Opens a session and gives the body that answers its creation (XEP-0124, section 7; XEP-0206): with the terms, the
    /// whole greeting, the name of the first stream, and an `ack`. The only error is want of memory.
    pub fn open(alloc: Global, opening: &Opening) -> Result<(Session, SharedText), AllocError>
        requires { IsOpening opening.now }
        ensures session { IfOk result (λ made. StandsFor made.0 (opened opening.now)) }
        ensures text { IfOk result (λ made. made.1 ≡ answer_text (created_parts opening.now)) }
    {
        let text = first_text(alloc, opening)?;
        let answer = KeptAnswer {
            bytes: text.again()?,
            given: opening.at,
            payloads: opening.greeting.len() as u32,
        };
        let session = first_session(alloc, opening, answer)?;
        Ok((session, text))
    }
}

// The answer to a creation.
fn first_text(alloc: Global, opening: &Opening) -> Result<SharedText, AllocError>
    ensures { IfOk result (λ text. text ≡ answer_text (created_parts opening.now)) }
{
    let created = Created {
        sid: opening.sid.copy_in(alloc)?,
        terms: opening.terms,
        from: Text::from_vec(Vec::from_slice(alloc, opening.host.as_slice())?),
    };
    let parts = AnswerParts {
        created: Some(created),
        kind: AnswerKind::Usual,
        condition: None,
        stream: Some(StreamNo::unnamed()),
        ack: Some(opening.request.rid),
        report: None,
        payloads: Stanzas::from_vec(copy_items(alloc, opening.greeting.as_slice())?),
    };
    SharedText::new(alloc, write_answer(alloc, &parts)?)
}

// A session whose creation was processed, and was given this answer.
#[tactic(auto, unfolding(crate::specs::StandsFor::StandsFor))]
fn first_session(
    alloc: Global,
    opening: &Opening,
    answer: KeptAnswer,
) -> Result<Session, AllocError>
    requires modest { IsModest opening.now.request opening.now.body }
    requires some { 1 ≤ opening.now.terms.requests }
    requires few { opening.now.terms.requests ≤ 5 }
    ensures { answer ≡ (kept_answer (first_answer opening.now)).1
        → IfOk result (λ session. StandsFor session (opened opening.now)) }
{
    let request = &opening.request;
    let terms = opening.terms;
    let now = opening.at;
    let rid = request.rid;
    let newkey = request.newkey.copy_in(alloc)?;
    let acks = Acks::new(asks_ack(&request.kind));
    let last_bare = answer.payloads == 0;
    let copy = RequestCopy {
        request: copied_request(alloc, request)?,
        body: opening.body.again()?,
        arrived: now,
    };
    let latest = Mark {
        arrived: now,
        empty: copy.is_poll(),
        creation: true,
        bare: false,
    };
    let mut inward = Inbox::new(alloc);
    let streams = Streams::new();
    let targets = targets_among(&streams, copy.request.stream.as_ref());
    pass_inward(alloc, &mut inward, &copy, &targets, &None)?;
    let window = first_window(alloc, rid, terms.requests, SharedCopy::new(alloc, copy)?)?;
    let keep = first_keep(alloc, rid, terms.requests + 1, answer)?;
    Ok(Session {
        deadlines: Deadlines::new(terms),
        keys: KeyCheck::start(newkey),
        acks,
        keep,
        window,
        last: rid,
        answered: rid,
        held: HeldRequests::new(alloc),
        latest,
        last_given: now,
        last_bare,
        streams,
        inward,
        outbox: Outbox::new(alloc),
        tickets: Tickets::new(alloc),
        moment: now,
        last_arrival: now,
        last_error: Moment::from_millis(0),
        counted: cost_of_body(request, &opening.body),
        limit: opening.limit,
        gap_waits: opening.gap_waits,
        ending: None,
    })
}

// Whether the client of this creation acknowledges answers.
fn asks_ack(kind: &Kind) -> bool
    ensures { result ≡ asks_ack kind.now }
{
    match kind {
        Kind::Creation(creation) => creation.asks_ack,
        Kind::Later { .. } => false,
    }
}

// The window of a session from which the creation was taken.
fn first_window(
    alloc: Global,
    rid: Rid,
    width: u32,
    copy: SharedCopy,
) -> Result<Window<SharedCopy>, AllocError>
    requires some { 1 ≤ width }
    requires few { width ≤ 5 }
    ensures { IfOk result (λ window. windows.StandsFor window (record { placed = (rid, copy) ∷ []; next = id_after rid; width = width })) }
{
    let mut window = Window::new(alloc, rid, width)?;
    let _placed = window.place(rid, false, copy);
    let _taken = window.take_ready();
    Ok(window)
}

// The kept answers of a session that gave this one.
fn first_keep(alloc: Global, rid: Rid, size: u32, answer: KeptAnswer) -> Result<Keep, AllocError>
    requires some { 1 ≤ size }
    requires few { size ≤ 6 }
    ensures { IfOk result (λ keep. keeps.StandsFor keep (record { put = (rid, answer) ∷ []; acknowledged = 0; size = size })) }
{
    let mut keep = Keep::new(alloc, size)?;
    let _fallen = keep.put(rid, answer);
    Ok(keep)
}
