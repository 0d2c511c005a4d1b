// What a session behind a gate is asked.
use bosh_types::{Ending, Moment, SharedText};
use session_core::Waiting;

/// What there is for a ticket, once there is something.
#[derive(Debug, Drop)]
pub enum Found {
    /// The body that answers its request. The ticket is used up.
    Answer(SharedText),
    /// A later copy of its request took its place. The ticket is used up.
    Superseded,
    /// No such ticket is out.
    UnknownTicket,
}

/// What a session is asked.
#[derive(Clone, Copy, Debug, PartialEq, Eq)]
pub enum Question {
    /// What waits for the client, and whether the session has ended.
    Load,
    /// Which host it is for.
    Home,
    /// What there is to do for it, by time and by what goes inward, and whether it has ended.
    State,
}

/// What there is to do for a session.
#[derive(Clone, Copy, Debug, PartialEq, Eq)]
pub struct State {
    /// The first moment at which time has something to do for it. None where it has nothing to do.
    pub due: Option<Moment>,
    /// Whether something goes inward that was not taken yet.
    pub is_inward: bool,
    /// Why it ended: none while it goes on.
    pub ending: Option<Ending>,
}

/// What a question of that name is answered.
#[derive(Debug, Drop)]
pub enum Answer {
    Load {
        waiting: Waiting,
        ending: Option<Ending>,
    },
    Home(SharedText),
    State(State),
}
