ghost use Rattle.std.specs.Prelude.{IfOk, IsTrue};
ghost use Rattle.bosh_client.specs.Machine.{new_client};
ghost use Rattle.bosh_client.specs.Setup.{is_setup};
ghost use Rattle.bosh_client.specs.StandsFor.{HoldsKeys, StandsFor};

use crate::agreed::Agreed;
use crate::exchanges::Exchanges;
use crate::keys::Keys;
use crate::payloads::Payloads;
use crate::queue::Queue;
use crate::replies::ClientEnd;
use crate::setup::ClientSetup;
use bosh_types::{CopyIn, Moment};
use std::alloc::{AllocError, Global};
use stream_names::Streams;

/// One client of one session, apart from every connection, clock and thread (XEP-0124, XEP-0206). It keeps what its next
/// calls need and forgets the rest.
#[derive(Drop)]
pub struct Client {
    pub(crate) setup: ClientSetup,
    // What is to be sent; the streams once all of it was; and whether it ends with a terminate or closes the last stream, or a request did.
    pub(crate) queue: Queue,
    pub(crate) streams: Streams,
    pub(crate) closing: bool,
    // The requests that have no answer, and those whose answers came early; what is left of the answer before them.
    pub(crate) exchanges: Exchanges,
    pub(crate) inbox: Payloads,
    // What the creation's answer says, once that was taken.
    pub(crate) agreed: Option<Agreed>,
    pub(crate) keys: Option<Keys>,
    // When the last answer was taken, and how the first terminal one ended the client.
    pub(crate) last_taken: Moment,
    pub(crate) end: Option<ClientEnd>,
}

impl Client {
    /// A client that has nothing to send yet and has made no request.
    #[tactic(auto, unfolding(crate::specs::StandsFor::StandsFor))]
    pub fn new(alloc: Global, setup: ClientSetup) -> Result<Self, AllocError>
        requires { IsTrue (is_setup setup) }
        ensures { IfOk result (λ client. StandsFor client (new_client setup)) }
    {
        let keys = first_keys(alloc, &setup)?;
        let first = setup.first;
        Ok(Client {
            setup,
            queue: Queue::new(alloc),
            streams: Streams::new(),
            closing: false,
            exchanges: Exchanges::new(alloc, first),
            inbox: Payloads::none(alloc),
            agreed: None,
            keys,
            last_taken: Moment::from_millis(0),
            end: None,
        })
    }
}

// The first key sequence, where the client has keys.
fn first_keys(alloc: Global, setup: &ClientSetup) -> Result<Option<Keys>, AllocError>
    requires { IsTrue (is_setup setup.now) }
    ensures { IfOk result (λ keys. HoldsKeys keys setup.now 0) }
{
    if setup.keys == 0 {
        return Ok(None);
    }
    Ok(Some(Keys::new(alloc, setup.seed.copy_in(alloc)?, setup.keys)?))
}
