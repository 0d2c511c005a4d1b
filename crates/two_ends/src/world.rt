ghost use Rattle.std.specs.Prelude.{◌≡◌, ◌∷◌, [], IfOk};
ghost use Rattle.two_ends.specs.Worlds.{IsWorld};
ghost use Rattle.world_laws.specs.Setup.{IsWorldSetup};
ghost use Rattle.world_laws.specs.World.{new_world};

use crate::manager::Manager;
use crate::site::Site;
use crate::sums::Sums;
use bosh_client::{Client, ClientSetup};
use bosh_types::{Moment, Rid, Row, SharedText, Stanzas, Text};
use std::alloc::{AllocError, Global};
use world_laws::{Seen, SeenItem};

/// A client, a manager with one session, and the network between them, which brings any copy that was ever made and any
/// answer that was ever written, again and again or never.
#[derive(Drop)]
pub struct World {
    pub(crate) site: Site,
    pub(crate) moment: Moment,
    pub(crate) first: Rid,
    pub(crate) client: Client,
    // None before the creation arrived.
    pub(crate) manager: Option<Manager>,
    // The bodies of all requests, in the order of ids, and all answers.
    pub(crate) sent: Vec<SharedText>,
    pub(crate) written: Vec<Written>,
    pub(crate) sums: Sums,
}

/// An answer that was written, with the id of its request.
#[derive(Debug, Drop)]
pub struct Written {
    pub(crate) rid: Rid,
    pub(crate) body: SharedText,
}

impl World {
    /// A world in which nothing has happened yet. The only error is want of memory.
    pub fn new(
        alloc: Global,
        host: Text,
        greeting: Stanzas,
        setup: ClientSetup,
    ) -> Result<World, AllocError>
        requires { IsWorldSetup host greeting setup }
        ensures { IfOk result (λ world. IsWorld world (new_world host greeting setup)) }
    {
        let first = setup.first;
        let client = Client::new(alloc, setup)?;
        Ok(World {
            site: Site { host, greeting },
            moment: Moment::from_millis(0),
            first,
            client,
            manager: None,
            sent: Vec::new(alloc),
            written: Vec::new(alloc),
            sums: Sums::default(),
        })
    }
}

// Nothing but this is seen.
pub(crate) fn only(alloc: Global, item: SeenItem) -> Result<Seen, AllocError>
    ensures { IfOk result (λ seen. seen ≡ item ∷ []) }
{
    let mut seen = Vec::new(alloc);
    seen.push(item)?;
    Ok(Row::from_vec(seen))
}

// Nothing is seen.
pub(crate) fn nothing(alloc: Global) -> Seen
    ensures { result ≡ [] }
{
    Row::from_vec(Vec::new(alloc))
}
