use crate::call::Call;
use bosh_client::ClientSetup;

/// What a client's history tells. It is read by proofs alone.
#[derive(Debug, Drop)]
pub enum Entered {
    /// The client began so.
    Setup(ClientSetup),
    /// This call changed it.
    Called(Call),
}

/// An entry of a client's history, with the number of who made the call.
#[derive(Debug, Drop)]
pub struct Entry {
    pub caller: u32,
    pub entered: Entered,
}
