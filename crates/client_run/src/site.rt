use crate::object::ClientObject;
use parked_gate::Gate;
use server_ports::Clock;
use std::alloc::Global;

/// What the workers of a client share: the client behind its gate, the clock, and the port at which the manager listens.
#[derive(Drop)]
pub struct Site<'s, C: Clock> {
    pub alloc: Global,
    pub gate: &'s Gate<ClientObject>,
    pub clock: &'s C,
    pub port: u16,
}
