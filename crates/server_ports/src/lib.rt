// The outside of a running server and client as traits: a clock, names, jobs and who starts them, a network. Each has
// implementations in memory and an adapter over the real thing. Callers are generic over the trait, so that a proof holds
// of all of them.
#![tactic(auto)]

mod clock;
mod counting;
mod job;
pub mod laws;
mod listed_spawner;
mod memory_network;
mod names;
mod network;
mod planned_link;
mod quiet_network;
mod real_clock;
mod real_names;
mod spawner;
mod tcp_network;
mod thread_spawner;
mod timed_link;

pub use clock::{Clock, StillClock};
pub use job::{Job, Started, start};
pub use listed_spawner::{ListedSpawner, SteadySpawner};
pub use memory_network::MemoryNetwork;
pub use names::{GivenNames, Names};
pub use network::{Accepted, Dialled, Network, Opened, Shared};
pub use planned_link::{LinkPlan, Past, PlannedLink};
pub use quiet_network::QuietNetwork;
pub use real_clock::RealClock;
pub use real_names::{RealNames, system_seed};
pub use spawner::{Leave, Spawner};
pub use tcp_network::{NetLink, TcpNetwork, timed};
pub use thread_spawner::ThreadSpawner;
pub use timed_link::{Limits, Patient, TimedLink};
