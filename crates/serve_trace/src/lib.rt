// A trace of each session of a server, written as the server serves: wrappers of its network and of its back ends hand on all that they
// are asked and note what they saw in a queue, and one thread orders that by sessions and writes it.
#![tactic(auto)]

mod files;
mod greeting;
mod name;
mod noted;
mod order;
mod paper;
mod queue;
mod record;
mod recorder;
mod remark;
mod session_trace;
mod starting;
mod tap;
mod traced_backend;
mod traced_link;
mod traced_network;

pub use files::TraceFiles;
pub use greeting::Greeting;
pub use name::number_of_name;
pub use noted::{Answer, Copy, Noted, Opening, Seen};
pub use order::{Place, is_due, place_of};
pub use paper::Paper;
pub use queue::{Batch, TraceQueue};
pub use recorder::Recorder;
pub use remark::Remark;
pub use session_trace::SessionTrace;
pub use starting::{Tracing, start_tracing};
pub use tap::Tap;
pub use traced_backend::TracedBackend;
pub use traced_link::TracedLink;
pub use traced_network::TracedNetwork;
