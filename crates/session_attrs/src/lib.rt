// What the attributes of a body mean: the request that they make, or the first refusal of the table that holds; the request
// that a body's text makes; the terms on which a session is created; and the host that a request is for. Attributes that no
// row of the table names are ignored.
#![tactic(auto)]

mod admission;
mod attributes;
mod body;
mod forms;
mod laws;
mod reading;
mod refusal;
mod request;
mod rows;
mod serving;
mod terms;

pub use admission::{Admitted, admit};
pub use attributes::value_of;
pub use body::read_body;
pub use forms::{is_httpbind, number_of, terminate_of};
pub use laws::{attributes_mean_one_request, bodies_make_requests, reading_gives_the_meaning};
pub use reading::read_request;
pub use refusal::{AttrRefusal, Numbered, RequestError};
pub use request::{Creation, Kind, Request};
pub use serving::{can_serve, is_allowed_text, is_host_name, is_stanza, may_greet};
pub use terms::negotiate;
