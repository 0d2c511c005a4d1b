ghost use Rattle.std.specs.Prelude.{◌≡◌};
ghost use Rattle.session_attrs.specs.Admission.{admitted_of, place_of};

use crate::request::Request;
use bosh_types::HostNames;

/// Which host a request is for.
#[derive(Clone, Copy, Debug, PartialEq, Eq)]
pub enum Admitted {
    /// The host at this place.
    Host(usize),
    /// It names no host, or the empty one.
    Improper,
    /// No host has that name.
    Unknown,
}

/// Finds the host that a request names. It takes no memory.
pub fn admit(request: &Request, hosts: &HostNames) -> Admitted
    ensures { result ≡ admitted_of request.now.to hosts.now }
{
    let Some(name) = &request.to else {
        return Admitted::Improper;
    };
    if name.is_empty() {
        return Admitted::Improper;
    }
    match place_of(name.as_slice(), hosts) {
        Some(place) => Admitted::Host(place),
        None => Admitted::Unknown,
    }
}

// The place of the first host with this name.
fn place_of(name: &[u8], hosts: &HostNames) -> Option<usize>
    ensures { result ≡ place_of name.now hosts.now }
{
    hosts
        .as_slice()
        .iter()
        .position(|host| host.name.as_slice() == name)
}
