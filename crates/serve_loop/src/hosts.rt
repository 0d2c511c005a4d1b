// Whether sessions can be opened at hosts.
ghost use Rattle.std.specs.Prelude.{◌≡◌, IfOk};
ghost use Rattle.std.specs.List.{list_all};
ghost use Rattle.session_attrs.specs.Serving.{can_serve};

use bosh_types::{HostName, HostNames};
use session_attrs::can_serve;
use std::alloc::{AllocError, Global};

/// Whether a session can be opened at each of these hosts: its name is 1 to 1023 bytes of text that may stand in XML, and one
/// answer may take its greeting. The only error is want of memory.
pub fn can_serve_all(alloc: Global, hosts: &HostNames) -> Result<bool, AllocError>
    ensures { IfOk result (λ all. all ≡ list_all can_serve hosts.now) }
{
    all_serve(alloc, hosts.as_slice())
}

fn all_serve(alloc: Global, hosts: &[HostName]) -> Result<bool, AllocError>
    ensures { IfOk result (λ all. all ≡ list_all can_serve hosts.now) }
{
    for host in hosts {
        if !can_serve(alloc, host)? {
            return Ok(false);
        }
    }
    Ok(true)
}
