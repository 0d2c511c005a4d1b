// For how many links a process has room.
ghost use Rattle.std.specs.Prelude.{◌≡◌};
ghost use Rattle.front_net.specs.Room.{links_within};

use std::alloc::Alloc;
use std::fs;
use std::rt::Files;

/// How many descriptors are kept for what is no link.
const KEPT: u64 = 64;

/// How many links there is room for at most.
const MOST: u64 = 65_536;

/// The usual limit of descriptors, which stands in where the system doesn't tell it.
const USUAL: u64 = 1024;

/// How many links the process may have open at once: its limit of descriptors less 64, from 1 to 65,536.
pub fn room_for_links<R: Files + Alloc>(rt: &R) -> u32 {
    let limit = match fs::read_to_string(rt, "/proc/self/limits") {
        Ok(limits) => limit_in(limits.as_str()),
        Err(_) => None,
    };
    links_within(limit.unwrap_or(USUAL))
}

// The limit of open files that these lines tell, as Linux writes them. One that is no number is no limit.
fn limit_in(limits: &str) -> Option<u64> {
    for line in limits.lines() {
        if let Some(rest) = line.strip_prefix("Max open files") {
            let limit = rest.split_whitespace().next()?;
            return Some(limit.parse().unwrap_or(u64::MAX));
        }
    }
    None
}

// How many links so many descriptors are enough for.
fn links_within(descriptors: u64) -> u32
    ensures { result ≡ links_within descriptors }
{
    descriptors.saturating_sub(KEPT).max(1).min(MOST) as u32
}
