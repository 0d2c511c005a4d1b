// Counts that stand still at the end of their type.
ghost use Rattle.std.specs.Prelude.{◌≡◌, ◌≤◌};
ghost use Rattle.bosh_ports.specs.Faults.{HasRisen};
ghost use Rattle.server_ports.specs.Counts.{added};

// The count and so many more.
pub(crate) fn add(count: u64, more: u64) -> u64
    ensures { result ≡ added count more }
{
    count.saturating_add(more)
}

// The count of faults after one more.
pub(crate) fn one_more_fault(count: u64) -> u64
    ensures risen { HasRisen count result }
    ensures never_falls { count ≤ result }
{
    count.saturating_add(1)
}
