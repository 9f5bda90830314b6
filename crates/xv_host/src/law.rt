//! Laws over a host.
ghost use Rattle.std.specs.Prelude.{List, ℕ};
ghost use Rattle.xv_host.specs.Host.{Host, IsHosted};
ghost use Rattle.xv_host.specs.Stands.{Seen, Shows, Stands};

/// Where the guests of a host hold what it says, the walks over their tables stand: each leads to
/// the guest's own memory and to nothing else.
pub fn hosts_stand()
    ensures { (host : Host) (bytes : List ℕ) (world : List Seen) → IsHosted host bytes
        → Shows bytes host.guests world → Stands bytes world }
{}
