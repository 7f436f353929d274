// Which ticks are drawn.
ghost use Rattle.std.specs.Prelude.{◌≡◌, ◌≤◌, ◌*◌};
ghost use Rattle.lt_tape.specs.Windows.{most_shown, past_stop};

/// The first and the last tick that are drawn.
#[derive(Clone, Copy)]
pub struct Window {
    pub from: u64,
    pub to: u64,
}

/// The latest tick at which a picture begins, past the range of times.
pub(crate) const LATEST: u64 = 2_000_000_000_000_000;

/// How many events of so many nodes are drawn where nothing is asked.
pub(crate) fn most_shown(nodes: usize) -> usize
    requires { nodes ≤ 4294967295 }
    ensures value { result ≡ most_shown nodes }
    ensures some { 1 ≤ result }
    ensures few { result ≤ 60 * 4294967295 }
{
    (60 * nodes).max(120)
}

/// A little past the latest time that matters of a list with an offence.
pub(crate) fn past_stop(stop: u64) -> u64
    ensures { result ≡ past_stop stop }
{
    let stop = stop.min(LATEST);
    stop + (stop / 40).max(1)
}
