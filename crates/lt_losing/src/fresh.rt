// What a node does when it is activated.
ghost use Rattle.std.specs.Prelude.{◌≡◌, ◌<◌, ◌≤◌, ◌+◌, ◌&&◌, ◌||◌, ◌==◌, ◌^◌, ℕ, Bool, not, nat_lt, nat_le, length, slice_index_or, if◌then◌else◌};
ghost use Rattle.lt_arch.specs.Deeds.{phase_after};
ghost use Rattle.lt_arch.specs.Readers.{is_data};
ghost use Rattle.lt_arch.specs.Step.{is_execute};
ghost use Rattle.lt_base.specs.Truths.{same_truth};
ghost use Rattle.lt_losing.specs.Held.{phase_when, all_heard, deed_heard};

use lt_arch::{Chan, ChanKind};

// Whether a channel carries data, or acknowledgements.
fn carries(kind: ChanKind, data_kind: bool) -> bool
    ensures { result ≡ same_truth data_kind (is_data kind) }
{
    match kind {
        ChanKind::Data => data_kind,
        ChanKind::Ack => !data_kind,
    }
}

fn is_incoming(channel: Chan, node: u32, data_kind: bool) -> bool
    ensures { result ≡ ((channel.to == node) && same_truth data_kind (is_data channel.kind)) }
{
    channel.to == node && carries(channel.kind, data_kind)
}

// Whether every channel of a kind to a node has delivered a message of at least this number.
fn all_fresh(channels: &[Chan], newest: &[u64], node: u32, executed: u32, data_kind: bool) -> bool
    requires { length newest.now ≡ length channels.now }
    ensures { result ≡ all_heard channels.now newest.now node executed data_kind (length channels.now) }
{
    let mut all = true;
    for (c, channel) in channels.iter().enumerate() {
        let asked = is_incoming(*channel, node, data_kind);
        let fresh = u64::from(executed) <= newest[c];
        all = (!asked || fresh) && all;
    }
    all
}

/// Whether a node has executed an instant that it has not sent, and how many it has executed, after an activation.
pub fn wake(
    channels: &[Chan],
    newest: &[u64],
    node: u32,
    rows: u32,
    ready: bool,
    executed: u32,
) -> (bool, u32)
    requires { length newest.now ≡ length channels.now }
    ensures phase { (p q : ℕ) (some : Bool) → phase_when result.0
        ≡ phase_after p q (phase_when ready) (deed_heard channels.now newest.now node executed ready some (nat_lt executed rows)) }
    ensures executed { (some : Bool) → result.1
        ≡ (if is_execute (deed_heard channels.now newest.now node executed ready some (nat_lt executed rows)) then executed + 1 else executed) }
{
    if ready {
        let acknowledged = all_fresh(channels, newest, node, executed, false);
        return (!acknowledged, executed);
    }
    let complete = all_fresh(channels, newest, node, executed, true);
    if complete && executed < rows {
        (true, executed + 1)
    } else {
        (false, executed)
    }
}
