// What has to be shown.

use crate::shown::is_shown;
use crate::{architecture, controllers, inboxes, lossy, timings};

#[test]
fn an_architecture(rt: HostRuntime) {
    let alloc = rt.alloc();
    is_shown(
        &rt,
        architecture::first_deadlines(alloc),
        "[None, Some((5, 1)), Some((5, 2))]",
    );
    is_shown(
        &rt,
        architecture::show_watch(alloc),
        "[Some(NothingSent(0)), Some(TooEarly(0)), Some(ChannelOverdue(0)), None, Some(AfterEnd)]",
    );
    is_shown(
        &rt,
        architecture::copied_shape(alloc),
        "([Chan { from: 0, to: 1, kind: Data }, Chan { from: 1, to: 0, kind: Data }], 2)",
    );
    is_shown(&rt, architecture::copied_timing(alloc), "(2, 2, 4)");
}

#[test]
fn both_protocols(rt: HostRuntime) {
    let alloc = rt.alloc();
    is_shown(
        &rt,
        controllers::waiting(alloc),
        "[Nothing, Execute, Nothing, Send, Nothing, Execute]",
    );
    is_shown(
        &rt,
        controllers::counting(alloc),
        "[Nothing, Execute, Nothing, Nothing, Send, Nothing, Nothing, Execute, Send]",
    );
    is_shown(
        &rt,
        inboxes::read_once(alloc),
        "((true, false), false, (true, true), [Int(2), Bool(false)])",
    );
    is_shown(
        &rt,
        inboxes::unread(alloc),
        "(false, false, [Int(1), Bool(true)])",
    );
}

#[test]
fn losses(rt: HostRuntime) {
    let alloc = rt.alloc();
    is_shown(
        &rt,
        lossy::show_watch(alloc),
        "[Some(Common(NothingSent(0))), None, Some(TooManyLost(0)), None]",
    );
    is_shown(
        &rt,
        lossy::window_and_row(alloc),
        "(Ok(()), Ok(Lose(1, 3)))",
    );
}

#[test]
fn timings_of_two_nodes(rt: HostRuntime) {
    let alloc = rt.alloc();
    is_shown(
        &rt,
        timings::show_accepted(alloc),
        "(Ok(()), (3, 4), (2, 1))",
    );
    is_shown(
        &rt,
        timings::cycles_and_bounds(alloc),
        "((77, 66), (13, 15))",
    );
    is_shown(
        &rt,
        timings::too_short(alloc),
        "Err(TimingFault { which: Send, node: 0, left: 55, right: 59 })",
    );
    is_shown(&rt, timings::other_protocol(alloc), "(52, 19)");
}
