// Plots of the two nodes that read each other's last value, from their files.

use crate::calls::{ACROSS, NOTHING, files};
use lt_base::{List, Or};
use lt_plotting::{PlotView, plot};
use lt_watch::WatchFault;
use std::alloc::Global;
use std::process::Abort;
use std::str;

// What is drawn where nothing is asked for.
const USUAL: PlotView = PlotView {
    from: None,
    to: None,
    width: None,
};

// The plot, with a run along a schedule or without one.
fn plot_across(alloc: Global, along: Option<(&str, &str)>) -> Result<List<u8>, Or<WatchFault>> {
    let mut files = files(alloc, ACROSS, NOTHING)?;
    plot(alloc, &mut files, "p", "i", along, Some("o"), USUAL)
}

// Stops where one of these texts does not stand in the plot.
fn shows<R: Abort>(rt: &R, plotted: Result<List<u8>, Or<WatchFault>>, wanted: &[&str]) {
    match plotted {
        Ok(text) => {
            let text = str::from_utf8(text.as_slice()).unwrap_or("");
            for words in wanted {
                assert!(rt; text.contains(*words), "no {words} in {text}");
            }
        }
        Err(_) => assert!(rt; false, "no plot"),
    }
}

#[test]
fn plots_from_files(rt: HostRuntime) {
    shows(
        &rt,
        plot_across(rt.alloc(), None),
        &[
            ">outputs of p on i<",
            ">instants 0 to 2 of 3<",
            ">holds 3<",
            ">12</text>",
            ">21</text>",
        ],
    );
    shows(
        &rt,
        plot_across(rt.alloc(), Some(("s", "c"))),
        &[
            ">outputs of p on i along s by c<",
            ">instants 0 to 2 of 3, the run has 1 to 2<",
            ">holds 1<",
            ">the rest of the stream<",
        ],
    );
}
