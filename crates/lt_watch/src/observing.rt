// The observer of a watched run.
ghost use Rattle.std.specs.Prelude.{◌<◌, ◌^◌, length};
ghost use Rattle.lt_io.specs.Counts.{MayFail};
ghost use Rattle.lt_answer.specs.Alone.{given_word};
ghost use Rattle.lt_watch.specs.OnFiles.{FetchesObserver, LoadsObserver, LoadsWatched};

use crate::WatchFault;
use lt_base::{Func, List, Or};
use lt_io::Files;
use lt_load::{Loaded, What, fetch_within, load};
use lt_past::{Observer, read_observer};
use std::alloc::Global;

/// Loads what a run is of.
pub fn load_run<F: Files>(
    alloc: Global,
    files: &mut F,
    program: &str,
    inputs: &str,
    config: Option<&str>,
) -> Result<Loaded, Or<WatchFault>>
    requires { MayFail (F.state files.old).faults }
    ensures { LoadsWatched program.now inputs.now (given_word config.entry) (F.state files.old) (F.state files.new) result }
{
    match load(alloc, files, program, inputs, config) {
        Ok(loaded) => Ok(loaded),
        Err(e) => Err(e.map(WatchFault::Command)),
    }
}

/// The bytes of an observer's file.
fn fetch_observer<F: Files>(
    alloc: Global,
    files: &mut F,
    name: &str,
) -> Result<List<u8>, Or<WatchFault>>
    requires { MayFail (F.state files.old).faults }
    ensures { FetchesObserver name.now (F.state files.old) (F.state files.new) result }
{
    match fetch_within(alloc, files, name, What::ObserverBytes) {
        Ok(bytes) => Ok(bytes),
        Err(e) => Err(e.map(WatchFault::Command)),
    }
}

/// Reads an observer's file: the observer, over the outputs of `main`.
pub fn load_observer<F: Files>(
    alloc: Global,
    files: &mut F,
    name: &str,
    main: &Func,
) -> Result<Observer, Or<WatchFault>>
    requires count { MayFail (F.state files.old).faults }
    requires few { length main.now.outs < 2 ^ 32 }
    ensures { LoadsObserver name.now main.now (F.state files.old) (F.state files.new) result }
{
    let bytes = fetch_observer(alloc, files, name)?;
    let read = read_observer(alloc, &bytes, main);
    drop(bytes);
    match read {
        Ok(observer) => Ok(observer),
        Err(e) => Err(e.map(WatchFault::Observer)),
    }
}
