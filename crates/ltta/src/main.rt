//! `ltta`: see the README.
#![tactic(auto)]

use lt_base::List;
use lt_cli::program;
use lt_io::{MemFabric, RealFiles, RealSink};
use std::io::{Stderr, Stdout};
use std::process::ExitCode;
use std::{env, io};

fn main(rt: HostRuntime) -> ExitCode {
    let mut out: RealSink<Stdout> = RealSink::new(rt.stdout());
    let mut err: RealSink<Stderr> = RealSink::new(rt.stderr());
    let status = program(
        rt.alloc(),
        line(&rt),
        &mut RealFiles::new(rt),
        &mut MemFabric::new(rt.alloc(), List::new(rt.alloc())),
        &mut out,
        &mut err,
    );
    ExitCode::from(status.number())
}

/// The program's name and the words after it.
fn line(rt: &HostRuntime) -> io::Result<Vec<String>> {
    Ok(env::args(rt)?.collect(rt.alloc())?)
}
