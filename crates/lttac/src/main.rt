//! `lttac`: see the README.
#![tactic(auto)]

use lt_cli_c::lttac_program;
use lt_io::{RealFiles, RealSink};
use std::io::{Stderr, Stdout};
use std::process::ExitCode;
use std::{env, io};

fn main(rt: HostRuntime) -> ExitCode {
    let mut out: RealSink<Stdout> = RealSink::new(rt.stdout());
    let mut err: RealSink<Stderr> = RealSink::new(rt.stderr());
    let status = lttac_program(
        rt.alloc(),
        line(&rt),
        &mut RealFiles::new(rt),
        &mut out,
        &mut err,
    );
    ExitCode::from(status.number())
}

/// The program's name and the words after it.
fn line(rt: &HostRuntime) -> io::Result<Vec<String>> {
    Ok(env::args(rt)?.collect(rt.alloc())?)
}
