//! The program `circ`: a town library's circulation desk, on the command line and over the web.
#![tactic(auto)]

use circ_runs::run;
use std::process::ExitCode;

fn main(rt: HostRuntime) -> ExitCode {
    ExitCode::from(run(&rt, rt).status())
}
