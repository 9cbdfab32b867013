//! The program `sedvokt`: what its words ask for, which call is made for it, and what it tells of a
//! refusal. No contract says which call that is, nor what is told on the standard error.
#![tactic(auto)]

mod needs;
mod program;
mod reports;

use crate::program::run;
use std::io::IsTerminal;
use std::process::ExitCode;

fn main(rt: HostRuntime) -> ExitCode {
    ExitCode::from(run(&rt, rt.stderr().is_terminal()))
}
