//! The program `jose`. All that it does is in crate `jose`, which other crates can use as a library.
#![tactic(auto)]

use std::process::ExitCode;

fn main(rt: HostRuntime) -> ExitCode {
    jose::start(rt)
}
