//! The program of the tools. All that it does is in crate `tools`.
#![tactic(auto)]

use std::process::ExitCode;

fn main(rt: HostRuntime) -> ExitCode {
    tools::start(rt)
}
