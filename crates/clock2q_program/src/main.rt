//! Runs the command text on standard input, and writes its replies to standard output.
#![tactic(auto)]

use clock2q_command::serve_standard;
use std::process::ExitCode;

fn main(rt: HostRuntime) -> ExitCode {
    serve_standard(rt)
}
