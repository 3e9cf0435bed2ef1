//! The program `rgc`. All that it does stands in `rgc_program`: a program is proved at each run of the gate, a library once.
#![tactic(auto)]

use rgc_program::run;
use std::process::ExitCode;

fn main(rt: HostRuntime) -> ExitCode {
    run(&rt, &rt)
}
