//! The program `rgc` but for its `main`: it reads the words and the files, and does the command.
#![tactic(auto)]

mod call;
mod completed;
mod contents;
mod mentions;
mod names;
mod outline;
mod sides;
mod threads;
mod words;

use rgc_system::{STACK_BYTES, has_small_stacks, report_failure};
use std::alloc::AllocError;
use std::process::ExitCode;
use std::sync::Wait;
use std::thread;
use std::thread::{Builder, Threads};
use words::work;

/// Does what the words ask for in a thread with a stack of its own; or in this one, if no thread can be had and its stack suffices. Else memory is refused.
fn work_with_room<R: Threads + Wait + Sync>(
    rt: &HostRuntime,
    threads: &R,
) -> Result<u8, AllocError> {
    thread::scope(
        thread::scope_env(),
        threads,
        |scope| -> Result<u8, AllocError> {
            let stack = Builder::new().stack_size(STACK_BYTES);
            match stack.spawn_scoped(scope, || work(rt, threads)) {
                Ok(worker) => worker.join(threads),
                Err(_) if has_small_stacks(rt) => Err(AllocError),
                Err(_) => work(rt, threads),
            }
        },
    )
}

/// Does what the words of the command line ask for; the status of the process. The threads of a run are had from `threads`. Where memory is refused, that is
/// reported on standard error, and the status is 3.
pub fn run<R: Threads + Wait + Sync>(rt: &HostRuntime, threads: &R) -> ExitCode {
    match work_with_room(rt, threads) {
        Ok(status) => ExitCode::from(status),
        Err(AllocError) => ExitCode::from(report_failure(rt, "refused 99")),
    }
}
