//! Rows of runs of programs that were read: what the slow judge says of traces, and what the machine, the monitor and the floor do with steps.
#![tactic(auto)]

#[cfg(test)]
mod calls;
#[cfg(test)]
mod floors;
#[cfg(test)]
mod follow;
#[cfg(test)]
mod left;
#[cfg(test)]
mod machine;
#[cfg(test)]
mod programs;
#[cfg(test)]
mod records;
#[cfg(test)]
mod runs;
