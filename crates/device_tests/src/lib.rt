//! Tests of the other devices of the real system: the door, the link, the spawner and the sink.
#![tactic(auto)]

#[cfg(test)]
mod doors;
#[cfg(test)]
mod programs;
#[cfg(test)]
mod sinks;
