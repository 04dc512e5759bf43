//! Tests of the disk of the real system, in folders of their own, with each call to the file system watched.
#![tactic(auto)]

#[cfg(test)]
mod calls;
#[cfg(test)]
mod rows;
#[cfg(test)]
mod watched;
