//! Tests of real files and streams, over a system that notes each call and fails one in turn, and over one
//! in memory that tells its file.
#![tactic(auto)]

#[cfg(test)]
mod bays;
#[cfg(test)]
mod calls;
#[cfg(test)]
mod faulty;
#[cfg(test)]
mod files;
#[cfg(test)]
mod memory;
#[cfg(test)]
mod mounts;
#[cfg(test)]
mod slow;
#[cfg(test)]
mod streams;
#[cfg(test)]
mod told;
