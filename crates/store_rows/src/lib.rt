//! Worked rows of a store on a disk, and what each image that a crash may leave of them opens to.
#![tactic(auto)]

#[cfg(test)]
mod acts;
#[cfg(test)]
mod checkpoints;
#[cfg(test)]
mod crashes;
#[cfg(test)]
mod faults;
#[cfg(test)]
mod flushed;
#[cfg(test)]
mod flushes;
#[cfg(test)]
mod fused;
#[cfg(test)]
mod growth;
#[cfg(test)]
mod maps;
#[cfg(test)]
mod moments;
#[cfg(test)]
mod next_names;
#[cfg(test)]
mod quiet;
#[cfg(test)]
mod refusals;
#[cfg(test)]
mod reopened;
#[cfg(test)]
mod replaced;
#[cfg(test)]
mod requests;
pub mod slices;
#[cfg(test)]
mod stepped;
#[cfg(test)]
mod told_facts;
pub mod trials;
#[cfg(test)]
mod upgrades;
#[cfg(test)]
mod worked;
#[cfg(test)]
mod works;
