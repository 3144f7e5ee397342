//! Tests of files whose slots have logs: what is read of one, and how a checkpoint is saved. No command makes such
//! a file yet.
#![tactic(auto)]

#[cfg(test)]
mod reading;
#[cfg(test)]
mod saves;
#[cfg(test)]
mod worked;
