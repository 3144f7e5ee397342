//! Worked rows of a store behind a cache.
#![tactic(auto)]

#[cfg(test)]
mod caches;
pub mod trials;
