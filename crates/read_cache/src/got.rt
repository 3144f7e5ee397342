//! What a get of a cache answers.

/// An object was put: how many bytes it has, whether its name was listed, and whether it is now.
#[derive(Clone, Copy, Debug, PartialEq, Eq)]
pub struct Got {
    pub size: u64,
    pub hit: bool,
    pub cached: bool,
}
