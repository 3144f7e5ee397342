//! Worked scripts of a desk on a disk in memory: whole, cut at each byte, over a disk that fails a call, and
//! with texts that find no room.
#![tactic(auto)]

#[cfg(test)]
mod acts;
#[cfg(test)]
mod cuts;
#[cfg(test)]
mod long_texts;
#[cfg(test)]
mod plays;
#[cfg(test)]
mod scripts;
#[cfg(test)]
mod stops;
