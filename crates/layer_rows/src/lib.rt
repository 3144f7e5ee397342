//! Worked rows of the crates that the store stands on, as tables: what each call answers at known values.
#![tactic(auto)]

#[cfg(test)]
mod broken_tables;
#[cfg(test)]
mod codec;
#[cfg(test)]
mod costs;
#[cfg(test)]
mod devices;
#[cfg(test)]
mod digests;
#[cfg(test)]
mod drawn_flushes;
#[cfg(test)]
mod entries;
#[cfg(test)]
mod flush_begins;
#[cfg(test)]
mod flush_phases;
#[cfg(test)]
mod flush_resumes;
#[cfg(test)]
mod flushes;
#[cfg(test)]
mod fuses;
#[cfg(test)]
mod guards;
#[cfg(test)]
mod jobs;
#[cfg(test)]
mod layouts;
#[cfg(test)]
mod list_shelf;
#[cfg(test)]
mod loads;
#[cfg(test)]
mod places;
#[cfg(test)]
mod plain_books;
#[cfg(test)]
mod plain_flush;
#[cfg(test)]
mod plain_numbers;
#[cfg(test)]
mod rows;
#[cfg(test)]
mod sizes;
#[cfg(test)]
mod spans;
#[cfg(test)]
mod table_words;
#[cfg(test)]
mod tables;
#[cfg(test)]
mod waiting;
