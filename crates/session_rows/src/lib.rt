//! Worked sessions of the program, as tables: what is put, and what is left of the file, also where a disk
//! fails at each call, and of what a crash leaves at each turn of a format, a save and a session. And worked
//! files: what each opens to, by both ways of opening one.
#![tactic(auto)]

#[cfg(test)]
mod answers;
#[cfg(test)]
mod batched;
#[cfg(test)]
mod cases;
#[cfg(test)]
mod copied;
#[cfg(test)]
mod desked;
#[cfg(test)]
mod digested;
#[cfg(test)]
mod eleven;
#[cfg(test)]
mod failing_calls;
#[cfg(test)]
mod failing_sessions;
#[cfg(test)]
mod format_images;
#[cfg(test)]
mod further_puts;
#[cfg(test)]
mod hand_made;
#[cfg(test)]
mod hundreds;
#[cfg(test)]
mod images;
#[cfg(test)]
mod load_images;
#[cfg(test)]
mod loaded;
#[cfg(test)]
mod moments;
#[cfg(test)]
mod moving;
#[cfg(test)]
mod older_files;
#[cfg(test)]
mod opened_maps;
#[cfg(test)]
mod openings;
#[cfg(test)]
mod replaced;
#[cfg(test)]
mod requests;
#[cfg(test)]
mod rows;
#[cfg(test)]
mod saves;
#[cfg(test)]
mod sessions;
#[cfg(test)]
mod sizes;
#[cfg(test)]
mod spoiled;
#[cfg(test)]
mod stopped_flushes;
#[cfg(test)]
mod stops;
#[cfg(test)]
mod texts;
#[cfg(test)]
mod upgraded;
#[cfg(test)]
mod versions;
#[cfg(test)]
mod works;
