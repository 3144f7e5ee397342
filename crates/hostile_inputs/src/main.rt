//! Tries hostile input. With no word it tries files that were spoilt, logged files that were, and then sessions
//! with inputs that were. `hostile_inputs COUNT IMAGE COMMAND FILE ..` tries a command where one growth of memory is refused.
#![tactic(auto)]

mod drawn;
mod files;
mod logs;
mod memory;
mod streams;
mod tally;
mod values;

use std::env;
use std::test::Fail;

fn main(rt: HostRuntime) -> Result<(), Fail> {
    let words: Vec<String> = env::args(&rt)?.skip(1).collect(rt.alloc())?;
    let texts: Vec<&str> = words.iter().map(|word| word.as_str()).collect(rt.alloc())?;
    match texts.as_slice() {
        [] => {
            files::try_all(&rt)?;
            logs::try_all(&rt)?;
            streams::try_all(&rt)
        }
        [count, image, command @ ..] => memory::try_one(&rt, count, image, command),
        _ => Err("COUNT IMAGE COMMAND FILE ..")?,
    }
}
