//! What a line asks for.
ghost use Rattle.std.specs.Prelude.{◌≡◌, ◌<◌, ◌++◌, ℕ, MatchOption, IfErr, IfOk, Ok, codes, nat_eq};
ghost use Rattle.std.specs.Fmt.{decimal};
ghost use Rattle.std.specs.List.{position};
ghost use Rattle.ask_text.specs.{declared.ask.Ask.{Ask}, Asks.{AsksFor, AsksForNothing, IsBare}, Words.{IsWord}};

use crate::{Word, number};
use thiserror::Error;

/// What a line asks for.
#[derive(Debug, Drop, PartialEq, Eq)]
pub enum Ask {
    /// Put an object of this many bytes, below 2^32, which follow the line.
    Put { name: Word, size: u64 },
    /// The object as it is now.
    Get { name: Word },
    /// The object as it was at the last checkpoint.
    Old { name: Word },
    Del { name: Word },
    /// Save a checkpoint.
    Keep,
    /// Go back to the last checkpoint.
    Back,
    List,
    Stat,
}

/// The line asks for nothing.
#[derive(Clone, Copy, Debug, PartialEq, Eq, Error)]
#[error("the line is no request")]
pub struct LineFault;

/// What a line asks for, read without its newline; a fault exactly where it asks for nothing.
pub fn read_ask(line: &[u8]) -> Result<Ask, LineFault>
    ensures read { IfOk result (λ ask. AsksFor line.now ask) }
    ensures again { (ask : Ask) → AsksFor line.now ask → result ≡ Ok ask }
    ensures fault { IfErr result (λ _. AsksForNothing line.now) }
{
    match bare(line) {
        Some(ask) => Ok(ask),
        None => named(line),
    }
}

/// What a line asks for, where it names nothing.
fn bare(line: &[u8]) -> Option<Ask>
    ensures { MatchOption result ((ask : Ask) → AsksFor line.now ask → IsBare ask → ⊥)
        (λ ask. AsksFor line.now ask) }
{
    match line {
        b"keep" => Some(Ask::Keep),
        b"back" => Some(Ask::Back),
        b"list" => Some(Ask::List),
        b"stat" => Some(Ask::Stat),
        _ => None,
    }
}

/// What a line asks for, where it names something.
fn named(line: &[u8]) -> Result<Ask, LineFault>
    ensures read { IfOk result (λ ask. AsksFor line.now ask) }
    ensures fault { IfErr result (λ _. (ask : Ask) → AsksFor line.now ask → IsBare ask) }
{
    if let Some(words) = line.strip_prefix(b"put ") {
        put_of(words)
    } else if let Some(name) = line.strip_prefix(b"get ") {
        Ok(Ask::Get { name: word(name)? })
    } else if let Some(name) = line.strip_prefix(b"old ") {
        Ok(Ask::Old { name: word(name)? })
    } else if let Some(name) = line.strip_prefix(b"del ") {
        Ok(Ask::Del { name: word(name)? })
    } else {
        Err(LineFault)
    }
}

/// What a line of these words asks for, which follow `put `.
fn put_of(words: &[u8]) -> Result<Ask, LineFault>
    ensures read { IfOk result (λ ask. AsksFor (codes "put " ++ words.now) ask) }
    ensures fault { IfErr result (λ _. AsksForNothing (codes "put " ++ words.now)) }
{
    let Some(at) = first_blank(words) else {
        return Err(LineFault);
    };
    let Some(name) = Word::new(&words[..at]) else {
        return Err(LineFault);
    };
    let Some(size) = size(&words[at + 1..]) else {
        return Err(LineFault);
    };
    Ok(Ask::Put { name, size })
}

/// The word with these bytes.
fn word(bytes: &[u8]) -> Result<Word, LineFault>
    ensures value { IfOk result (λ word. (word ≡ bytes.now) × IsWord bytes.now) }
    ensures fault { IfErr result (λ _. ¬ (IsWord bytes.now)) }
{
    Word::new(bytes).ok_or(LineFault)
}

/// Where the first blank stands.
fn first_blank(bytes: &[u8]) -> Option<usize>
    ensures { result ≡ position (nat_eq 32) bytes.now }
{
    bytes.iter().position(|byte| b' ' == *byte)
}

/// The size below 2^32 that bytes spell.
fn size(bytes: &[u8]) -> Option<u64>
    ensures { MatchOption result ((n : ℕ) → n < 4294967296 → bytes.now ≡ decimal n → ⊥)
        (λ n. (n < 4294967296) × (bytes.now ≡ decimal n)) }
{
    let Some(n) = number(bytes) else {
        return None;
    };
    if n >= 1 << 32 {
        return None;
    }
    Some(n)
}
