//! Reading the changes of a batch's text.
ghost use Rattle.std.specs.Prelude.{◌≡◌, ◌≤◌, ◌+◌, ◌++◌, ◌∷◌, ℕ, List, length, drop, take, nat_eq, codes, Some, None, MatchOption};
ghost use Rattle.std.specs.List.{position};
ghost use Rattle.map_model.specs.Requests as ask;
ghost use Rattle.map_model.specs.Requests.{Change};
ghost use Rattle.ask_text.specs.{Asks.{IsAsk, line_of}, Inputs.{BeginsNone, request_text}};
ghost use Rattle.batch_model.specs.Parts.{CanStand, IsNoPart, ReadsObject, change_of};

use ask_text::{Ask, read_ask};
use size_class::SIZE_MAX;
use slot_codec::Name;

/// A change that stands at the front of a text, and what follows it there.
#[derive(Drop)]
pub struct Part<'a> {
    pub name: Name,
    pub object: Option<&'a [u8]>,
    pub rest: &'a [u8],
}

/// The change that stands at the front of a text; none where there is none with a name that is one and
/// an object that isn't too long.
pub fn read_part(text: &[u8]) -> Option<Part<'_>>
    ensures { MatchOption result (IsNoPart text.now) (λ p. CanStand (change_of p)
        × (text.now ≡ request_text (ask.change (change_of p)) ++ p.rest.now)) }
{
    let Some((ask, rest)) = read_line(text) else {
        return None;
    };
    match ask {
        Ask::Del { name } => {
            let Some(name) = Name::new(name.as_bytes()) else {
                return None;
            };
            Some(Part {
                name,
                object: None,
                rest,
            })
        }
        Ask::Put { name, size } => {
            let Some(name) = Name::new(name.as_bytes()) else {
                return None;
            };
            let Some((object, rest)) = read_object(rest, size) else {
                return None;
            };
            Some(Part {
                name,
                object: Some(object),
                rest,
            })
        }
        _ => None,
    }
}

/// What the first line of a text asks for, and what follows its newline.
fn read_line(text: &[u8]) -> Option<(Ask, &[u8])>
    ensures { MatchOption result (BeginsNone text.now)
        (λ r. IsAsk r.0 × (text.now ≡ line_of r.0 ++ 10 ∷ r.1.now)) }
{
    let Some(end) = first_newline(text) else {
        return None;
    };
    match read_ask(&text[..end]) {
        Ok(ask) => Some((ask, &text[end + 1..])),
        Err(_) => None,
    }
}

/// Where the first newline stands.
fn first_newline(bytes: &[u8]) -> Option<usize>
    ensures { result ≡ position (nat_eq 10) bytes.now }
{
    bytes.iter().position(|byte| b'\n' == *byte)
}

/// An object of so many bytes, and what follows the newline behind it.
fn read_object(text: &[u8], size: u64) -> Option<(&[u8], &[u8])>
    ensures { MatchOption result
        ((object rest : List ℕ) → length object ≡ size → size ≤ SIZE_MAX
        → text.now ≡ object ++ 10 ∷ rest → ⊥)
        (λ r. ReadsObject size text.now r.0.now r.1.now) }
{
    if size > SIZE_MAX {
        return None;
    }
    let size = size as usize;
    match text.get(size) {
        Some(b'\n') => Some((&text[..size], &text[size + 1..])),
        _ => None,
    }
}
