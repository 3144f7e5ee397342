//! Words of a line that may stand for names.
ghost use Rattle.std.specs.Prelude.{◌≡◌, ◌↔◌, IfSome, IsSome};
ghost use Rattle.std.specs.List.{list_all};
ghost use Rattle.slot_codec.specs.Names.{is_name_byte};
ghost use Rattle.ask_text.specs.Words.{IsWord, is_word};

use arrayvec::ArrayVec;
use std::marker::Model;

/// A word that stands for a name: 1 to 255 bytes, each from 0x21 to 0x7E (printable ASCII, no
/// blank). Contracts see it as the list of its bytes. A name of a store has 63 at most.
#[derive(Debug, Drop, PartialEq, Eq)]
pub struct Word {
    text: ArrayVec<u8, 255>,
}

impl Model for Word {
    ghost use Rattle.std.specs.Prelude.{ℕ, List};
    ghost use Rattle.ask_text.specs.Words.{IsWord};

    ghost Value = { List ℕ };

    ghost view = { λ w. w.text.items };

    ghost invariant = { λ w. IsWord w.text.items };

    ghost inverse = { λ v. record { text = record { items = v } } };
}

/// The longest word, in bytes.
const LONGEST: usize = 255;

impl Word {
    /// The word with these bytes; none exactly where they are no word.
    pub(crate) fn new(bytes: &[u8]) -> Option<Word>
        ensures valid { IsSome result ↔ IsWord bytes.now }
        ensures value { IfSome result (λ word. word ≡ bytes.now) }
    {
        if !is_word(bytes) {
            return None;
        }
        let mut text = ArrayVec::new();
        text.try_extend_from_slice(bytes).unwrap();
        Some(Word { text })
    }

    /// The bytes of the word.
    pub fn as_bytes(&self) -> &[u8]
        ensures value { result.now ≡ self.now }
        ensures word { IsWord result.now }
    {
        self.text.as_slice()
    }
}

/// Whether bytes are a word.
fn is_word(bytes: &[u8]) -> bool
    ensures { result ≡ is_word bytes.now }
{
    !bytes.is_empty() && bytes.len() <= LONGEST && are_name_bytes(bytes)
}

/// Whether each byte may stand in a name.
fn are_name_bytes(bytes: &[u8]) -> bool
    ensures { result ≡ list_all is_name_byte bytes.now }
{
    bytes.iter().all(|byte| 0x21 <= *byte && *byte <= 0x7e)
}
