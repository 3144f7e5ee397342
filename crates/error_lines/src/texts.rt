//! Texts by a word.

/// The text beside a word, if it is among these.
pub fn text_of<'a>(texts: &[(&str, &'static str)], word: &str) -> Option<&'a str> {
    for (name, text) in texts {
        if *name == word {
            return Some(*text);
        }
    }
    None
}
