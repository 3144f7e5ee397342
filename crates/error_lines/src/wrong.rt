//! Which word of a command line is wrong, and what it may be.
use crate::line::{Texts, one, three};
use crate::texts::text_of;

/// A command, and what its words are called: each, and all behind one another.
struct Form {
    command: &'static str,
    words: &'static [&'static str],
    text: &'static str,
}

/// The commands.
const FORMS: &[Form] = &[
    Form {
        command: "format",
        words: &["FILE", "K", "NAMES"],
        text: " FILE K NAMES",
    },
    Form {
        command: "get",
        words: &["FILE", "NAME"],
        text: " FILE NAME",
    },
    Form {
        command: "check",
        words: &["FILE"],
        text: " FILE",
    },
    Form {
        command: "map",
        words: &["FILE"],
        text: " FILE",
    },
    Form {
        command: "run",
        words: &["FILE"],
        text: " FILE",
    },
    Form {
        command: "work",
        words: &["FILE", "NUMBER", "COUNT"],
        text: " FILE NUMBER COUNT",
    },
    Form {
        command: "dump",
        words: &["FILE"],
        text: " FILE",
    },
    Form {
        command: "upgrade",
        words: &["FILE"],
        text: " FILE",
    },
    Form {
        command: "load",
        words: &["FILE", "K", "NAMES"],
        text: " FILE K NAMES",
    },
    Form {
        command: "batch",
        words: &["FILE"],
        text: " FILE",
    },
    Form {
        command: "desk",
        words: &["FILE"],
        text: " FILE",
    },
    Form {
        command: "cached",
        words: &["FILE", "NUMBER", "COUNT", "ENTRIES"],
        text: " FILE NUMBER COUNT ENTRIES",
    },
    Form {
        command: "--help",
        words: &[],
        text: "",
    },
    Form {
        command: "--version",
        words: &[],
        text: "",
    },
];

/// The form of a command, if it is one.
fn form_of(command: &str) -> Option<&'static Form> {
    for form in FORMS {
        if form.command == command {
            return Some(form);
        }
    }
    None
}

/// What is wrong with the words of a command line. If one isn't UTF-8, no words are given here.
pub fn wrong<'a>(words: &[&'a str], are_text: bool) -> Texts<'a> {
    if !are_text {
        return one("every word must be UTF-8, a file's name too");
    }
    let Some(command) = words.get(0) else {
        return one("no command is given; see costore --help");
    };
    match form_of(command) {
        Some(form) => ill(form, &words[1..]),
        None => three("unknown command ", command, "; see costore --help"),
    }
}

/// What is wrong with the words of a command: the first that is out of range, or how many they are.
fn ill<'a>(form: &Form, words: &[&'a str]) -> Texts<'a> {
    if form.words.len() == words.len() {
        for at in 0..words.len() {
            let name = form.words[at];
            let word = words[at];
            if !may_be(name, word) {
                return out(name, word);
            }
        }
    }
    three("usage: costore ", form.command, form.text)
}

/// A word that is out of the range of its name.
fn out<'a>(name: &'a str, word: &'a str) -> Texts<'a> {
    let range = text_of(RANGES, name).unwrap_or("any non-empty text");
    if word.is_empty() {
        three(name, " must be ", range)
    } else {
        [name, " must be ", range, ", not ", word]
    }
}

/// What a word may be, by what it is called.
const RANGES: &[(&str, &str)] = &[
    ("NAME", "1 to 63 bytes of printable ASCII without spaces"),
    ("K", "a number from 2 to 64"),
    ("NAMES", "a number from 16 to 65536"),
    ("NUMBER", "a number from 0 to 18446744073709551615"),
    ("COUNT", "a number from 1 to 1000000"),
    ("ENTRIES", "a number from 1 to 4096"),
];

/// Whether a word of this name may be so.
fn may_be(name: &str, word: &str) -> bool {
    match name {
        "NAME" => {
            !word.is_empty() && word.len() <= 63 && word.bytes().all(|b| b' ' < b && b < 0x7f)
        }
        "K" => is_number(word, 2, 64),
        "NAMES" => is_number(word, 16, 65_536),
        "NUMBER" => is_number(word, 0, u64::MAX),
        "COUNT" => is_number(word, 1, 1_000_000),
        "ENTRIES" => is_number(word, 1, 4_096),
        _ => !word.is_empty(),
    }
}

/// Whether a word is a number of this range, in digits without a sign or a leading zero.
fn is_number(word: &str, low: u64, high: u64) -> bool {
    let zeros = word.starts_with('0') && word != "0";
    match word.parse::<u64>() {
        Ok(n) => !zeros && !word.starts_with('+') && low <= n && n <= high,
        Err(_) => false,
    }
}
