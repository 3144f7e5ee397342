//! A plain reader of requests: what bytes begin with, if that is a request.
ghost use Rattle.std.specs.Prelude.{◌<◌, IfSome, length};

/// A request, by the bytes of its words and of its object.
#[derive(Clone, Copy)]
pub enum Asked<'a> {
    Put { name: &'a [u8], object: &'a [u8] },
    Del(&'a [u8]),
    Get(&'a [u8]),
    Old(&'a [u8]),
    Keep,
    Back,
    List,
    Stat,
}

/// A request, and the bytes behind it.
#[derive(Clone, Copy)]
pub struct First<'a> {
    pub asked: Asked<'a>,
    pub rest: &'a [u8],
}

/// The longest word that stands for a name.
const LONGEST: usize = 255;

/// The greatest number that a size may be.
const GREATEST: u64 = 4_294_967_295;

/// The request that bytes begin with; none where they begin with none, or end within one.
pub fn first_request(bytes: &[u8]) -> Option<First<'_>> {
    let end = place_of(bytes, b'\n')?;
    let line = &bytes[..end];
    let rest = &bytes[end + 1..];
    let Some(at) = place_of(line, b' ') else {
        return Some(First {
            asked: bare(line)?,
            rest,
        });
    };
    let verb = &line[..at];
    let words = &line[at + 1..];
    if verb == b"put".as_slice() {
        return put(words, rest);
    }
    Some(First {
        asked: named(verb, words)?,
        rest,
    })
}

/// Where a byte stands first.
fn place_of(bytes: &[u8], wanted: u8) -> Option<usize>
    ensures { IfSome result (λ at. at < length bytes.now) }
{
    bytes.iter().position(|byte| *byte == wanted)
}

/// A request of one word.
fn bare<'a>(line: &[u8]) -> Option<Asked<'a>> {
    match line {
        b"keep" => Some(Asked::Keep),
        b"back" => Some(Asked::Back),
        b"list" => Some(Asked::List),
        b"stat" => Some(Asked::Stat),
        _ => None,
    }
}

/// A request of two words.
fn named<'a>(verb: &[u8], name: &'a [u8]) -> Option<Asked<'a>> {
    if !is_word(name) {
        return None;
    }
    match verb {
        b"del" => Some(Asked::Del(name)),
        b"get" => Some(Asked::Get(name)),
        b"old" => Some(Asked::Old(name)),
        _ => None,
    }
}

/// A put, by the words behind its first one and the bytes behind its line.
fn put<'a>(words: &'a [u8], rest: &'a [u8]) -> Option<First<'a>> {
    let at = place_of(words, b' ')?;
    let name = &words[..at];
    let size = size_of(&words[at + 1..])?;
    if !is_word(name) || rest.len() as u64 <= size {
        return None;
    }
    let size = size as usize;
    if rest[size] != b'\n' {
        return None;
    }
    Some(First {
        asked: Asked::Put {
            name,
            object: &rest[..size],
        },
        rest: &rest[size + 1..],
    })
}

/// Whether bytes are a word that stands for a name: 1 to 255, printable and no blank.
fn is_word(bytes: &[u8]) -> bool {
    !bytes.is_empty()
        && bytes.len() <= LONGEST
        && bytes.iter().all(|byte| b'!' <= *byte && *byte <= b'~')
}

/// The size that digits spell, without a zero in front.
fn size_of(digits: &[u8]) -> Option<u64> {
    if digits.is_empty() || 10 < digits.len() || (1 < digits.len() && digits[0] == b'0') {
        return None;
    }
    let mut size = 0u64;
    for digit in digits {
        if !digit.is_ascii_digit() {
            return None;
        }
        size = size
            .saturating_mul(10)
            .saturating_add(u64::from(*digit - b'0'));
    }
    if GREATEST < size {
        return None;
    }
    Some(size)
}
