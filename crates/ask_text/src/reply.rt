//! The first lines of replies.
ghost use Rattle.std.specs.Prelude.{◌≡◌, ◌≤◌, ◌+◌, ◌++◌, codes, decimal, length};
ghost use Rattle.arrayvec.specs.ArrayVec.{array_vec_len};
ghost use Rattle.ask_text.specs.Replies.{first_line, word_of};

use arrayvec::ArrayVec;
use itoa::Buffer;

/// What the first line of a reply tells.
#[derive(Clone, Copy, Debug, PartialEq, Eq)]
pub enum Reply {
    /// Done, and no checkpoint was saved.
    Ok,
    /// Done, and a checkpoint was saved.
    Kept,
    /// An object follows, of this many bytes.
    Data {
        size: u64,
    },
    /// Nothing was done, for this reason.
    Refused(RefusedWord),
    /// Lines of this many names follow.
    List {
        count: u64,
    },
    /// How many names and bytes of objects there are now, and at the last checkpoint.
    Stat {
        names: u64,
        bytes: u64,
        kept_names: u64,
        kept_bytes: u64,
    },
}

/// The words of refusals.
#[derive(Clone, Copy, Debug, PartialEq, Eq)]
pub enum RefusedWord {
    /// The bytes are no name.
    Name,
    /// The object would be too long.
    Size,
    /// There is no such object.
    Missing,
    /// The object has another digest than the one that it was put with.
    Damaged,
    /// There is no room for another name.
    Full,
    /// The file has been saved too often.
    Worn,
}

/// The first line of a reply, with its newline.
pub fn write_reply(reply: &Reply) -> ArrayVec<u8, 128>
    ensures { result.items ≡ first_line reply.now }
{
    let mut line = ArrayVec::new();
    match *reply {
        Reply::Ok => push(&mut line, b"ok"),
        Reply::Kept => push(&mut line, b"ok kept"),
        Reply::Data { size } => {
            push(&mut line, b"data ");
            push_number(&mut line, size);
        }
        Reply::Refused(why) => {
            push(&mut line, b"refused ");
            push(&mut line, word_of(why));
        }
        Reply::List { count } => {
            push(&mut line, b"list ");
            push_number(&mut line, count);
        }
        Reply::Stat {
            names,
            bytes,
            kept_names,
            kept_bytes,
        } => {
            push(&mut line, b"stat ");
            push_number(&mut line, names);
            push(&mut line, b" ");
            push_number(&mut line, bytes);
            push(&mut line, b" ");
            push_number(&mut line, kept_names);
            push(&mut line, b" ");
            push_number(&mut line, kept_bytes);
        }
    }
    push(&mut line, b"\n");
    line
}

/// The word of a refusal.
fn word_of(why: RefusedWord) -> &'static [u8]
    ensures value { result.now ≡ word_of why }
    ensures short { length result.now ≤ 7 }
{
    match why {
        RefusedWord::Name => b"name",
        RefusedWord::Size => b"size",
        RefusedWord::Missing => b"missing",
        RefusedWord::Damaged => b"damaged",
        RefusedWord::Full => b"full",
        RefusedWord::Worn => b"worn",
    }
}

/// Adds the digits of a number, 20 at most.
fn push_number(line: &mut ArrayVec<u8, 128>, number: u64)
    requires { array_vec_len line.old + 20 ≤ 128 }
    ensures added { line.new.items ≡ line.old.items ++ decimal number }
    ensures short { array_vec_len line.new ≤ array_vec_len line.old + 20 }
{
    let mut digits = Buffer::new();
    push(line, digits.format(number).as_bytes());
}

/// Adds bytes.
fn push(line: &mut ArrayVec<u8, 128>, bytes: &[u8])
    requires { array_vec_len line.old + length bytes.now ≤ 128 }
    ensures { line.new.items ≡ line.old.items ++ bytes.now }
{
    line.try_extend_from_slice(bytes).unwrap();
}
