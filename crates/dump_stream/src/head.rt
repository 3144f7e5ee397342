//! The first line of a dump, read and written.
ghost use Rattle.std.specs.Prelude.{◌≡◌, ◌+◌, ◌*◌, ◌^◌, ◌<◌, ◌≤◌, ◌++◌, ℕ, List, IfErr, IfOk, IfSome, IsNone, codes, drop, flat_map, length, nat_lt, slice_index, take};
ghost use Rattle.std.specs.Fmt.{decimal};
ghost use Rattle.std.specs.List.{position};
ghost use Rattle.arrayvec.specs.ArrayVec.{array_vec_len};
ghost use Rattle.size_class.specs.{Classes.{IsRow}, Rows.{cells_of}};
ghost use Rattle.dump_stream.specs.Heads.{Ends, IsHead, ReadsVolumes, Splits, TellsHead, TellsNothing, head_line, number_end, volume_text, volumes_of_head};

use arrayvec::ArrayVec;
use ask_text::{LineFault, number};
use itoa::Buffer;
use size_class::Row;

/// What the first line of a dump tells: how many objects follow, at most 65,536, and for each class
/// in use how many bytes its objects have together.
#[derive(Clone, Copy)]
pub struct DumpHead<const C: usize> {
    pub count: u64,
    pub volumes: Row<C>,
}

/// The most objects that a dump has.
const MOST: u64 = 65_536;

/// What a line tells, read without its newline; a fault exactly where it is no first line.
pub fn read_head<const C: usize>(line: &[u8]) -> Result<DumpHead<C>, LineFault>
    requires fits { C ≤ 32 }
    ensures read { IfOk result (λ head. TellsHead line.now head) }
    ensures fault { IfErr result (λ _. TellsNothing C line.now) }
{
    let Some(words) = line.strip_prefix(b"dump ") else {
        return Err(LineFault);
    };
    let Some((count, at)) = first_number(words) else {
        return Err(LineFault);
    };
    if count > MOST {
        return Err(LineFault);
    }
    read_volumes(count, &words[at..])
}

/// The volumes that a text tells, one for each class in use, for so many objects.
fn read_volumes<const C: usize>(count: u64, text: &[u8]) -> Result<DumpHead<C>, LineFault>
    requires fits { C ≤ 32 }
    requires few { count ≤ 65536 }
    requires ends { Ends text.now }
    ensures head { IfOk result (λ head. IsHead C count (volumes_of_head head)) }
    ensures count { IfOk result (λ head. head.count ≡ count) }
    ensures read { IfOk result (λ head. text.now ≡ flat_map volume_text (take C (volumes_of_head head))) }
    ensures fault { IfErr result (λ _. (vs : List ℕ) → IsHead C count vs
        → text.now ≡ flat_map volume_text (take C vs) → ⊥) }
{
    let mut volumes = Row::zero();
    let mut at = 0;
    'classes: for c in 0..C {
        let Some((volume, n)) = next_volume(&text[at..]) else {
            return Err(LineFault);
        };
        if volume > count << (c + 1) {
            return Err(LineFault);
        }
        volumes.set(c as u8, volume);
        at += n;
    }
    if at < text.len() {
        return Err(LineFault);
    }
    Ok(DumpHead { count, volumes })
}

/// The number that stands in front of a text behind a blank, and how many bytes both have.
fn next_volume(text: &[u8]) -> Option<(u64, usize)>
    ensures within { IfSome result (λ r. r.1 ≤ length text.now) }
    ensures found { IfSome result (λ r. (r.0 < 2 ^ 64)
        × (text.now ≡ volume_text r.0 ++ drop r.1 text.now) × Ends (drop r.1 text.now)) }
    ensures none { IsNone result → (v : ℕ) (rest : List ℕ) → v < 2 ^ 64 → Ends rest
        → text.now ≡ volume_text v ++ rest → ⊥ }
{
    let digits = text.strip_prefix(b" ")?;
    let (volume, n) = first_number(digits)?;
    Some((volume, n + 1))
}

/// The number that stands in front of a text, up to the first byte below the digits, and how many
/// bytes it has.
fn first_number(text: &[u8]) -> Option<(u64, usize)>
    ensures within { IfSome result (λ r. r.1 ≤ length text.now) }
    ensures found { IfSome result (λ r. Splits text.now r.0 (drop r.1 text.now)) }
    ensures none { IsNone result → (v : ℕ) (rest : List ℕ) → Splits text.now v rest → ⊥ }
{
    let at = number_end(text);
    let number = number(&text[..at])?;
    Some((number, at))
}

/// Where the first byte below the digits stands, or how many bytes there are.
fn number_end(text: &[u8]) -> usize
    ensures { result ≡ number_end text.now }
{
    match first_low(text) {
        Some(at) => at,
        None => text.len(),
    }
}

/// Where the first byte below the digits stands.
fn first_low(text: &[u8]) -> Option<usize>
    ensures { result ≡ position (λ x. nat_lt x 48) text.now }
{
    text.iter().position(|byte| *byte < b'0')
}

/// The first line with its newline.
pub fn write_head<const C: usize>(head: &DumpHead<C>) -> ArrayVec<u8, 512>
    requires fits { C ≤ 32 }
    requires head { IsHead C head.now.count (volumes_of_head head.now) }
    ensures { result.items ≡ head_line C head.now.count (volumes_of_head head.now) ++ codes "\n" }
{
    let mut line = ArrayVec::new();
    push(&mut line, b"dump ");
    push_number(&mut line, head.count);
    'classes: for c in 0..C {
        push(&mut line, b" ");
        push_number(&mut line, head.volumes.get(c as u8));
    }
    push(&mut line, b"\n");
    line
}

/// Adds the digits of a number, 20 at most.
pub(crate) fn push_number(line: &mut ArrayVec<u8, 512>, number: u64)
    requires { array_vec_len line.old + length (decimal number) ≤ 512 }
    ensures { line.new.items ≡ line.old.items ++ decimal number }
{
    let mut digits = Buffer::new();
    push(line, digits.format(number).as_bytes());
}

/// Adds bytes.
pub(crate) fn push(line: &mut ArrayVec<u8, 512>, bytes: &[u8])
    requires { array_vec_len line.old + length bytes.now ≤ 512 }
    ensures { line.new.items ≡ line.old.items ++ bytes.now }
{
    line.try_extend_from_slice(bytes).unwrap();
}
