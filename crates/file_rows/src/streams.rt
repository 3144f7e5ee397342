//! Streams that pass on little at a time, are interrupted, and fail at a call.
use crate::slow::{Failing, Slow};
use disk_face::{Sink, Source};
use disk_file::{StdSink, StdSource};
use std::alloc::{AllocError, Global};
use std::process::Abort;

/// The call of a writer that fails; how many of two puts end well then, and what the writer has.
const FRONTS: &[(u64, u64, &str)] = &[
    (1, 0, ""),
    (2, 0, "012"),
    (3, 1, "01234"),
    (4, 1, "01234567"),
    (5, 2, "0123456789"),
];

/// An object that is put in two parts, until a put fails: what the writer has is a front of it.
#[test]
fn puts_an_object_until_the_writer_fails(rt: HostRuntime) {
    puts_fronts(&rt, rt.alloc(), Failing::ByError);
    puts_fronts(&rt, rt.alloc(), Failing::ByNothing);
}

/// Puts the object to a writer of each row.
fn puts_fronts(rt: &impl Abort, alloc: Global, how: Failing) {
    for row in FRONTS {
        puts_front(rt, alloc, how, row);
    }
}

/// Puts the object to a writer.
fn puts_front(rt: &impl Abort, alloc: Global, how: Failing, row: &(u64, u64, &str)) {
    let mut slow = Slow::new(Vec::new(alloc), row.0, how);
    assert!(rt; put_both(&mut slow) == row.1);
    assert!(rt; slow.bytes.as_slice() == row.2.as_bytes());
}

/// Puts both parts, the second if the first ends well, and tells how many do.
fn put_both(slow: &mut Slow) -> u64 {
    let mut sink = StdSink::new(slow);
    if sink.put(b"01234").is_err() {
        return 0;
    }
    if sink.put(b"56789").is_err() {
        return 1;
    }
    2
}

/// A reader that fails once: each byte comes once, in order, and the failed call takes none.
#[test]
fn takes_what_the_reader_gives(rt: HostRuntime) {
    for fails in 1..=5u64 {
        takes_all(&rt, rt.alloc(), fails);
    }
}

/// Takes five times of a reader, of whose calls one fails; and then there is nothing more.
fn takes_all(rt: &impl Abort, alloc: Global, fails: u64) {
    let mut taken = Vec::new(alloc);
    let failed = take_five(alloc, fails, &mut taken).expect(rt, "memory");
    assert!(rt; failed == fails && taken.as_slice() == b"01234567".as_slice());
}

/// Takes five times, and once more. It answers the number of the call that failed, with a digit for each
/// if there are more, and a 9 if the last call gave anything.
fn take_five(alloc: Global, fails: u64, taken: &mut Vec<u8>) -> Result<u64, AllocError> {
    let bytes = Vec::from_slice(alloc, b"01234567")?;
    let mut source = StdSource::new(Slow::new(bytes, fails, Failing::ByError));
    let mut failed = 0u64;
    for call in 1..=5u64 {
        if take_once(&mut source, taken)?.is_none() {
            failed = failed.wrapping_mul(10).wrapping_add(call);
        }
    }
    if take_once(&mut source, taken)? != Some(0) {
        failed = failed.wrapping_mul(10).wrapping_add(9);
    }
    Ok(failed)
}

/// Takes up to four bytes more, unless the reader fails.
fn take_once(
    source: &mut StdSource<Slow>,
    taken: &mut Vec<u8>,
) -> Result<Option<usize>, AllocError> {
    let mut out = [0u8; 4];
    match source.take(&mut out) {
        Ok(n) => {
            taken.extend_from_slice(&out[..n])?;
            Ok(Some(n))
        }
        Err(_) => Ok(None),
    }
}
