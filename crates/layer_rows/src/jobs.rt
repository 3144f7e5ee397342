//! Lists of jobs beside those of a plain program in another language.
use work_maker::{Job, Work};

/// A job in short: its name, its size and its first byte. A put has a size above 0; of the others the last
/// number says which it is.
type Short = (&'static [u8], u64, u8);

const FIRST: &[Short] = &[
    (b"o3985", 1624, 1),
    (b"o1747", 0, 1),
    (b"o2854", 3907, 3),
    (b"o683", 6316, 4),
    (b"o3773", 1509, 5),
    (b"o1768", 4106, 6),
    (b"o814", 2392, 7),
    (b"o1410", 0, 0),
    (b"", 0, 2),
];

const GREATEST: &[Short] = &[
    (b"o12369", 0, 1),
    (b"o61755", 0, 0),
    (b"", 0, 2),
    (b"o29178", 0, 1),
    (b"", 0, 2),
];

/// The jobs from the 255th on.
const LATER: &[Short] = &[
    (b"o1032", 3724, 255),
    (b"o1222", 5390, 0),
    (b"o2768", 2253, 1),
    (b"o3328", 0, 1),
    (b"o472", 1403, 3),
    (b"o1218", 3421, 4),
];

/// Whether this is a job in short.
fn is_short(job: &Job, wanted: &Short) -> bool {
    let (name, size, first) = match job {
        Job::Put { name, size, first } => (name.as_bytes(), *size, *first),
        Job::Del { name } => (name.as_bytes(), 0, 0),
        Job::Get { name } => (name.as_bytes(), 0, 1),
        Job::Keep => (b"".as_slice(), 0, 2),
    };
    (name, size, first) == *wanted
}

/// Whether the first jobs of a list are these.
fn begins_with(work: &mut Work, wanted: &[Short]) -> bool {
    for want in wanted {
        let is_next = match work.next() {
            Some(job) => is_short(&job, want),
            None => false,
        };
        if !is_next {
            return false;
        }
    }
    true
}

/// Whether so many jobs of a list are there.
fn passes(work: &mut Work, count: u64) -> bool {
    for _ in 0..count {
        if work.next().is_none() {
            return false;
        }
    }
    true
}

#[test]
fn numbers_give_their_jobs(rt: HostRuntime) {
    let mut work = Work::new(1, 8, 4096);
    assert!(rt; begins_with(&mut work, FIRST));
    assert!(rt; work.next().is_none());
    assert!(rt; work.next().is_none());
}

#[test]
fn the_greatest_number_gives_its_jobs(rt: HostRuntime) {
    let mut work = Work::new(u64::MAX, 4, 65536);
    assert!(rt; begins_with(&mut work, GREATEST));
    assert!(rt; work.next().is_none());
}

#[test]
fn objects_begin_with_the_number_of_their_job(rt: HostRuntime) {
    let mut work = Work::new(1, 300, 4096);
    assert!(rt; passes(&mut work, 254));
    assert!(rt; begins_with(&mut work, LATER));
}
