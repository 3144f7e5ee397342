//! One job, as three words draw it.
ghost use Rattle.std.specs.Prelude.{◌≡◌, ◌≤◌, ◌<◌};
ghost use Rattle.slot_codec.specs.Names.{IsName};
ghost use Rattle.work_maker.specs.{Jobs.{job_drawn, name_drawn}, Making.{asked_by}};

use arrayvec::ArrayVec;
use itoa::Buffer;
use slot_codec::Name;

/// The most bytes of an object.
const LARGEST: u32 = 8192;

/// Something to ask of a store.
#[derive(Debug, Drop, PartialEq, Eq)]
pub enum Job {
    /// An object of `size` bytes is put; its byte `t`, from 0 on, is `first + t` modulo 256.
    Put { name: Name, size: u64, first: u8 },
    /// An object is removed.
    Del { name: Name },
    /// An object is read.
    Get { name: Name },
    /// A checkpoint is saved.
    Keep,
}

/// Job `number` of the words `x`, `y` and `z`, for a store with room for so many names.
pub(crate) fn drawn(names: u64, number: u64, x: u32, y: u32, z: u32) -> Job
    requires low { 1 ≤ names }
    requires high { names ≤ 65536 }
    ensures { asked_by result ≡ job_drawn names number x y z }
{
    let name = name_of(names, x);
    match y % 8 {
        0..=4 => Job::Put {
            name,
            size: u64::from(1 + z % LARGEST),
            first: (number % 256) as u8,
        },
        5 => Job::Del { name },
        6 => Job::Get { name },
        _ => Job::Keep,
    }
}

/// The name that a word draws.
#[tactic(auto, using(crate::proofs::NameLaws::is_name_drawn))]
fn name_of(names: u64, word: u32) -> Name
    requires low { 1 ≤ names }
    requires high { names ≤ 65536 }
    ensures { result ≡ name_drawn names word }
{
    let mut digits = Buffer::new();
    let number = u64::from(word) % names;
    let mut bytes: ArrayVec<u8, 63> = ArrayVec::new();
    bytes.try_extend_from_slice(b"o").unwrap();
    bytes
        .try_extend_from_slice(digits.format(number).as_bytes())
        .unwrap();
    Name::new(bytes.as_slice()).unwrap()
}
