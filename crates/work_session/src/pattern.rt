//! The bytes of which the objects of all jobs are parts.
ghost use Rattle.std.specs.Prelude.{◌≡◌, ◌<◌, ◌≤◌, ◌^◌, ◌+◌, ◌%◌, ℕ, IfOk, length, slice_index};
ghost use Rattle.work_session.specs.Jobs.{IsPattern};

use slot_codec::NoMemory;
use std::alloc::Global;

/// How many bytes there are: an object has at most 8,192, and begins at one of the first 256.
const PATTERN_LEN: usize = 8192 + 255;

/// The bytes that count up from 0, each modulo 256: an object that counts up from any byte is a part.
pub(crate) fn counting(alloc: Global) -> Result<Vec<u8>, NoMemory>
    ensures { IfOk result (λ bytes. IsPattern bytes.items) }
{
    let Ok(mut bytes) = vec![in alloc; 0; PATTERN_LEN] else {
        return Err(NoMemory);
    };
    'bytes: for j in 0..PATTERN_LEN {
        bytes[j] = (j % 256) as u8;
    }
    Ok(bytes)
}
