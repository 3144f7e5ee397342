//! Reading a part of an object.
ghost use Rattle.std.specs.Prelude.{◌≡◌};
ghost use Rattle.costore_c.specs.{Calls.{OnOpenElse}, Reads.{ReadsSome, memory}};

use crate::codes::{CLOSED, of_number};
use store_handle::{Handle, Stage};

/// Copies bytes of an object, from an offset on, to the front of `out`, and writes how many: as many as there
/// are from there on, and `out` has room for. They aren't compared with a digest. At a refusal nothing is
/// written.
#[unsafe(no_mangle)]
pub extern "C" fn costore_read(
    store: &mut Handle,
    name: &[u8],
    from: u64,
    out: &mut [u8],
    size: &mut u64,
) -> i32
    ensures read { OnOpenElse (memory out.new size.new ≡ memory out.old size.old)
        (ReadsSome name.now from (memory out.old size.old) (memory out.new size.new))
        store.old.value.stage result }
    ensures frame { store.new ≡ store.old }
{
    match &store.held().stage {
        Stage::Open(open) => of_number(open.read_part(name, from, out), size),
        _ => CLOSED,
    }
}
