//! What the first bytes of a file say, and the version of the library.
ghost use Rattle.std.specs.Prelude.{◌≡◌};
ghost use Rattle.costore_c.specs.Shapes.{TellsShape, version_number};

use crate::codes::{DONE, NO_STORE, SHORT};
use slot_codec::{SUPERBLOCK_LEN, head_len, read_superblock};

/// What the first 64 bytes of a file say: K, NAMES, and how many bytes stand before the objects, which is the
/// least length of such a file.
#[repr(C)]
pub struct Shape {
    pub k: u64,
    pub names: u64,
    pub head: u64,
}

/// Reads the first bytes of a file, of which 64 are enough. Where there are fewer, or they aren't those of a
/// store, nothing is written.
#[unsafe(no_mangle)]
pub extern "C" fn costore_shape_of(front: &[u8], shape: &mut Shape) -> i32
    ensures { TellsShape front.now shape.old shape.new result }
{
    if front.len() < SUPERBLOCK_LEN {
        return SHORT;
    }
    match read_superblock(&front[..SUPERBLOCK_LEN]) {
        Ok(block) => {
            shape.k = block.k;
            shape.names = block.names;
            shape.head = head_len(block.names);
            DONE
        }
        Err(_) => NO_STORE,
    }
}

/// The version of the library: 10,000 times its first number, 100 times its second and its third.
#[unsafe(no_mangle)]
pub extern "C" fn costore_version() -> u32
    ensures { result ≡ version_number }
{
    100
}
