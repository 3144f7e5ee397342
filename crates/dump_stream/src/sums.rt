//! What the first line of a table's dump tells.
ghost use Rattle.std.specs.Prelude.{◌≡◌, ◌∷◌, [], List, ℕ, ◌^◌, ◌<◌, ◌≤◌, ◌++◌, length};
ghost use Rattle.std.specs.FinMap as fin;
ghost use Rattle.size_class.specs.Rows.{cells_of};
ghost use Rattle.segment_layout.specs.Books.{volumes_of_sizes};
ghost use Rattle.extent_table.specs.Extents.{IsTable};
ghost use Rattle.dump_stream.specs.{Dumping.{AreSizes, sizes_at}, Heads.{IsHead, volumes_of_head}};

use crate::head::DumpHead;
use extent_table::Table;
use size_class::{Row, SIZE_MAX, class_of};

/// What the first line of a table's dump tells.
pub(crate) fn head_of<const C: usize>(table: &Table) -> DumpHead<C>
    requires fits { C ≤ 32 }
    requires wide { SIZE_MAX < 2 ^ C }
    requires table { IsTable table.now }
    requires small { AreSizes SIZE_MAX (sizes_at table.now.now) }
    ensures count { result.count ≡ fin.len table.now.now }
    ensures volumes { volumes_of_head result ≡ volumes_of_sizes (sizes_at table.now.now) }
    ensures head { IsHead C result.count (volumes_of_head result) }
{
    let mut volumes = Row::zero();
    'names: for n in 0..table.count() {
        let (_, _, spot) = table.in_order(n);
        add_size(&mut volumes, spot.size);
    }
    DumpHead {
        count: table.count(),
        volumes,
    }
}

/// Adds an object's bytes to the volume of its class.
pub fn add_size<const C: usize>(volumes: &mut Row<C>, size: u64)
    requires fits { C ≤ 32 }
    requires wide { SIZE_MAX < 2 ^ C }
    requires small { size ≤ SIZE_MAX }
    ensures { (sizes : List ℕ) → length sizes < 65536 → AreSizes SIZE_MAX sizes
        → cells_of volumes.old ≡ volumes_of_sizes sizes
        → cells_of volumes.new ≡ volumes_of_sizes (sizes ++ size ∷ []) }
{
    if size > 0 {
        volumes.add(class_of(size), size);
    }
}
