//! Where the objects of an opened file stand.
ghost use Rattle.std.specs.Prelude.{◌≡◌, ℕ, List, IfSome};
ghost use Rattle.plain_layout.specs.{Plain.{placed}, Objects.{cut, object_of, spot_in}};
ghost use Rattle.table_rules.specs.Rules.{IsValid};

use crate::Opened;
use slot_codec::{Name, Record};

impl Opened {
    /// The place and size of a name's object, in bytes, with places from 0 of the data part; none
    /// where the map of the file has no such name. An empty object has place 0.
    pub fn spot_of(&self, name: &Name) -> Option<(u64, u64)>
        ensures spot { result ≡ spot_in self.now.table.records.items name.now }
        ensures object { (base : ℕ) (file : List ℕ)
            → cut base file result ≡ object_of base file self.now.table.records.items name.now }
        ensures empty { IsValid (placed self.now.table) → IfSome result (λ spot. spot.1 ≡ 0 → spot.0 ≡ 0) }
    {
        spot_in(&self.table.records, name)
    }
}

/// The place and size that the first record of a name has.
fn spot_in(records: &[Record], name: &Name) -> Option<(u64, u64)>
    ensures { result ≡ spot_in records.now name.now }
{
    if records.is_empty() {
        return None;
    }
    let first = &records[0];
    if name.cmp(&first.name).is_eq() {
        return Some((first.place, first.size));
    }
    spot_in(&records[1..], name)
}
