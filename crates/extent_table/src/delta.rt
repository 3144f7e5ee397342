//! What changed since the last checkpoint, which an entry of a log is written from.
//!
//! First each name that was kept is looked at, by rank, whether its object moved or it is gone; then each
//! live name, whether its record is put. So no list of changes is made, and in a large table most of them
//! come to nothing.
ghost use Rattle.std.specs.Prelude.{◌≡◌, zero, ◌<◌, Some, length, slice_get};
ghost use Rattle.std.specs.FinMap as fin;
ghost use Rattle.slot_codec.specs.Rows.{rows_of};
ghost use Rattle.extent_table.specs.{Extents.{IsTable, rolled}, Deltas.{changes_of, kept_changes, new_changes, now_rolled}, Told.{is_kept_at, is_moved_at, is_same_at, told}};

use crate::digests::digest_there;
use crate::entry::{kept_at, name_at, now_at, spot_at};
use crate::{Spot, Table};
use slot_codec::{ChangeKind, Delta, Name, Record, Roll, write_name, write_pair, write_record};

/// What became of a name, with what an entry says of it.
#[derive(Drop)]
enum Told {
    /// Nothing is told.
    Same,
    /// Its object has this rank by name among those that were kept, and stands at this place.
    Moved(u64, u64),
    /// It is gone.
    Gone(Name),
    /// This is its record.
    Put(Record),
}

/// Whether the object of a key is the one that was kept: it has the same size and the same digest.
fn is_same_at(
    key: u32,
    was: Spot,
    is: Spot,
    kept_digests: &[[u8; 32]],
    digests: &[[u8; 32]],
) -> bool
    ensures { result ≡ is_same_at key was is kept_digests.now digests.now }
{
    was.size == is.size && digest_there(kept_digests, key) == digest_there(digests, key)
}

/// Whether it is the one that was kept, and stood elsewhere.
fn is_moved_at(
    key: u32,
    was: Spot,
    is: Spot,
    kept_digests: &[[u8; 32]],
    digests: &[[u8; 32]],
) -> bool
    ensures { result ≡ is_moved_at key was is kept_digests.now digests.now }
{
    was.place != is.place && is_same_at(key, was, is, kept_digests, digests)
}

/// Whether it is the one that was kept, if any was.
fn is_kept_at(
    key: u32,
    was: Option<Spot>,
    is: Spot,
    kept_digests: &[[u8; 32]],
    digests: &[[u8; 32]],
) -> bool
    ensures { result ≡ is_kept_at key was is kept_digests.now digests.now }
{
    match was {
        Some(was) => is_same_at(key, was, is, kept_digests, digests),
        None => false,
    }
}

impl Table {
    /// What became of the kept name of a rank: its object moved, it is gone, or neither.
    fn kept_change(&self, rank: u64) -> Told
        requires { rank < fin.len self.now.kept }
        ensures { slice_get (kept_changes (rows_of (now_rolled self.now)) zero
            (rolled self.now.kept self.now.kept_digests)) rank ≡ Some (told result) }
    {
        let key = self.kept_order[rank as usize];
        let was = kept_at(&self.entries, key).unwrap();
        match now_at(&self.entries, key) {
            None => Told::Gone(name_at(&self.entries, key).copied()),
            Some(is) => {
                if is_moved_at(key, was, is, &self.kept_digests, &self.digests) {
                    Told::Moved(rank, is.place)
                } else {
                    Told::Same
                }
            }
        }
    }

    /// What is told of the live name of a rank: its record is put, or nothing.
    fn new_change(&self, rank: u64) -> Told
        requires { rank < fin.len self.now.now }
        ensures { slice_get (new_changes (rows_of (rolled self.now.kept self.now.kept_digests))
            (now_rolled self.now)) rank ≡ Some (told result) }
    {
        let key = self.order[rank as usize];
        let was = kept_at(&self.entries, key);
        let is = spot_at(&self.entries, key);
        if is_kept_at(key, was, is, &self.kept_digests, &self.digests) {
            Told::Same
        } else {
            Told::Put(self.nth(rank))
        }
    }

    /// Change `n`, counted from 0.
    fn change(&self, n: u64) -> Told
        requires { n < length (changes_of self.now) }
        ensures { slice_get (changes_of self.now) n ≡ Some (told result) }
    {
        let kept = self.kept_order.len() as u64;
        if n < kept {
            self.kept_change(n)
        } else {
            self.new_change(n - kept)
        }
    }
}

impl Delta for Table {
    ghost use Rattle.extent_table.specs.{Deltas.{changes_of, kept_rolled}, Fitting.{changes_of-applied, changes_of-few, changes_of-fitting}};

    ghost before = { kept_rolled };

    ghost changes = { changes_of };

    fn changes(&self) -> u64 {
        self.kept_count() + Table::count(self)
    }

    fn change_kind(&self, n: u64) -> ChangeKind {
        match self.change(n) {
            Told::Same => ChangeKind::Same,
            Told::Moved(_, _) => ChangeKind::Moved,
            Told::Gone(_) => ChangeKind::Gone,
            Told::Put(_) => ChangeKind::Put,
        }
    }

    fn write_change(&self, n: u64, out: &mut [u8]) {
        match self.change(n) {
            Told::Same => {}
            Told::Moved(rank, place) => write_pair((rank, place), out),
            Told::Gone(name) => write_name(&name, out),
            Told::Put(record) => write_record(&record, 2, out),
        }
    }

    ghost fitting = { changes_of-fitting };

    ghost few = { changes_of-few };

    ghost applied = { changes_of-applied };
}
