//! Lists of records with what changed in them since the last checkpoint, which an entry is written from.
use crate::Roll;

/// What became of a name since the last checkpoint.
#[derive(Clone, Copy, Debug, PartialEq, Eq)]
pub enum ChangeKind {
    /// It has what it had.
    Same,
    /// Its object stands elsewhere, and is the same.
    Moved,
    /// It is gone.
    Gone,
    /// It is new, or has another object.
    Put,
}

/// A list of records, their names rising, with what changed in it since the last checkpoint.
pub trait Delta: Roll {
    ghost use Rattle.std.specs.Prelude.{◌≡◌, ℕ, ◌<◌, List, length, Some, option_map, slice_get};
    ghost use Rattle.slot_codec.specs.{declared.codec.Record.{Record}, Changes.{AreFew, Change, change_bytes, change_len, gone_of, kind_of_change, moves_of, puts_of}, Rows.{AreChanges, changed_rows, rows_of}};

    /// The records at the last checkpoint.
    ghost before: { Self → List Record };

    /// What changed since. Each name is in it once at most.
    ghost changes: { Self → List Change };

    /// How many changes there are, those counted that came to nothing.
    fn changes(&self) -> u64
        ensures { result ≡ length (changes self.now) };

    /// What kind of change change `n` is, counted from 0.
    fn change_kind(&self, n: u64) -> ChangeKind
        requires { n < length (changes self.now) }
        ensures { option_map kind_of_change (slice_get (changes self.now) n) ≡ Some result };

    /// Writes change `n`, counted from 0: 16, 64 or 112 bytes, or none, by its kind.
    fn write_change(&self, n: u64, out: &mut [u8])
        requires within { n < length (changes self.now) }
        requires len { option_map (λ c. change_len (kind_of_change c)) (slice_get (changes self.now) n)
            ≡ Some (length out.old) }
        ensures { option_map change_bytes (slice_get (changes self.now) n) ≡ Some out.new };

    /// They are what an entry can say of the records before.
    ghost fitting: { (delta : Self) → AreChanges (rows_of (before delta)) (moves_of (changes delta))
        (gone_of (changes delta)) (puts_of (changes delta)) };

    /// They are no more than an entry can have.
    ghost few: { (delta : Self) → AreFew (before delta) (Self.records delta) (changes delta) };

    /// With them the records before are those of now.
    ghost applied: { (delta : Self) → changed_rows (rows_of (before delta)) (moves_of (changes delta))
        (gone_of (changes delta)) (puts_of (changes delta)) ≡ rows_of (Self.records delta) };
}
