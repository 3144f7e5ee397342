//! Laws of the log of a slot: what an append leaves of it, and what an entry says.
ghost use Rattle.std.specs.Prelude.{◌≡◌, ℕ, ◌+◌, ◌≤◌, List, length};
ghost use Rattle.byte_ranges.specs.Ranges.{SameOutside};
ghost use Rattle.slot_codec.specs.{Changes.{Change}, Entries.{Entry, entry_room}, Logs.{IsEntry, Logged, after_entry}, Readable.{IsFull}, Rolls.{IsRoll}, Rows.{rows_of}, declared.codec.Header.{Header}, declared.codec.Record.{Record}};
ghost use Rattle.slot_pair.specs.{Appends.{AppendLeaves, IsAppended, entry_for}, Logged.{CanAppend, CanSay, HasLog, LeadsTo, Log, LogLeaves, logged_header, with_entry}};

use disk_face::Disk;
use slot_codec::Delta;

/// An append leaves the log as it was, or with the entry: in what reads give, and in each image. Once it is
/// done, what reads give has the log with the entry.
pub fn an_append_leaves_the_log_or_one_entry_more<D: Disk>()
    ensures left { (log : Log) (e : Entry) (base : ℕ) (a b : D) → CanAppend log e (D.state a).file
        → log.top ≤ base
        → SameOutside log.end (entry_room e.head + 1) (D.state a).file (D.state b).file
        → AppendLeaves log.end e (D.state a) (D.state b)
        → LogLeaves log e base (D.state a) (D.state b) }
    ensures appended { (log : Log) (e : Entry) (a b : D) → CanAppend log e (D.state a).file
        → SameOutside log.end (entry_room e.head + 1) (D.state a).file (D.state b).file
        → IsAppended log.end e (D.state b) → HasLog (with_entry log e) (D.state b).file }
{}

/// The changes of a delta lead from the records before to those of now.
pub fn a_delta_leads_to_its_records<T: Delta>()
    ensures { (delta : T) → LeadsTo (T.before delta) (T.records delta) (T.changes delta) }
{}

/// Behind a table of some records, the entry for a header and changes that lead to other records is one that
/// is read, and the table behind it has that header and those records.
pub fn an_entry_says_what_changed()
    ensures entry { (cap room : ℕ) (y : Logged) (h : Header) (before now : List Record)
        (changes : List Change)
        → y.rows ≡ rows_of before → IsRoll before → IsRoll now → LeadsTo before now changes
        → length now ≤ cap → CanSay room y h changes → IsEntry cap room y (entry_for h changes) }
    ensures table { (y : Logged) (h : Header) (before now : List Record) (changes : List Change)
        → y.rows ≡ rows_of before → IsRoll now → LeadsTo before now changes → IsFull h
        → after_entry y (entry_for h changes)
        ≡ record { header = logged_header y.header h (length now); rows = rows_of now } }
{}
