//! Laws of the pair of a file whose slots have logs, and of its table.
ghost use Rattle.std.specs.Prelude.{◌≡◌, ℕ, ◌%◌, ◌<◌, ◌≤◌, List, length, true, Ok};
ghost use Rattle.std.specs.FinMap as fin;
ghost use Rattle.slot_codec.specs.{Choice.{Chosen, InUse, SlotTable, chosen_in, slot_in, table_with}, Logs.{Logged, first_gate, log_top, read_log, table_in}, Readable.{AreInRange}, Rolls.{IsRoll}, Rows.{rows_of}, Spelling.{cap}, declared.codec.Record.{Record}, declared.entry.EntryHead.{EntryHead}};
ghost use Rattle.slot_pair.specs.Saves.{save_calls};
ghost use Rattle.logged_pair.specs.{Pairs.{InLog, LoggedTable, in_log, logged_in, top_of}, Saves.{change_calls}};

/// Where a log was read, it tells the pair of the file: its sequence is that of the table behind the log, and
/// the next entry would stand at the end of the log.
pub fn a_log_that_is_read_tells_the_pair()
    ensures { (file : List ℕ) (u : InUse) (c : Chosen) (x y : Logged) (end : ℕ)
        → slot_in true file ≡ Ok u → chosen_in true file ≡ Ok c → x.header.sequence ≡ c.header.sequence
        → first_gate c.block.names c.slot c.header.count < log_top c.block.names c.slot
        → read_log (cap c.block.names 3) (log_top c.block.names c.slot) file
        (first_gate c.block.names c.slot c.header.count) x ≡ Ok (y, end)
        → in_log file ≡ Ok (record { in_use = record u { sequence = y.header.sequence }; end = end }) }
{}

/// The table of a file is that of the records that are read behind its log.
pub fn the_table_is_that_of_the_file()
    ensures table { (file : List ℕ) (t : LoggedTable) → logged_in file ≡ Ok t
        → table_in true file ≡ Ok (table_with t.chosen (fin.values t.rows)) }
    ensures records { (file : List ℕ) (t : LoggedTable) (rs : List Record) → IsRoll rs → AreInRange rs
        → t.rows ≡ rows_of rs → logged_in file ≡ Ok t
        → table_in true file ≡ Ok (table_with t.chosen rs) }
{}

/// The next entry of a log would stand at a multiple of 512, below the sector of the slot's gate. So what an
/// append writes shares no sector of 512 bytes with the entries before it, nor with that gate.
pub fn an_entry_has_sectors_of_its_own()
    ensures multiple { (file : List ℕ) (u : InLog) → in_log file ≡ Ok u → u.end % 512 ≡ 0 }
    ensures below { (file : List ℕ) (u : InLog) → in_log file ≡ Ok u → 0 < u.end → u.end < top_of u.in_use }
{}

/// A save of changes makes at most as many changing calls as a save of as many records in a file without logs.
pub fn a_save_of_changes_makes_no_more_calls()
    ensures { (u : InLog) (head : EntryHead) (count : ℕ) → change_calls u head count ≤ save_calls count }
{}
