//! The superblock, the headers and the records of a store's file, as bytes and as values.
#![tactic(auto)]

mod cells;
mod codec;
mod delta;
mod entry;
mod fields;
mod header;
mod laws;
mod lengths;
mod name;
mod put;
mod read;
mod roll;
mod write;

pub use cells::HEADER_CELLS;
pub use codec::{CodecFault, Header, Kind, NoMemory, Record, SuperBlock};
pub use delta::{ChangeKind, Delta};
pub use entry::{
    EntryHead, read_cell, read_entry_head, read_move, up, write_entry_head, write_pair,
};
pub use fields::number_at;
pub use header::{header_in, read_header};
pub use laws::{
    a_closed_gate_ends_the_log, a_closed_slot_may_hold_anything, a_header_has_one_spelling,
    a_log_is_read_up_to_a_closed_gate, a_log_rests_on_its_bytes_up_to_its_end,
    a_newer_slot_takes_over, a_record_has_one_spelling, a_superblock_has_one_spelling,
    a_table_has_one_spelling, a_table_is_kept_beside_a_changed_slot,
    an_appended_entry_is_read_or_not, an_entry_has_one_spelling, an_entry_head_has_one_spelling,
    an_entry_is_there_or_not, an_entry_rests_on_its_own_bytes, an_older_slot_may_stay_open,
    cells_give_a_header_back, entries_share_no_sector, gates_and_heads_tell_the_end_of_a_log,
    names_of_a_logged_table_rise, names_of_a_table_rise, records_fit_a_slot,
    rows_by_name_are_the_records, the_mark_says_whether_slots_have_logs,
    the_slot_lies_below_the_data, too_short_for_a_table, what_stands_behind_a_log_is_not_read,
};
pub use lengths::{
    DIGEST_LEN, ENTRY_HEAD_LEN, GATE_OPEN, HEADER_LEN, NAME_LEN, PAIR_LEN, RECORD_LEN, SECTOR_LEN,
    SUPERBLOCK_LEN, cap, has_digests, head_len, record_len, slot_len,
};
pub use name::Name;
pub use read::{
    is_logged, read_name, read_record, read_record_after, read_superblock, superblock_in,
};
pub use roll::Roll;
pub use write::{
    write_digest, write_header, write_name, write_plain, write_record, write_superblock,
};
