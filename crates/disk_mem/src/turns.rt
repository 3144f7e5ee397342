//! Where in the record a turn ends, and where its last sync stands.
ghost use Rattle.std.specs.Prelude.{◌≡◌, ◌≤◌, length, take, drop, None, option_map, slice_get};
ghost use Rattle.disk_mem.specs.{Entries.{change_of, stamp_of, newest_first}, Tearing.{is_sync, up_to_sync, since_sync}, Turns.{at_turn}};

use crate::record::{Call, Entry};

/// How many of the recorded calls had ended by the turn.
pub fn ended_by(entries: &[Entry], turn: u64) -> usize
    ensures within { result ≤ length entries.now }
    ensures turn { at_turn turn None (newest_first entries.now)
        ≡ (option_map stamp_of (slice_get entries.now result), newest_first (take result entries.now)) }
{
    let mut count = entries.len();
    'later: while count > 0 {
        let entry = &entries[count - 1];
        if entry.began.saturating_add(1) <= turn {
            return count;
        }
        count -= 1;
    }
    count
}

fn is_sync(call: &Call) -> bool
    ensures { result ≡ is_sync (change_of call.now) }
{
    match call {
        Call::Sync => true,
        _ => false,
    }
}

/// How many of these calls lead up to the last sync.
pub fn synced_by(entries: &[Entry]) -> usize
    ensures within { result ≤ length entries.now }
    ensures up_to { newest_first (take result entries.now) ≡ up_to_sync (newest_first entries.now) }
    ensures since { newest_first (drop result entries.now) ≡ since_sync (newest_first entries.now) }
{
    let mut synced = 0;
    'calls: for (i, entry) in entries.iter().enumerate() {
        if is_sync(&entry.call) {
            synced = i + 1;
        }
    }
    synced
}
