//! What follows of the calls that a store over a file in memory has noted.
ghost use Rattle.std.specs.Prelude.{◌≡◌, ◌⊎◌, ◌<◌, ◌-◌, ◌^◌, ℕ, List, false, length, Ok, Result, None, Some, IsSome, IsNone, IsTrue};
ghost use Rattle.lent_disk.specs.{Disks.{lent_state}, Notings.{lent}};
ghost use Rattle.size_class.specs.declared.TheConstants.{CLASSES, SIZE_MAX};
ghost use Rattle.slot_codec.specs.Choice.{SlotTable};
ghost use Rattle.map_model.specs.{Maps.{Map}, Requests.{Change}};
ghost use Rattle.map_model.specs.Requests as ask;
ghost use Rattle.segment_layout.specs.Books.{Book};
ghost use Rattle.table_rules.specs.Opening.{OpensBy};
ghost use Rattle.store_model.specs.{declared.answers.Begun.{Begun}, declared.answers.Done.{Done}, declared.answers.Progress.{Progress}, declared.answers.Refusal.{Refusal}, Answers.{refused_by}, Begins.{BeginsChange}, Changes.{NothingChanged}, Changing.{IsChange}, Keeps.{KeepsNow, OpensToKeptOrNow}, Steps.{IsStep}};
ghost use Rattle.store_model.specs.{Connection.{FlushInHand}, Halves.{HalfAgrees, IsHalfImage, Origin}, Opened.{IsFoundImage, IsOpening, LeavesRoom}};
ghost use Rattle.lent_store.specs.{Embedded.{Embedded, disk_before, disk_of, file_in}, Noted.{IsChangeImage, IsNoted, IsNotedOf, RestsOnKept, StopsAt, StopsFrom}, Upgraded.{IsUpgradeImage, IsUpgraded}};

/// Where the calls that a put or a removal noted are made in order on its file and that stops, before, within
/// or after one of them, a crash leaves what it might have left before the call, or what opens to the last
/// checkpoint or to what stands after.
pub fn a_stopped_change_opens()
    ensures { (c : Change) (old new : Embedded) (result : Result Done Refusal)
        → IsChange CLASSES c old.store new.store (disk_before old) (disk_of new) result → IsNoted old new
        → RestsOnKept old → old.noting.history.turn < 2 ^ 64 - 1 → StopsAt old new (IsChangeImage c old) }
{}

/// The same of a keep.
pub fn a_stopped_keep_opens()
    ensures { (old new : Embedded) (result : Result Done Refusal)
        → (IsSome (refused_by old.store ask.keep)
        → NothingChanged old.store new.store (disk_before old) (disk_of new))
        → (IsNone (refused_by old.store ask.keep)
        → KeepsNow CLASSES old.store new.store (disk_before old) (disk_of new) result) → IsNoted old new
        → RestsOnKept old → old.noting.history.turn < 2 ^ 64 - 1
        → StopsAt old new (OpensToKeptOrNow CLASSES old.store (file_in old)) }
{}

/// The same of an upgrade: a crash leaves what opens to the last checkpoint, or to what stands with digests.
pub fn a_stopped_upgrade_opens()
    ensures { (old new : Embedded) (result : Result Done Refusal) → IsUpgraded old new result
        → IsNoted old new → RestsOnKept old → old.noting.history.turn < 2 ^ 64 - 1
        → StopsAt old new (IsUpgradeImage old) }
{}

/// The same of a flush one move at a time: of what begins it, and of each step where the disk rested as it
/// began.
pub fn a_stopped_flush_opens()
    ensures begin { (c : Change) (old new : Embedded) (result : Result Begun Refusal)
        → BeginsChange CLASSES c old.store new.store (disk_before old) (disk_of new) result
        → IsNoted old new → RestsOnKept old → old.noting.history.turn < 2 ^ 64 - 1
        → StopsAt old new (IsChangeImage c old) }
    ensures step { (h : FlushInHand) (o : Origin) (old new : Embedded) (result : Result Progress Refusal)
        → IsStep CLASSES old.store new.store (disk_before old) (disk_of new) result → IsNoted old new
        → old.store.in_hand ≡ Some h → HalfAgrees CLASSES old.store h o (disk_of old)
        → IsTrue o.is_at_rest → old.noting.history.turn < 2 ^ 64 - 1
        → StopsAt old new (IsHalfImage CLASSES old.store h o) }
{}

/// Where the calls that an opening noted are made in order on the file that was lent and that stops, a crash
/// leaves that file, or what opens to what it opens to.
pub fn a_stopped_opening_opens()
    ensures { (file : List ℕ) (room log_room : ℕ) (s : Embedded) (t : SlotTable) (m : Map) (b : Book)
        → IsOpening CLASSES (lent_state (lent file room log_room)) (disk_of s) (Ok s.store)
        → IsNotedOf file s → OpensBy CLASSES SIZE_MAX t file m b → LeavesRoom t
        → StopsFrom file (λ image. (image ≡ file) ⊎ IsFoundImage CLASSES t m b (length file) image) s }
{}

/// A store that was opened of a file at rest rests on its checkpoint.
pub fn an_opened_store_rests()
    ensures { (file : List ℕ) (room log_room : ℕ) (s : Embedded)
        → IsOpening CLASSES (lent_state (lent file room log_room)) (disk_of s) (Ok s.store) → RestsOnKept s }
{}

/// It rests on it after each put, removal, keep and upgrade by which it isn't broken, and after each begin of which no
/// flush is in hand.
pub fn a_store_goes_on_to_rest()
    ensures change { (c : Change) (old new : Embedded) (result : Result Done Refusal)
        → IsChange CLASSES c old.store new.store (disk_before old) (disk_of new) result
        → new.store.is_broken ≡ false → RestsOnKept old → RestsOnKept new }
    ensures begin { (c : Change) (old new : Embedded) (result : Result Begun Refusal)
        → BeginsChange CLASSES c old.store new.store (disk_before old) (disk_of new) result
        → new.store.is_broken ≡ false → new.store.in_hand ≡ None → RestsOnKept old → RestsOnKept new }
    ensures keep { (old new : Embedded) (result : Result Done Refusal)
        → (IsSome (refused_by old.store ask.keep)
        → NothingChanged old.store new.store (disk_before old) (disk_of new))
        → (IsNone (refused_by old.store ask.keep)
        → KeepsNow CLASSES old.store new.store (disk_before old) (disk_of new) result)
        → new.store.is_broken ≡ false → RestsOnKept old → RestsOnKept new }
    ensures upgrade { (old new : Embedded) (result : Result Done Refusal) → IsUpgraded old new result
        → new.store.is_broken ≡ false → RestsOnKept old → RestsOnKept new }
{}
