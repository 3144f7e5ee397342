//! Laws of the files that these commands make and tell of.
ghost use Rattle.std.specs.Prelude.{◌≡◌, ◌≤◌, List, ℕ, codes, length};
ghost use Rattle.std.specs.FinMap as fin;
ghost use Rattle.slot_codec.specs.Choice as choice;
ghost use Rattle.slot_pair.specs.Formats.{HasFirstTable, IsNoStore, first_table};
ghost use Rattle.segment_layout.specs.Books.{Book, empty_book};
ghost use Rattle.map_model.specs.Maps.{Map, volume};
ghost use Rattle.table_rules.specs.{Opening.{Opens, OpensBy, ReadsBy}, Tables.{size_sum}};
ghost use Rattle.dump_stream.specs.Dumps.{IsDumpOf, dump_text};
ghost use Rattle.file_commands.specs.{Texts.{check_text, map_text}, Worked.{hello, moved_up}};

use size_class::{CLASSES, SIZE_MAX};

/// The table by which a file opens has a record for each name of the map for which the file stands,
/// and their sizes together are the map's bytes. So has the table to which a file is read by its mark, whose
/// slots may have logs. So `check` tells how many names and bytes there are.
pub fn told_of_the_map()
    ensures names { (t : choice.SlotTable) (file : List ℕ) (m : Map) (b : Book)
        → OpensBy CLASSES SIZE_MAX t file m b → length t.records ≡ fin.len m }
    ensures bytes { (t : choice.SlotTable) (file : List ℕ) (m : Map) (b : Book)
        → OpensBy CLASSES SIZE_MAX t file m b → size_sum t.records ≡ volume m }
    ensures names_read { (t : choice.SlotTable) (file : List ℕ) (m : Map) (b : Book)
        → ReadsBy CLASSES SIZE_MAX t file m b → length t.records ≡ fin.len m }
    ensures bytes_read { (t : choice.SlotTable) (file : List ℕ) (m : Map) (b : Book)
        → ReadsBy CLASSES SIZE_MAX t file m b → size_sum t.records ≡ volume m }
{}

/// The map of a file that opens has a dump, and no more names than the file has room for.
pub fn a_map_of_a_file_has_a_dump()
    ensures dump { (file : List ℕ) (m : Map) (b : Book) → Opens CLASSES SIZE_MAX file m b
        → IsDumpOf CLASSES SIZE_MAX m (dump_text CLASSES m) }
    ensures few { (t : choice.SlotTable) (file : List ℕ) (m : Map) (b : Book)
        → OpensBy CLASSES SIZE_MAX t file m b → fin.len m ≤ t.chosen.block.names }
{}

/// A file with the table that a store is made with opens by it to the empty map and the empty book, and a
/// file that is no store opens to nothing.
pub fn a_formatted_file_is_the_empty_store()
    ensures opens { (k names : ℕ) (file : List ℕ) → HasFirstTable k names file
        → OpensBy CLASSES SIZE_MAX (first_table k names) file fin.empty empty_book }
    ensures none { (file : List ℕ) (m : Map) (b : Book) → IsNoStore file → Opens CLASSES SIZE_MAX file m b
        → ⊥ }
{}

/// What `check` and `map` put of two small files with k = 9: one at rest, and one of 19,857 bytes in
/// the middle of a flush.
pub fn worked_texts()
    ensures check_still { check_text hello 19608 ≡ codes "store 9 16 1 5 5 1 still\n" }
    ensures map_still { map_text hello ≡ codes "class 2 5 0 0\nobject a 0 5\n" }
    ensures check_moving { check_text moved_up 19857 ≡ codes "store 9 16 3 115 254 3 moving\n" }
    ensures map_moving { map_text moved_up ≡ codes
        "moving 2 239 112\nobject a 139 100\nobject b 239 10\nobject c 249 5\n" }
{}
