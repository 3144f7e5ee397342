//! Laws of what a load leaves, as contracts of functions that do nothing.
ghost use Rattle.std.specs.Prelude.{◌≡◌, ◌⊎◌, ◌<◌, ℕ, List, Result, Err, length};
ghost use Rattle.map_model.specs.Maps.{Map};
ghost use Rattle.segment_layout.specs.Books.{Book};
ghost use Rattle.load_stream.specs.Saved.{OpensFor};
ghost use Rattle.command_face.specs.declared.stop.StopReason.{StopReason};
ghost use Rattle.command_face.specs.declared.stop.StopReason.TheVariants as stop;
ghost use Rattle.load_command.specs.Ends.{IsBegunAt};

/// A file that a load left and that opens has bytes, also where it was refused at an object and opens to the
/// empty map. So a second load tells that the file is taken, unless the disk fails.
pub fn a_second_load_is_taken()
    ensures bytes { (k names : ℕ) (file : List ℕ) (m : Map) (b : Book) → OpensFor k names file m b
        → 0 < length file }
    ensures taken { (size : ℕ) (end : Result Unit StopReason) → 0 < size → IsBegunAt size end
        → (end ≡ Err (stop.Taken size)) ⊎ (end ≡ Err stop.Disk) }
{}
