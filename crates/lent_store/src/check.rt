//! Whether a file in memory keeps the rules of the format.
ghost use Rattle.std.specs.Prelude.{IfErr, OnOk};
ghost use Rattle.lent_store.specs.Sound.{IsSoundFile, RefusesFile};

use crate::LentStore;
use lent_disk::{FileView, Room};
use reopen::{OpenFault, load_state};
use size_class::CLASSES;
use std::alloc::Global;

/// Whether a file keeps the rules of the format; else the first that it breaks, and where. Memory is taken
/// for the table of the file, and given back. It never answers that the disk failed.
pub fn check_file(alloc: Global, file: &Room) -> Result<(), OpenFault>
    ensures sound { OnOk result (IsSoundFile file.now.file) }
    ensures refused { IfErr result (RefusesFile file.now.file) }
{
    let mut view = FileView::of(file);
    match load_state::<FileView, CLASSES>(alloc, &mut view) {
        Ok(_) => Ok(()),
        Err(fault) => Err(fault),
    }
}

impl LentStore {
    ghost use Rattle.lent_store.specs.Embedded.{file_in};

    /// The same of the file of a store, also while a flush is in hand, and of one that is broken.
    pub fn check(&self, alloc: Global) -> Result<(), OpenFault>
        ensures sound { OnOk result (IsSoundFile (file_in self.now)) }
        ensures refused { IfErr result (RefusesFile (file_in self.now)) }
    {
        check_file(alloc, self.disk.room())
    }
}
