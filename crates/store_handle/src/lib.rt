//! A store with its file, as a program in C holds it: a pointer.
#![tactic(auto)]

ghost use Rattle.std.specs.Prelude.{◌≡◌};
ghost use Rattle.std.specs.Box.Ownership.{box_owns};
ghost use Rattle.std.specs.contracts.impls.GlobalAllocator.TheImpl.{ghosts};
ghost use Rattle.store_handle.specs.declared.Held.{Held};
ghost use Rattle.store_handle.specs.contracts.Held.{the_row as held};

mod erased;

pub use erased::{Erased, Opaque};
use lent_disk::{Log, Room};
use lent_store::LentStore;
use std::alloc::Global;
use std::marker::{Model, Send};

/// How far a handle has come.
#[derive(Drop)]
pub enum Stage {
    /// It has no file.
    Closed,
    /// It has a file and the memory of a log, and no store yet.
    Lent(Room, Log),
    /// It has an open store.
    Open(LentStore),
}

/// What a handle holds.
#[derive(Drop)]
pub struct Held {
    pub stage: Stage,
}

/// A store, as a program in C holds it: the pointer to a block, and the right to what is there.
#[repr(C)]
pub struct Handle {
    ptr: *mut u8,
    alloc: Global,
    ghost value: { Held } by { held.coded },
}

impl Model for Handle {
    ghost also_owns = { λ h. box_owns (ghosts.dealloc_token h.alloc) held h.ptr h.value };
}

// What it holds may go to another thread, and so may it.
unsafe impl Send for Handle {}

impl Handle {
    ghost use Rattle.std.specs.Borrow.{sem};
    ghost use Rattle.store_handle.specs.Lending.{LendsHeld, with_value};

    /// Takes the pointer.
    pub fn of(e: Erased<Held, Global>) -> Handle
        ensures { result.value ≡ e.entry.value }
    {
        let Erased { ptr, alloc } = e;
        Handle {
            ptr: ptr as *mut u8,
            alloc,
        }
    }

    /// Gives it back.
    pub fn into_erased(self) -> Erased<Held, Global>
        ensures { result.value ≡ self.value }
    {
        let Handle { ptr, alloc } = self;
        Erased {
            ptr: ptr as *mut Opaque<Held>,
            alloc,
        }
    }

    /// The pointer alone, for a caller in C: it owns what the handle owned.
    pub fn into_ptr(self) -> *mut u8
        ensures { result ≡ self.ptr }
    {
        let Handle { ptr, alloc: _ } = self;
        ptr
    }

    /// What it holds, lent.
    pub fn held(&mut self) -> &mut Held
        ensures* writes_back { sem 𝓛 (LendsHeld self.entry result) }
        ensures value { result.now ≡ self.old.value }
        ensures unchanged { with_value self.old result.now ≡ self.old }
    {
        unsafe { &mut *(self.ptr as *mut Held) }
    }
}
