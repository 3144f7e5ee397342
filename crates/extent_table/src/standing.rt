//! A name with where its object stands now.
ghost use Rattle.std.specs.Prelude.{◌≡◌, Some, IsSome};
ghost use Rattle.slot_codec.specs.Names.{IsName};

use crate::Spot;
use slot_codec::Name;
use std::marker::Model;

/// A name, and where its object stands now, if it does. Contracts see it as just that.
///
/// The numbers lie in memory as a record of a file has them, byte by byte and right behind the name:
/// so an entry of a slab takes 88 bytes and not 96, lies in fewer lines of a cache, and a record is
/// written by copying what is there.
#[derive(Drop)]
pub(crate) struct Standing {
    name: Name,
    place: [u8; 8],
    size: [u8; 8],
    is_here: bool,
}

impl Model for Standing {
    ghost use Rattle.extent_table.specs.Entries.{Standing as Stands, standing_code};

    ghost Value = { Stands };

    ghost coded = { standing_code };

    ghost use Rattle.extent_table.specs.Spelled.{standing_in};

    ghost view = { standing_in };
}

impl Standing {
    /// A name whose object stands at a spot.
    pub(crate) fn new(name: &Name, spot: Spot) -> Standing
        ensures value { result ≡ record { name = name.now; now = Some spot } }
        ensures named { IsName name.now }
    {
        Standing {
            name: name.copied(),
            place: spot.place.to_le_bytes(),
            size: spot.size.to_le_bytes(),
            is_here: true,
        }
    }

    /// Another one that is the same.
    pub(crate) fn copied(&self) -> Standing
        ensures { result ≡ self.now }
    {
        Standing {
            name: self.name.copied(),
            place: self.place,
            size: self.size,
            is_here: self.is_here,
        }
    }

    /// The name.
    pub(crate) fn name(&self) -> &Name
        ensures { result.now ≡ self.now.name }
    {
        &self.name
    }

    /// Where its object stands, if it does.
    pub(crate) fn now(&self) -> Option<Spot>
        ensures { result ≡ self.now.now }
    {
        if self.is_here {
            Some(self.spot())
        } else {
            None
        }
    }

    /// Where its object stands, of which it is known that it does: nothing is tested.
    pub(crate) fn spot(&self) -> Spot
        requires { IsSome self.now.now }
        ensures { self.now.now ≡ Some result }
    {
        Spot {
            place: u64::from_le_bytes(self.place),
            size: u64::from_le_bytes(self.size),
        }
    }

    /// Writes where its object stands from now on, or that it doesn't.
    pub(crate) fn write(&mut self, now: Option<Spot>)
        ensures { self.new ≡ record self.old { now = now } }
    {
        self.is_here = now.is_some();
        if let Some(spot) = now {
            self.place = spot.place.to_le_bytes();
            self.size = spot.size.to_le_bytes();
        }
    }
}
