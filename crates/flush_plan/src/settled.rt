//! What a flush leaves: each object at its new place.
ghost use Rattle.std.specs.Prelude.{◌≡◌};
ghost use Rattle.size_class.specs.Rows.{cells_of};

use flush_model::Numbers;
use size_class::Row;
use std::marker::Model;

/// The end of a flush's moves.
#[derive(Drop)]
pub struct Settled<const C: usize> {
    pub(crate) k: u64,
    pub(crate) caps: Row<C>,
    pub(crate) numbers: Numbers,
    pub(crate) pending: u64,
    pub(crate) volumes: Row<C>,
}

impl<const C: usize> Model for Settled<C> {
    ghost use Rattle.size_class.specs.Rows.{cells_of};
    ghost use Rattle.flush_plan.specs.{Shelves.{course_of}, Lays.{End}};

    ghost Value = { End };

    ghost view = { λ p. record {
      course = course_of p.k (cells_of p.caps) p.numbers p.pending;
      volumes = cells_of p.volumes;
    } };
}

impl<const C: usize> Settled<C> {
    /// The bytes of each class; no object is of a class below the boundary.
    pub fn volumes(&self) -> Row<C>
        ensures { cells_of result ≡ self.now.volumes }
    {
        self.volumes
    }

    /// The numbers that the flush began with.
    pub fn numbers(&self) -> Numbers
        ensures { result ≡ self.now.course.numbers }
    {
        self.numbers
    }
}
