//! A space with its map.

ghost use Rattle.std.specs.Prelude.{◌≡◌, IfOk};

use crate::locking::Locking;
use crate::name::Text;
use std::alloc::{AllocError, Global};
use std::marker::Model;

/// A space of cells: its name, how many cells it has, its map, by which runs of `unit` cells go
/// to the affinities of `to` in turn, and whether its cells have locks.
#[derive(Drop)]
pub(crate) struct Space {
    pub(crate) name: Text,
    pub(crate) size: u32,
    pub(crate) unit: u32,
    pub(crate) to: Vec<u16>,
    pub(crate) locks: Locking,
}

impl Model for Space {
    ghost use Rattle.waff_model.specs.Layout.{Space as Mapped};

    ghost Value = { Mapped };

    ghost view = { λ s. record {
      name = s.name;
      size = s.size;
      unit = s.unit;
      to = s.to.items;
      locks = s.locks;
    } };
}

impl Space {
    /// The name.
    pub(crate) fn name(&self) -> &str
        ensures { result.now ≡ self.now.name }
    {
        self.name.as_str()
    }

    /// How many cells there are.
    pub(crate) fn size(&self) -> u32
        ensures { result ≡ self.now.size }
    {
        self.size
    }

    /// How many cells are a run.
    pub(crate) fn unit(&self) -> u32
        ensures { result ≡ self.now.unit }
    {
        self.unit
    }

    /// The numbers of the affinities to which runs go in turn.
    pub(crate) fn to(&self) -> &[u16]
        ensures { result.now ≡ self.now.to }
    {
        &self.to
    }

    /// Whether the cells have locks.
    pub(crate) fn locks(&self) -> Locking
        ensures { result ≡ self.now.locks }
    {
        self.locks
    }

    /// A copy with these locks.
    pub(crate) fn with_locks(&self, alloc: Global, locks: Locking) -> Result<Space, AllocError>
        ensures { IfOk result (λ space. space ≡ record self.now { locks = locks }) }
    {
        let name = Text::of(alloc, self.name())?;
        let to = self.to.clone()?;
        Ok(Space {
            name,
            size: self.size,
            unit: self.unit,
            to,
            locks,
        })
    }
}
