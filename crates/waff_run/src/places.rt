//! Where cells lie: a file for each place of the list of a space's map, so that the cells of one file have one
//! owner.

ghost use Rattle.std.specs.Prelude.{◌≡◌, ◌+◌, ◌<◌, ◌≤◌, ◌^◌, IfOk, IfSome, length, position};
ghost use Rattle.waff_run.specs.Places.{has_file, place_of, placing_of, rank_in, spot_in, spot_of};

use std::alloc::{AllocError, Global};
use std::marker::Model;
use waff_model::{Cell, Layout};

/// The files of one space.
#[derive(Drop)]
struct SpacePlaces {
    /// How many cells in a row lie in one file.
    unit: u64,
    /// How many files there are.
    count: u64,
    /// The number of the first one among the files of all spaces.
    first: usize,
}

impl Model for SpacePlaces {
    ghost use Rattle.std.specs.Prelude.{◌+◌, ◌<◌, ◌^◌};
    ghost use Rattle.waff_run.specs.Places.{IsStriped, Striped};

    ghost Value = { Striped };

    ghost view = { λ s. record { unit = s.unit; count = s.count; first = s.first } };

    ghost invariant = { λ s. IsStriped (record { unit = s.unit; count = s.count; first = s.first }) };
}

/// The files of all spaces, numbered from 0.
#[derive(Drop)]
pub struct Places {
    spaces: Vec<SpacePlaces>,
    files: usize,
    /// Bytes of a cell.
    bytes: u32,
}

impl Model for Places {
    ghost use Rattle.std.specs.Prelude.{◌<◌, ◌^◌};
    ghost use Rattle.waff_run.specs.Places.{Placing};

    ghost Value = { Placing };

    ghost view = { λ p. record { spaces = p.spaces.items; files = p.files; bytes = p.bytes } };

    ghost invariant = { λ p. p.bytes < 2 ^ 32 };
}

/// Where a cell lies: its file, and the byte at which it begins there.
#[derive(Clone, Copy, PartialEq, Eq, PartialOrd, Ord)]
pub struct Spot {
    pub file: usize,
    pub at: u64,
}

impl Places {
    /// The places of the cells of a layout, of so many bytes each.
    pub fn of(alloc: Global, layout: &Layout, bytes: u32) -> Result<Places, AllocError>
        ensures { IfOk result (λ places. places ≡ placing_of layout.now.spaces bytes) }
    {
        let mut spaces = Vec::with_capacity(alloc, layout.space_count() as usize)?;
        let mut files = 0usize;
        for s in 0..layout.space_count() {
            let count = layout.space_owners(s);
            spaces.push(SpacePlaces {
                unit: u64::from(layout.space_unit(s)),
                count: u64::from(count),
                first: files,
            })?;
            files += count as usize;
        }
        Ok(Places {
            spaces,
            files,
            bytes,
        })
    }

    /// How many files there are.
    pub fn files(&self) -> usize
        ensures { result ≡ self.now.files }
    {
        self.files
    }

    /// Bytes of a cell.
    pub fn bytes(&self) -> u64
        ensures bytes { result ≡ self.now.bytes }
        ensures few { result < 2 ^ 32 }
    {
        u64::from(self.bytes)
    }

    /// Where the cell lies.
    pub fn spot(&self, cell: Cell) -> Spot
        ensures spot { result ≡ spot_of self.now cell }
        ensures fits { result.at + self.now.bytes < 2 ^ 64 }
    {
        match self.spaces.get(cell.space as usize) {
            Some(space) => space.spot(cell.index, self.bytes),
            None => Spot {
                file: self.files,
                at: 0,
            },
        }
    }

    /// The space of a file, and its place in the list of the space's map, both from 0.
    pub fn place(&self, file: usize) -> Option<(usize, usize)>
        ensures { result ≡ place_of self.now file }
    {
        let s = self.space_of(file)?;
        let space = &self.spaces[s];
        Some((s, file - space.first))
    }

    /// The space of a file.
    fn space_of(&self, file: usize) -> Option<usize>
        ensures found { result ≡ position (has_file file) self.now.spaces }
        ensures within { IfSome result (λ s. s < length self.now.spaces) }
    {
        self.spaces.iter().position(|space| space.has(file))
    }
}

impl SpacePlaces {
    /// Where the cell with this index lies, of so many bytes.
    fn spot(&self, index: u32, bytes: u32) -> Spot
        ensures spot { result ≡ spot_in self.now bytes index }
        ensures fits { result.at + bytes < 2 ^ 64 }
    {
        let run = u64::from(index) / self.unit;
        Spot {
            file: self.first + (run % self.count) as usize,
            at: self.rank(index) * u64::from(bytes),
        }
    }

    /// How many cells of the space come before this one in its file.
    fn rank(&self, index: u32) -> u64
        ensures rank { result ≡ rank_in self.now index }
        ensures within { result ≤ index }
    {
        let index = u64::from(index);
        index / self.unit / self.count * self.unit + index % self.unit
    }

    /// Whether the file with this number is one of them.
    fn has(&self, file: usize) -> bool
        ensures { result ≡ has_file file self.now }
    {
        self.first <= file && file < self.first + self.count as usize
    }
}
