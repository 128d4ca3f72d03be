//! Tables by the places of affinities in preorder, where those at or below one stand at one span of
//! places.
//!
//! The places are cut into blocks, so that a long span is passed block by block.

ghost use Rattle.std.specs.Prelude.{◌≡◌, ◌+◌, ◌-◌, ◌<◌, ◌≤◌, ◌++◌, length, replicate, slice_set};
ghost use Rattle.std.specs.Prelude.{vec_capacity, IfOk, OnErr, OnOk};
ghost use Rattle.waff_model.specs.Later.{Join, IsMonoid, by_number};
ghost use Rattle.waff_model.specs.Later.{latest_of, latest_in, value_at};
ghost use Rattle.waff_model.specs.Spans.{map_in, messages_in};
ghost use Rattle.std.proofs.Common.{arith};

use std::alloc::{AllocError, Global};
use std::marker::Model;

/// Each block is of so many places.
const BLOCK: usize = 64;

/// Values that are joined into the later one, with one that stands for nothing: a commutative
/// monoid.
pub trait Later: Copy + Drop {
    ghost join: { Join Self };

    /// What stands where there is no value.
    fn none() -> Self
        ensures { result ≡ join.none };

    /// The later of the two.
    fn later(self, other: Self) -> Self
        ensures { result ≡ join.later self other };

    ghost laws: { IsMonoid join };
}

/// The number of a message, 0 for none.
impl Later for u32 {
    ghost join = { by_number };

    fn none() -> u32 {
        0
    }

    fn later(self, other: u32) -> u32 {
        self.max(other)
    }

    ghost laws = { record {
      unit = λ x. omega arith;
      associates = λ x y z. omega arith;
      commutes = λ x y. omega arith;
    } };
}

/// Values noted at spans of places, by places and blocks.
#[derive(Drop)]
struct Blocks<T: Later> {
    /// What was noted at each place alone.
    places: Vec<T>,
    /// What was noted at all places of a block.
    blocks: Vec<T>,
}

impl<T: Later> Model for Blocks<T> {
    ghost use Rattle.std.specs.Prelude.{List};
    ghost use Rattle.waff_model.specs.Blocks.{spread_from, AreCut};

    ghost Value = { List T };

    ghost view = { λ s. spread_from T.join s.blocks.items 0 s.places.items };

    ghost invariant = { λ s. AreCut s.places.items s.blocks.items };
}

impl<T: Later> Blocks<T> {
    /// Nothing is noted at these many places.
    fn none(alloc: Global, count: usize) -> Result<Self, AllocError>
        ensures { IfOk result (λ blocks. blocks ≡ replicate count T.join.none) }
    {
        Ok(Blocks {
            places: filled(alloc, count)?,
            blocks: filled(alloc, count / BLOCK + 1)?,
        })
    }

    /// How many places there are.
    fn len(&self) -> usize
        ensures { result ≡ length self.now }
    {
        self.places.len()
    }

    /// What counts at this place.
    fn at(&self, place: usize) -> T
        requires { place < length self.now }
        ensures { result ≡ value_at T.join self.now place }
    {
        self.places[place].later(self.blocks[place / BLOCK])
    }

    /// Notes a value at the places from `from` up to `to`.
    fn note(&mut self, from: usize, to: usize, value: T)
        requires forward { from ≤ to }
        requires within { to ≤ length self.old }
        ensures { self.new ≡ map_in (λ v. T.join.later v value) self.old from to }
    {
        let (first, last) = (from.div_ceil(BLOCK), to / BLOCK);
        if last <= first {
            note_each(&mut self.places, from, to, value);
            return;
        }
        note_each(&mut self.places, from, first * BLOCK, value);
        note_each(&mut self.blocks, first, last, value);
        note_each(&mut self.places, last * BLOCK, to, value);
    }
}

/// Values noted at spans of places: what counts at a place is the latest that was noted there.
#[derive(Drop)]
pub struct Spread<T: Later> {
    /// What was noted at spans of some places.
    blocks: Blocks<T>,
    /// What was noted at all places.
    whole: T,
}

impl<T: Later> Model for Spread<T> {
    ghost use Rattle.std.specs.Prelude.{List, map};

    ghost Value = { List T };

    ghost view = { λ s. map (λ x. T.join.later x s.whole) s.blocks };
}

impl<T: Later> Spread<T> {
    /// Nothing is noted at these many places.
    pub fn none(alloc: Global, count: usize) -> Result<Self, AllocError>
        ensures { IfOk result (λ spread. spread ≡ replicate count T.join.none) }
    {
        let blocks = Blocks::none(alloc, count)?;
        let whole = T::none();
        Ok(Spread { blocks, whole })
    }

    /// What counts at this place.
    pub fn at(&self, place: usize) -> T
        requires { place < length self.now }
        ensures { result ≡ value_at T.join self.now place }
    {
        self.blocks.at(place).later(self.whole)
    }

    /// Notes a value at the places from `from` up to `to`.
    pub fn note(&mut self, from: usize, to: usize, value: T)
        requires forward { from ≤ to }
        requires within { to ≤ length self.old }
        ensures { self.new ≡ map_in (λ v. T.join.later v value) self.old from to }
    {
        if from == 0 && to == self.blocks.len() {
            self.whole = self.whole.later(value);
        } else {
            self.blocks.note(from, to, value);
        }
    }
}

/// Values that stand at places: what is asked for is the latest in a span.
#[derive(Drop)]
pub struct Standing<T: Later> {
    /// What stands at each place.
    places: Vec<T>,
    /// The latest value in each block.
    blocks: Vec<T>,
}

impl<T: Later> Model for Standing<T> {
    ghost use Rattle.std.specs.Prelude.{List};
    ghost use Rattle.waff_model.specs.Blocks.{AreSummed};

    ghost Value = { List T };

    ghost view = { λ s. s.places.items };

    ghost invariant = { λ s. AreSummed T.join s.places.items s.blocks.items };
}

impl<T: Later> Standing<T> {
    /// Nothing stands at these many places.
    pub fn none(alloc: Global, count: usize) -> Result<Self, AllocError>
        ensures { IfOk result (λ standing. standing ≡ replicate count T.join.none) }
    {
        Ok(Standing {
            places: filled(alloc, count)?,
            blocks: filled(alloc, count / BLOCK + 1)?,
        })
    }

    /// The value stands at this place, where a later one does not.
    pub fn put(&mut self, place: usize, value: T)
        requires { place < length self.old }
        ensures { self.new ≡ slice_set self.old place
            (T.join.later (value_at T.join self.old place) value) }
    {
        let block = place / BLOCK;
        self.places[place] = self.places[place].later(value);
        self.blocks[block] = self.blocks[block].later(value);
    }

    /// The latest value at the places from `from` up to `to`.
    pub fn latest(&self, from: usize, to: usize) -> T
        requires forward { from ≤ to }
        requires within { to ≤ length self.now }
        ensures { result ≡ latest_in T.join self.now from to }
    {
        let (first, last) = (from.div_ceil(BLOCK), to / BLOCK);
        if last <= first {
            return latest(&self.places[from..to]);
        }
        let before = latest(&self.places[from..first * BLOCK]);
        let whole = latest(&self.blocks[first..last]);
        let behind = latest(&self.places[last * BLOCK..to]);
        before.later(whole).later(behind)
    }
}

/// Messages that are open at places, by number: those of a span are taken together.
#[derive(Drop)]
pub struct Opened {
    /// The open message at each place, 0 where there is none.
    places: Vec<u32>,
    /// For each block whether a message may be open in it.
    blocks: Vec<bool>,
    /// No message is open from this place on.
    end: usize,
}

impl Model for Opened {
    ghost use Rattle.std.specs.Prelude.{List, ℕ};
    ghost use Rattle.waff_model.specs.Blocks.{AreFilled, AreBelow};

    ghost Value = { List ℕ };

    ghost view = { λ o. o.places.items };

    ghost invariant = { λ o.
        AreFilled o.places.items o.blocks.items × AreBelow o.end o.places.items };
}

impl Opened {
    /// No message is open at these many places.
    pub fn none(alloc: Global, count: usize) -> Result<Self, AllocError>
        ensures { IfOk result (λ opened. opened ≡ replicate count 0) }
    {
        Ok(Opened {
            places: vec![in alloc; 0; count]?,
            blocks: vec![in alloc; false; count / BLOCK + 1]?,
            end: 0,
        })
    }

    /// Message `m` is open at this place.
    pub fn put(&mut self, place: usize, m: u32)
        requires { place < length self.old }
        ensures { self.new ≡ slice_set self.old place m }
    {
        self.places[place] = m;
        self.blocks[place / BLOCK] = true;
        self.end = self.end.max(place + 1);
    }

    /// Appends the messages that are open at the places from `from` up to `to`, which are then
    /// closed.
    pub fn take(&mut self, from: usize, to: usize, list: &mut Vec<u32>) -> Result<(), AllocError>
        requires forward { from ≤ to }
        requires within { to ≤ length self.old }
        ensures taken { OnOk result
            (list.new.items ≡ list.old.items ++ messages_in self.old from to) }
        ensures closed { OnOk result (self.new ≡ map_in (λ m. 0) self.old from to) }
        ensures unchanged { OnErr result
            ((self.new ≡ self.old) × (list.new.items ≡ list.old.items)) }
    {
        list.reserve(to - from)?;
        let until = to.min(self.end.max(from));
        let mut at = from;
        while at < until {
            let block = at / BLOCK;
            let end = until.min((block + 1) * BLOCK);
            if self.blocks[block] {
                take_each(&mut self.places, at, end, list);
                self.blocks[block] = end - at < BLOCK;
            }
            at = end;
        }
        if self.end <= to {
            self.end = self.end.min(from);
        }
        Ok(())
    }
}

/// So many values that stand for nothing.
fn filled<T: Later>(alloc: Global, count: usize) -> Result<Vec<T>, AllocError>
    ensures { IfOk result (λ values. values.items ≡ replicate count T.join.none) }
{
    let mut values = Vec::new(alloc);
    values.resize(count, T::none())?;
    Ok(values)
}

/// Notes a value at each place from `from` up to `to`.
fn note_each<T: Later>(values: &mut [T], from: usize, to: usize, value: T)
    requires forward { from ≤ to }
    requires within { to ≤ length values.old }
    ensures noted { values.new ≡ map_in (λ v. T.join.later v value) values.old from to }
    ensures count { length values.new ≡ length values.old }
{
    for place in from..to {
        values[place] = values[place].later(value);
    }
}

/// The latest of the values.
fn latest<T: Later>(values: &[T]) -> T
    ensures { result ≡ latest_of T.join values.now }
{
    let mut latest = T::none();
    for value in values {
        latest = latest.later(*value);
    }
    latest
}

/// Takes the messages at the places from `from` up to `to`, looked at one by one.
fn take_each(places: &mut [u32], from: usize, to: usize, list: &mut Vec<u32>)
    requires forward { from ≤ to }
    requires within { to ≤ length places.old }
    requires room { length list.old.items + (to - from) ≤ vec_capacity list.old }
    ensures taken { list.new.items ≡ list.old.items ++ messages_in places.old from to }
    ensures closed { places.new ≡ map_in (λ m. 0) places.old from to }
    ensures count { length places.new ≡ length places.old }
    ensures few { length list.new.items ≤ length list.old.items + (to - from) }
    ensures room { vec_capacity list.new ≡ vec_capacity list.old }
{
    for place in from..to {
        let m = places[place];
        if m > 0 {
            list.push_reserved(m);
            places[place] = 0;
        }
    }
}
