//! The core machine, by its definition: a begin is tested against all earlier messages.

use crate::cells::{Cells, named};
use crate::pairs::{has, only};
use std::alloc::{AllocError, Global};
use waff_core::{Event, Status};
use waff_model::{AffinityId, Cell, Layout, Trace};

/// Why an event is not allowed.
#[derive(Clone, Copy, PartialEq)]
pub enum Fault {
    /// The actor has a message.
    Busy,
    /// There is no such actor, or it has no such message.
    Nothing,
    /// This earlier message is not done.
    NotYet(u32),
}

/// The messages, the actors and the cells.
#[derive(Drop)]
pub struct Machine {
    /// For each message the earlier ones that exclude it.
    pairs: Vec<u64>,
    pub order: Vec<u32>,
    pub seats: u32,
    pub statuses: Vec<Status>,
    /// The set of actors that have ended.
    ended: u64,
    pub drawn: u32,
    pub cells: Cells,
}

impl Machine {
    /// All messages wait, and all cells are 0.
    pub fn opening(
        alloc: Global,
        pairs: Vec<u64>,
        order: Vec<u32>,
        seats: u32,
    ) -> Result<Self, AllocError> {
        Ok(Machine {
            statuses: vec![in alloc; Status::Waiting; pairs.len()]?,
            pairs,
            order,
            seats,
            ended: 0,
            drawn: 0,
            cells: Cells::zero(),
        })
    }

    /// The event, or why it is not allowed; then nothing has changed.
    pub fn step(&mut self, trace: &Trace, event: Event) -> Result<(), Fault> {
        match event {
            Event::Draw(actor) => self.draw(actor),
            Event::Begin(actor) => self.begin(actor),
            Event::End(actor) => self.end(trace, actor),
        }
    }

    fn draw(&mut self, actor: u32) -> Result<(), Fault> {
        if actor < 1 || self.seats < actor || has(self.ended, actor) {
            return Err(Fault::Nothing);
        }
        if self
            .with(Status::Held { actor })
            .or(self.with(Status::Running { actor }))
            .is_some()
        {
            return Err(Fault::Busy);
        }
        match self.order.get(self.drawn as usize).copied() {
            Some(m) => self.put(m, Status::Held { actor }),
            None => self.ended |= only(actor),
        }
        self.drawn = self.drawn.saturating_add(1);
        Ok(())
    }

    fn begin(&mut self, actor: u32) -> Result<(), Fault> {
        let m = self.with(Status::Held { actor }).ok_or(Fault::Nothing)?;
        let earlier = self.earlier(m);
        for (i, status) in (1u32..).zip(&self.statuses) {
            if has(earlier, i) && *status != Status::Done {
                return Err(Fault::NotYet(i));
            }
        }
        self.put(m, Status::Running { actor });
        Ok(())
    }

    fn end(&mut self, trace: &Trace, actor: u32) -> Result<(), Fault> {
        let m = self.with(Status::Running { actor }).ok_or(Fault::Nothing)?;
        if 1 <= m && m <= trace.len() {
            let ops = &trace.message(m).ops;
            for at in 0..ops.len() {
                self.cells.run(ops.get(at));
            }
        }
        self.put(m, Status::Done);
        Ok(())
    }

    /// The message that has this status.
    fn with(&self, wanted: Status) -> Option<u32> {
        for (m, status) in (1u32..).zip(&self.statuses) {
            if *status == wanted {
                return Some(m);
            }
        }
        None
    }

    /// The earlier messages that exclude message `m`.
    fn earlier(&self, m: u32) -> u64 {
        self.pairs
            .get(m.wrapping_sub(1) as usize)
            .copied()
            .unwrap_or(0)
    }

    fn put(&mut self, m: u32, status: Status) {
        if let Some(old) = self.statuses.get_mut(m.wrapping_sub(1) as usize) {
            *old = status;
        }
    }

    /// Whether no message that runs names a cell of the affinity.
    pub fn is_home(&self, layout: &Layout, trace: &Trace, affinity: AffinityId) -> bool {
        for (m, status) in (1u32..trace.len() + 1).zip(&self.statuses) {
            if let Status::Running { .. } = status {
                if names(layout, trace, m, affinity) {
                    return false;
                }
            }
        }
        true
    }
}

/// Whether message `m` names a cell of the affinity.
fn names(layout: &Layout, trace: &Trace, m: u32, affinity: AffinityId) -> bool {
    if m < 1 || trace.len() < m {
        return false;
    }
    let ops = &trace.message(m).ops;
    for at in 0..ops.len() {
        if named(ops.get(at))
            .iter()
            .any(|cell| owns(layout, affinity, *cell))
        {
            return true;
        }
    }
    false
}

fn owns(layout: &Layout, affinity: AffinityId, cell: Cell) -> bool {
    layout.has(cell) && layout.owner(cell) == affinity
}
