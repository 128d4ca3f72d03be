//! Jobs.

ghost use Rattle.std.specs.Prelude.{◌≡◌, ◌↔◌, ◌<◌, ◌≤◌, length, All, false, IsTrue, IfOk, IfErr, OnOk};
ghost use Rattle.std.specs.Prelude.{slice_get};
ghost use Rattle.waff_model.specs.Cells.{cells_of};
ghost use Rattle.waff_model.specs.Layout.{HasFewCells, IsCell, IsLayout, has_locks};
ghost use Rattle.waff_model.specs.Messages.{IsTrace, sizes_of};
ghost use Rattle.waff_model.specs.declared.limits.TheConstants.{MAX_MESSAGES};
ghost use Rattle.waff_assign.specs.Held.{AreKnown};
ghost use Rattle.waff_assign.specs.Lowest.{IsAssignment};
ghost use Rattle.waff_assign.specs.Order.{IsOrdered};
ghost use Rattle.waff_order.specs.Needs.{AreNeeds, needs_of};
ghost use Rattle.waff_cells.specs.Serial.{ops_of};
ghost use Rattle.waff_core.specs.Job.{IsIn, IsJob, IsJobOf, IsOrder, owners_of};
ghost use Rattle.waff_core.specs.Owners.{AreParts};

use crate::order::is_order;
use crate::owners::list_owners;
use crate::refusal::JobError;
use std::alloc::{AllocError, Global};
use std::marker::Model;
use waff_assign::{Assigned, is_ordered};
use waff_cells::ParcelTable;
use waff_model::{Layout, Message, Trace};
use waff_order::{Lists, Needs};

/// What is replayed: the messages of a trace under a layout, with their affinities, their needs and
/// the owners of their footprints, in the order in which they are handed out. Messages are numbered
/// from 1.
pub struct Job {
    table: ParcelTable,
    trace: Trace,
    assigned: Assigned,
    needs: Needs,
    owners: Lists<u16>,
    order: Vec<u32>,
}

impl Model for Job {
    ghost use Rattle.waff_cells.specs.Serial.{operations};
    ghost use Rattle.waff_core.specs.Job.{JobValue, IsJob};

    ghost Value = { JobValue };

    ghost view = { λ j. record {
      layout = j.table;
      ops = operations j.trace.messages;
      assigned = j.assigned;
      needs = j.needs;
      owners = j.owners;
      order = j.order.items;
    } };

    ghost invariant = { λ j. IsJob (record {
      layout = j.table;
      ops = operations j.trace.messages;
      assigned = j.assigned;
      needs = j.needs;
      owners = j.owners;
      order = j.order.items;
    }) };
}

// Written out: a derived drop is proved again in each crate that lets go of the value.
impl Drop for Job {
    fn drop(self) {
        let Job {
            table,
            trace,
            assigned,
            needs,
            owners,
            order,
        } = self;
        drop(table);
        drop(trace);
        drop(assigned);
        drop(needs);
        drop(owners);
        drop(order);
    }
}

impl Job {
    /// The job of a trace's messages, with the assignment and the needs of that trace under that
    /// layout, which has few cells and no locks.
    pub fn new(
        alloc: Global,
        layout: Layout,
        trace: Trace,
        assigned: Assigned,
        needs: Needs,
        order: &[u32],
    ) -> Result<Job, JobError>
        requires few { HasFewCells layout.spaces }
        requires fits { trace.sizes ≡ sizes_of layout.spaces }
        requires assignment { IsAssignment layout trace.messages assigned }
        requires known { AreKnown layout.tree assigned }
        requires unlocked { has_locks layout.spaces ≡ false }
        requires needs { AreNeeds layout.tree assigned needs }
        ensures kept { IfOk result
            (λ job. IsJobOf layout trace.messages assigned needs order.now job) }
        ensures job { IfOk result IsJob }
        ensures refused { IfErr result (λ e. e ≡ JobError.Order → ¬ IsOrder needs order.now) }
    {
        match parts_of(alloc, layout, &trace, &needs, order) {
            Ok((table, owners, order)) => Ok(Job {
                table,
                trace,
                assigned,
                needs,
                owners,
                order,
            }),
            Err(e) => {
                drop((trace, assigned, needs));
                Err(e)
            }
        }
    }

    /// How many messages there are.
    pub fn len(&self) -> u32
        ensures count { result ≡ length self.now.ops }
        ensures few { length self.now.ops ≤ MAX_MESSAGES }
        ensures job { IsJob self.now }
    {
        self.assigned.len()
    }

    /// The layout under which the messages run.
    pub fn layout(&self) -> &Layout
        ensures layout { result.now ≡ self.now.layout }
        ensures job { IsJob self.now }
    {
        self.table.layout()
    }

    /// The layout with the table of its parcels.
    pub fn parcel_table(&self) -> &ParcelTable
        ensures layout { result.now ≡ self.now.layout }
        ensures job { IsJob self.now }
    {
        &self.table
    }

    /// The needs of message `n`, in rising order.
    pub fn needs(&self, n: u32) -> &[u32]
        requires number { IsIn self.now n }
        ensures needs { result.now ≡ needs_of self.now.needs n }
        ensures earlier { All (λ i. (1 ≤ i) × (i < n)) result.now }
        ensures known { All (IsIn self.now) result.now }
    {
        self.needs.of(n)
    }

    /// The numbers of the affinities that own a cell of the footprint of message `n`, each once.
    pub fn owners(&self, n: u32) -> &[u16]
        requires number { IsIn self.now n }
        ensures owners { result.now ≡ owners_of self.now.owners n }
        ensures known { All (λ a. a < length self.now.layout.tree) result.now }
    {
        self.owners.of(n)
    }

    /// Message `n`.
    pub fn message(&self, n: u32) -> &Message
        requires number { IsIn self.now n }
        ensures ops { result.now.ops ≡ ops_of self.now.ops n }
        ensures cells { All (IsCell self.now.layout.spaces) (cells_of result.now.ops) }
    {
        self.trace.message(n)
    }

    /// The message at this place of the order, from 0.
    pub fn drawn_at(&self, place: u32) -> Option<u32>
        ensures { result ≡ slice_get self.now.order place }
    {
        self.order.get(place as usize).copied()
    }

    /// Whether messages `i` and `j` are an ordered pair.
    pub fn is_ordered(&self, i: u32, j: u32) -> bool
        requires first { IsIn self.now i }
        requires second { IsIn self.now j }
        ensures { IsTrue result ↔ IsOrdered self.now.layout.tree self.now.assigned i j }
    {
        is_ordered(self.layout().tree(), &self.assigned, i, j)
    }
}

/// What a job keeps beside what it is given: the table, the owners, and the order, if it is one.
fn parts_of(
    alloc: Global,
    layout: Layout,
    trace: &Trace,
    needs: &Needs,
    order: &[u32],
) -> Result<(ParcelTable, Lists<u16>, Vec<u32>), JobError>
    requires few { HasFewCells layout.spaces }
    requires fits { trace.now.sizes ≡ sizes_of layout.spaces }
    ensures parts { IfOk result
        (λ made. AreParts layout trace.now order.now made.0 made.1 made.2.items) }
    ensures order { OnOk result (IsOrder needs.now order.now) }
    ensures refused { IfErr result (λ e. e ≡ JobError.Order → ¬ IsOrder needs.now order.now) }
{
    match is_order(alloc, needs, order) {
        Ok(true) => {}
        Ok(false) => return Err(JobError::Order),
        Err(_) => return Err(JobError::Memory),
    }
    match make_parts(alloc, layout, trace, order) {
        Ok(parts) => Ok(parts),
        Err(_) => Err(JobError::Memory),
    }
}

/// The table, the owners and the order.
fn make_parts(
    alloc: Global,
    layout: Layout,
    trace: &Trace,
    order: &[u32],
) -> Result<(ParcelTable, Lists<u16>, Vec<u32>), AllocError>
    requires few { HasFewCells layout.spaces }
    requires fits { trace.now.sizes ≡ sizes_of layout.spaces }
    ensures { IfOk result
        (λ made. AreParts layout trace.now order.now made.0 made.1 made.2.items) }
{
    let table = ParcelTable::new(alloc, layout)?;
    let owners = list_owners(alloc, &table, trace)?;
    let order = Vec::from_slice(alloc, order)?;
    Ok((table, owners, order))
}
