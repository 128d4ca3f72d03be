//! What the messages of a trace hold, where some spaces have locks: gathered part by part.

ghost use Rattle.std.specs.Prelude.{◌≡◌, ◌≤◌, length, IfOk};
ghost use Rattle.std.specs.Thread.{IsSync};
ghost use Rattle.waff_model.specs.Messages.{sizes_of};
ghost use Rattle.waff_assign.specs.Held.{AreKnown};
ghost use Rattle.waff_assign.specs.Lowest.{IsAssignment, ListsLocks};
ghost use Rattle.waff_assign.specs.Parts.{IsPart};

use crate::Assigned;
use crate::assignment::lowest_without_locks;
use crate::gathered::Gathered;
use crate::locks::Locks;
use crate::uses::list_uses;
use std::alloc::{AllocError, Global};
use std::thread;
use std::thread::Threads;
use waff_model::{Layout, Trace};

/// Of fewer messages one thread tells what they hold.
pub(crate) const MANY: u32 = 4_096;

/// How often many messages are halved.
pub(crate) const HALVINGS: u32 = 2;

/// What each message holds.
pub(crate) fn assign_with_locks(
    alloc: Global,
    layout: &Layout,
    trace: &Trace,
) -> Result<Assigned, AllocError>
    requires fits { trace.now.sizes ≡ sizes_of layout.now.spaces }
    ensures assignment { IfOk result (IsAssignment layout.now trace.now.messages) }
    ensures known { IfOk result (AreKnown layout.now.tree) }
{
    let locks = Locks::of(alloc, layout, trace)?;
    let gathered = gather(alloc, layout, trace, &locks, 0, trace.len())?;
    Ok(assigned_of(layout, trace, &locks, gathered))
}

/// The same, by several threads where there are many messages.
pub(crate) fn assign_with_locks_by_threads<R: Threads + Sync>(
    rt: &R,
    alloc: Global,
    layout: &Layout,
    trace: &Trace,
) -> Result<Assigned, AllocError>
    requires fits { trace.now.sizes ≡ sizes_of layout.now.spaces }
    ensures assignment { IfOk result (IsAssignment layout.now trace.now.messages) }
    ensures known { IfOk result (AreKnown layout.now.tree) }
{
    let locks = Locks::by_threads(rt, alloc, layout, trace)?;
    let gathered = gather_halves(rt, alloc, layout, trace, &locks, 0, trace.len(), HALVINGS)?;
    Ok(assigned_of(layout, trace, &locks, gathered))
}

/// What all messages hold, gathered.
fn assigned_of(layout: &Layout, trace: &Trace, locks: &Locks, gathered: Gathered) -> Assigned
    requires locks { ListsLocks layout.now trace.now.messages locks.now }
    requires all { IsPart layout.now locks.now trace.now.messages
        0 (length trace.now.messages) gathered }
    ensures assignment { IsAssignment layout.now trace.now.messages result }
    ensures known { AreKnown layout.now.tree result }
{
    // Its contract tells that messages are few.
    let _ = trace.len();
    gathered.assigned(locks.len())
}

/// What the messages behind the first so many hold, up to the end.
fn gather(
    alloc: Global,
    layout: &Layout,
    trace: &Trace,
    locks: &Locks,
    before: u32,
    end: u32,
) -> Result<Gathered, AllocError>
    requires fits { trace.now.sizes ≡ sizes_of layout.now.spaces }
    requires locks { ListsLocks layout.now trace.now.messages locks.now }
    requires order { before ≤ end }
    requires within { end ≤ length trace.now.messages }
    ensures { IfOk result (IsPart layout.now locks.now trace.now.messages before end) }
{
    // Its contract tells that messages are few.
    let _ = trace.len();
    let mut gathered = Gathered::with_capacity(alloc, (end - before) as usize)?;
    let mut uses = Vec::new(alloc);
    let mut seen = Vec::new(alloc);
    for n in before + 1..end + 1 {
        let ops = &trace.message(n).ops;
        list_uses(&mut uses, &mut seen, layout, locks, ops)?;
        gathered.push(lowest_without_locks(layout, ops), &uses)?;
    }
    Ok(gathered)
}

/// The same, by a thread for each part of the messages, that are halved so often.
#[cycle(gathering)]
fn gather_halves<R: Threads + Sync>(
    rt: &R,
    alloc: Global,
    layout: &Layout,
    trace: &Trace,
    locks: &Locks,
    before: u32,
    end: u32,
    halvings: u32,
) -> Result<Gathered, AllocError>
    requires fits { trace.now.sizes ≡ sizes_of layout.now.spaces }
    requires locks { ListsLocks layout.now trace.now.messages locks.now }
    requires order { before ≤ end }
    requires within { end ≤ length trace.now.messages }
    ensures { IfOk result (IsPart layout.now locks.now trace.now.messages before end) }
{
    if halvings == 0 || end - before < MANY {
        return gather(alloc, layout, trace, locks, before, end);
    }
    let middle = before + (end - before) / 2;
    let front = move || -> Result<Gathered, AllocError>
        requires more { IsSync R.row × (1 ≤ halvings) }
        requires fits { trace.now.sizes ≡ sizes_of layout.now.spaces }
        requires locks { ListsLocks layout.now trace.now.messages locks.now }
        requires order { before ≤ middle }
        requires within { middle ≤ length trace.now.messages }
        ensures { IfOk result
            (IsPart layout.entry.now locks.entry.now trace.entry.now.messages before middle) }
    {
        gather_halves(
            rt,
            alloc,
            layout,
            trace,
            locks,
            before,
            middle,
            halvings - 1,
        )
    };
    let back = move || -> Result<Gathered, AllocError>
        requires more { IsSync R.row × (1 ≤ halvings) }
        requires fits { trace.now.sizes ≡ sizes_of layout.now.spaces }
        requires locks { ListsLocks layout.now trace.now.messages locks.now }
        requires order { middle ≤ end }
        requires within { end ≤ length trace.now.messages }
        ensures { IfOk result
            (IsPart layout.entry.now locks.entry.now trace.entry.now.messages middle end) }
    { gather_halves(rt, alloc, layout, trace, locks, middle, end, halvings - 1) };
    let (first, second) = thread::join(rt, front, back);
    let mut both = first?;
    both.append(second?)?;
    Ok(both)
}
