//! What the trace comes to under several sets of locks, made side by side.

ghost use Rattle.std.specs.Prelude.{◌≡◌, ◌<◌, All, IfOk, IfSome, IsTrue, false, length, map, slice_index};
ghost use Rattle.waff_locks.specs.Sets.{AreFiguresWith};
ghost use Rattle.waff_locks.specs.Known.{IsKnown, IsMade};
ghost use Rattle.waff_locks.specs.Steps.{with_one};
ghost use Rattle.waff_locks.specs.declared.figures.SpaceFigures.{SpaceFigures};

use crate::figures::{SetFigures, SpaceFigures, figures_with};
use crate::wanted::Asked;
use std::alloc::{AllocError, Global};
use std::thread;
use std::thread::Threads;
use waff_figures::{all_made, sides};
use waff_model::Locking;

/// A kind of locks for each space, with what the trace comes to under the hierarchy that has them.
#[derive(Clone, Copy)]
pub(crate) struct Known<'a> {
    pub(crate) lockings: &'a [Locking],
    pub(crate) figures: SetFigures,
}

/// What the trace comes to with few locks, and with more.
#[derive(Clone, Copy)]
pub(crate) struct Ends {
    pub(crate) before: SetFigures,
    pub(crate) all: SetFigures,
}

/// The figures of the trace under the hierarchy with these locks, and with those; made once where both are the same.
pub(crate) fn both_ends<R: Threads + Sync>(
    rt: &R,
    alloc: Global,
    asked: &Asked<'_>,
    lockings: &[Locking],
    all: &[Locking],
) -> Result<Ends, AllocError>
    requires count { length lockings.now ≡ length asked.now.layout.now.spaces }
    requires counted { length all.now ≡ length asked.now.layout.now.spaces }
    ensures before { IfOk result (λ ends. AreFiguresWith asked.now.wanted.now asked.now.layout.now asked.now.trace.now lockings.now ends.before) }
    ensures all { IfOk result (λ ends. AreFiguresWith asked.now.wanted.now asked.now.layout.now asked.now.trace.now all.now ends.all) }
{
    if are_same(lockings, all) {
        let before = figures_with(alloc, asked, lockings)?;
        return Ok(Ends {
            before,
            all: before,
        });
    }
    let first = move || -> Result<SetFigures, AllocError>
        requires { length lockings.now ≡ length asked.now.layout.now.spaces }
        ensures { IfOk result (AreFiguresWith asked.entry.now.wanted.now asked.entry.now.layout.now asked.entry.now.trace.now lockings.entry.now) }
    { figures_with(alloc, asked, lockings) };
    let second = move || -> Result<SetFigures, AllocError>
        requires { length all.now ≡ length asked.now.layout.now.spaces }
        ensures { IfOk result (AreFiguresWith asked.entry.now.wanted.now asked.entry.now.layout.now asked.entry.now.trace.now all.entry.now) }
    { figures_with(alloc, asked, all) };
    let (before, all) = thread::join(rt, first, second);
    Ok(Ends {
        before: before?,
        all: all?,
    })
}

/// These spaces, each with the figures where it is locked too beside these locks. The set whose figures are known is not made again.
pub(crate) fn try_each<R: Threads + Sync>(
    rt: &R,
    alloc: Global,
    asked: &Asked<'_>,
    lockings: &[Locking],
    spaces: &[u32],
    known: &Known<'_>,
) -> Result<Vec<SpaceFigures>, AllocError>
    requires count { length lockings.now ≡ length asked.now.layout.now.spaces }
    requires within { All (λ s. s < length lockings.now) spaces.now }
    requires known { IsKnown asked.now known.now }
    ensures in_turn { IfOk result (λ tried. map (λ one. one.space) tried.items ≡ spaces.now) }
    ensures each { IfOk result (λ tried. All (IsMade asked.now lockings.now) tried.items) }
{
    let mut made = vec![in alloc; None; spaces.len()]?;
    let one = move |place: usize, made: &mut Option<SpaceFigures>|
        requires place { place < length spaces.now }
        requires count { length lockings.now ≡ length asked.now.layout.now.spaces }
        requires within { All (λ s. s < length lockings.now) spaces.now }
        requires known { IsKnown asked.now known.now }
        ensures space { IfSome made.new (λ one. one.space ≡ slice_index spaces.entry.now place) }
        ensures figures { IfSome made.new (IsMade asked.entry.now lockings.entry.now) }
    { *made = try_one(alloc, asked, lockings, spaces[place], known).ok() };
    let threads = sides(rt, asked.trace.len());
    thread::for_each_mut(rt, made.as_mut_slice(), threads, &one);
    all_made(alloc, made.as_slice())
}

/// The space with the figures where it is locked too.
fn try_one(
    alloc: Global,
    asked: &Asked<'_>,
    lockings: &[Locking],
    s: u32,
    known: &Known<'_>,
) -> Result<SpaceFigures, AllocError>
    requires count { length lockings.now ≡ length asked.now.layout.now.spaces }
    requires within { s < length lockings.now }
    requires known { IsKnown asked.now known.now }
    ensures space { IfOk result (λ one. one.space ≡ s) }
    ensures figures { IfOk result (IsMade asked.now lockings.now) }
{
    let locked = with_one(alloc, asked, lockings, s)?;
    let figures = known_or_made(alloc, asked, &locked, known);
    drop(locked);
    Ok(SpaceFigures {
        space: s,
        figures: figures?,
    })
}

/// These locks, and the space locked too.
pub(crate) fn with_one(
    alloc: Global,
    asked: &Asked<'_>,
    lockings: &[Locking],
    s: u32,
) -> Result<Vec<Locking>, AllocError>
    requires { s < length lockings.now }
    ensures { IfOk result (λ locked. locked.items ≡ with_one asked.now.wanted.now lockings.now s) }
{
    let mut locked = Vec::from_slice(alloc, lockings)?;
    locked[s as usize] = asked.wanted.kind;
    Ok(locked)
}

/// The figures of the trace under the hierarchy with these locks.
fn known_or_made(
    alloc: Global,
    asked: &Asked<'_>,
    lockings: &[Locking],
    known: &Known<'_>,
) -> Result<SetFigures, AllocError>
    requires count { length lockings.now ≡ length asked.now.layout.now.spaces }
    requires known { IsKnown asked.now known.now }
    ensures { IfOk result (AreFiguresWith asked.now.wanted.now asked.now.layout.now asked.now.trace.now lockings.now) }
{
    if are_same(known.lockings, lockings) {
        return Ok(known.figures);
    }
    figures_with(alloc, asked, lockings)
}

/// Whether these are the same.
fn are_same(lockings: &[Locking], others: &[Locking]) -> bool
    ensures { IsTrue result → lockings.now ≡ others.now }
{
    if lockings.len() != others.len() {
        return false;
    }
    for i in 0..lockings.len() {
        if differ(lockings[i], others[i]) {
            return false;
        }
    }
    true
}

/// Whether they are of two kinds.
fn differ(locking: Locking, other: Locking) -> bool
    ensures { result ≡ false → locking ≡ other }
{
    match locking {
        Locking::Unlocked => !matches!(other, Locking::Unlocked),
        Locking::Exclusive => !matches!(other, Locking::Exclusive),
        Locking::Shared => !matches!(other, Locking::Shared),
    }
}
