//! Spaces that get locks one after another.

ghost use Rattle.std.specs.Prelude.{◌≡◌, ◌↔◌, ◌<◌, ◌⊎◌, All, Contains, IfOk, IsTrue, OnOk, length};
ghost use Rattle.waff_locks.specs.Candidates.{AreNamed};
ghost use Rattle.waff_locks.specs.Known.{IsKnown};
ghost use Rattle.waff_locks.specs.Steps.{AreMore, AreSteps, AreTried, ComesBefore, IsNext};

use crate::candidates::candidates;
use crate::figures::SpaceFigures;
use crate::sets::{Known, try_each, with_one};
use crate::wanted::Asked;
use std::alloc::{AllocError, Global};
use std::thread::Threads;
use waff_model::Locking;

/// The steps from these locks on, where these are the candidates beside them with their figures.
pub(crate) fn steps_from<R: Threads + Sync>(
    rt: &R,
    alloc: Global,
    asked: &Asked<'_>,
    named: &[bool],
    lockings: &[Locking],
    ones: &[SpaceFigures],
    known: &Known<'_>,
) -> Result<Vec<SpaceFigures>, AllocError>
    requires count { length lockings.now ≡ length asked.now.layout.now.spaces }
    requires counted { length named.now ≡ length lockings.now }
    requires named { AreNamed asked.now.trace.now.messages named.now }
    requires within { All (λ one. one.space < length lockings.now) ones.now }
    requires ones { AreTried asked.now.wanted.now asked.now.layout.now asked.now.trace.now lockings.now ones.now }
    requires known { IsKnown asked.now known.now }
    ensures { IfOk result (λ steps. AreSteps asked.now.wanted.now asked.now.layout.now asked.now.trace.now asked.now.wanted.now.steps
        lockings.now steps.items) }
{
    let mut steps = Vec::new(alloc);
    let most = asked.wanted.steps;
    if most == 0 {
        return Ok(steps);
    }
    if ones.is_empty() {
        return Ok(steps);
    }
    let first = first_of(ones);
    steps.push(first)?;
    let locked = with_one(alloc, asked, lockings, first.space)?;
    add_steps(rt, alloc, asked, named, locked, known, most - 1, &mut steps)?;
    Ok(steps)
}

/// Appends at most so many steps from these locks on.
fn add_steps<R: Threads + Sync>(
    rt: &R,
    alloc: Global,
    asked: &Asked<'_>,
    named: &[bool],
    start: Vec<Locking>,
    known: &Known<'_>,
    most: u32,
    steps: &mut Vec<SpaceFigures>,
) -> Result<(), AllocError>
    requires count { length start.items ≡ length asked.now.layout.now.spaces }
    requires counted { length named.now ≡ length start.items }
    requires named { AreNamed asked.now.trace.now.messages named.now }
    requires known { IsKnown asked.now known.now }
    ensures { OnOk result (AreMore asked.now.wanted.now asked.now.layout.now asked.now.trace.now most start.items
        steps.old.items steps.new.items) }
{
    let mut lockings = start;
    for _ in 0..most {
        match next_step(rt, alloc, asked, named, &lockings, known)? {
            Some(step) => {
                lockings[step.space as usize] = asked.wanted.kind;
                steps.push(step)?;
            }
            None => return Ok(()),
        }
    }
    Ok(())
}

/// The first of the candidates beside these locks, if there is one.
fn next_step<R: Threads + Sync>(
    rt: &R,
    alloc: Global,
    asked: &Asked<'_>,
    named: &[bool],
    lockings: &[Locking],
    known: &Known<'_>,
) -> Result<Option<SpaceFigures>, AllocError>
    requires count { length lockings.now ≡ length asked.now.layout.now.spaces }
    requires counted { length named.now ≡ length lockings.now }
    requires named { AreNamed asked.now.trace.now.messages named.now }
    requires known { IsKnown asked.now known.now }
    ensures { IfOk result (IsNext asked.now.wanted.now asked.now.layout.now asked.now.trace.now lockings.now) }
{
    // Its contract tells `IsLayout`.
    let _spaces = asked.layout.space_count();
    let left = candidates(alloc, asked.wanted.kind, lockings, named)?;
    if left.is_empty() {
        return Ok(None);
    }
    let tried = try_each(rt, alloc, asked, lockings, &left, known)?;
    Ok(Some(first_of(&tried)))
}

/// The first of these.
fn first_of(tried: &[SpaceFigures]) -> SpaceFigures
    requires { 0 < length tried.now }
    ensures among { Contains tried.now result }
    ensures first { All (λ other. ¬ ComesBefore other result) tried.now }
{
    let mut first = tried[0];
    for i in 1..tried.len() {
        first = earlier(first, tried[i]);
    }
    first
}

/// The second of both where it comes before the first, else the first.
fn earlier(first: SpaceFigures, other: SpaceFigures) -> SpaceFigures
    ensures is { (result ≡ first) ⊎ ((result ≡ other) × ComesBefore other first) }
    ensures none { ¬ ComesBefore other result }
{
    if comes_before(&other, &first) {
        other
    } else {
        first
    }
}

/// Whether one comes before the other.
fn comes_before(one: &SpaceFigures, other: &SpaceFigures) -> bool
    ensures { IsTrue result ↔ ComesBefore one.now other.now }
{
    let (a, b) = (&one.figures, &other.figures);
    let space = less_or(u64::from(one.space), u64::from(other.space), false);
    let uses = wide_less_or(a.uses(), b.uses(), space);
    let longest = less_or(a.tree.max(a.locks), b.tree.max(b.locks), uses);
    let order = less_or(a.order, b.order, longest);
    less_or(a.told_length(), b.told_length(), order)
}

/// Whether one number is less, or where both are the same this.
fn less_or(one: u64, other: u64, same: bool) -> bool
    ensures { IsTrue result ↔ ((one < other) ⊎ ((one ≡ other) × IsTrue same)) }
{
    wide_less_or(u128::from(one), u128::from(other), same)
}

/// The same of wider numbers.
fn wide_less_or(one: u128, other: u128, same: bool) -> bool
    ensures { IsTrue result ↔ ((one < other) ⊎ ((one ≡ other) × IsTrue same)) }
{
    if one == other { same } else { one < other }
}
