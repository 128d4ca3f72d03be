//! A plan that was given, with what it is a plan of.

ghost use Rattle.std.specs.Prelude.{◌≡◌, ◌<◌, ◌≤◌, length};
ghost use Rattle.waff_model.specs.Numbers.{IsAmongFirst};
ghost use Rattle.waff_plan.specs.Timetable.{timings_of};

use crate::say;
use crate::walk::push_line;
use crate::words::Words;
use std::alloc::{AllocError, Global};
use waff_assign::{Case, LockUse, exclude_each_other, footprint};
use waff_model::{AffinityId, Await, Cell, Layout, Message, Tree, Version};
use waff_plan::{Plan, Totals};
use waff_plan_text::{GivenPlan, Row};

/// A case, the plan that was given for it, the plan of its starts, and the bytes that give the plan.
#[derive(Clone, Copy)]
pub(crate) struct Hearing<'a> {
    pub(crate) case: Case<'a>,
    pub(crate) given: &'a GivenPlan,
    pub(crate) plan: &'a Plan,
    pub(crate) bytes: &'a [u8],
    ghost rows: { length given.now.rows ≡ length case.trace.now.messages },
    ghost timings: { plan.now.timings ≡ timings_of case.trace.now.messages },
    ghost lengths: { length plan.now.timings ≡ length case.trace.now.messages },
}

/// A message, the row that tells of it, and what else there is to tell: the name of its affinity, and
/// the tick at which the plan issues it.
#[derive(Clone, Copy)]
pub(crate) struct Heard<'a> {
    pub(crate) number: u32,
    pub(crate) message: &'a Message,
    pub(crate) row: &'a Row,
    pub(crate) affinity: &'a str,
    issue: u64,
}

impl<'a> Hearing<'a> {
    /// The message of this number.
    pub(crate) fn message(&self, number: u32) -> Heard<'a>
        requires { IsAmongFirst (length self.now.case.trace.now.messages) number }
    {
        Heard {
            number,
            message: self.case.trace.message(number),
            row: self.given.row(number),
            affinity: self.case.affinity_name(number),
            issue: self.plan.issue(number),
        }
    }

    /// The version of the trace.
    pub(crate) fn version(&self) -> Version {
        self.case.trace.version()
    }

    /// How many workers there are, 0 where the plan has none.
    pub(crate) fn workers(&self) -> u32 {
        self.given.workers().unwrap_or(0)
    }

    /// The totals that the starts of the rows and the chain of the summary make.
    pub(crate) fn totals(&self) -> Totals {
        self.plan.totals(self.given.workers(), self.given.chain())
    }

    /// Whether two messages exclude each other.
    pub(crate) fn exclude(&self, one: u32, other: u32) -> bool
        requires one { IsAmongFirst (length self.now.case.trace.now.messages) one }
        requires other { IsAmongFirst (length self.now.case.trace.now.messages) other }
    {
        let (tree, assigned) = (self.case.tree, self.case.assigned);
        exclude_each_other(tree, assigned, one, other)
    }

    /// Appends where the row of a message stands, and what there is to tell of the message.
    pub(crate) fn push_message(&self, words: &mut Words, heard: &Heard<'_>) {
        match format!(in words.alloc(); "{}", heard.number) {
            Ok(number) => push_line(words, self.bytes, number.as_str()),
            Err(_) => words.refuse(),
        }
        heard.push_facts(words, self.version());
    }

    /// Appends why two messages exclude each other: by their affinities, as one of them runs in the root, or
    /// by a lock.
    pub(crate) fn push_exclusion(&self, words: &mut Words, layout: &Layout, one: u32, other: u32)
        requires one { IsAmongFirst (length self.now.case.trace.now.messages) one }
        requires other { IsAmongFirst (length self.now.case.trace.now.messages) other }
    {
        let (tree, assigned) = (self.case.tree, self.case.assigned);
        match (assigned.affinity(one), assigned.affinity(other)) {
            (Some(first), Some(second)) if tree.excludes(first, second) => {
                push_why(words, tree, first, second);
            }
            (Some(first), _) if first == tree.root() => push_alone(words, tree, one, first),
            (_, Some(second)) if second == tree.root() => push_alone(words, tree, other, second),
            _ => self.push_lock(words, layout, one, other),
        }
    }

    /// Appends the first cell whose lock both messages use, one of them alone.
    fn push_lock(&self, words: &mut Words, layout: &Layout, one: u32, other: u32)
        requires one { IsAmongFirst (length self.now.case.trace.now.messages) one }
        requires other { IsAmongFirst (length self.now.case.trace.now.messages) other }
    {
        let assigned = self.case.assigned;
        let Some(place) = first_contended(assigned.uses(one), assigned.uses(other)) else {
            return;
        };
        match self.locked_cell(words.alloc(), layout, one, place) {
            Ok(Some(cell)) if layout.has(cell) => {
                let name = layout.space_name(cell.space as u32);
                say!(words; Why: "both use the lock of {}:{}, at least one of them alone",
                    name, cell.index);
            }
            Ok(_) => {}
            Err(_) => words.refuse(),
        }
    }

    /// The cell at this place, from 0, among those with locks that the message names, in order: the uses of locks
    /// by a message are in the same order.
    fn locked_cell(
        &self,
        alloc: Global,
        layout: &Layout,
        message: u32,
        place: usize,
    ) -> Result<Option<Cell>, AllocError>
        requires { IsAmongFirst (length self.now.case.trace.now.messages) message }
    {
        let cells = footprint(alloc, self.case.trace, message)?;
        let locked = cells
            .iter()
            .copied()
            .filter(|cell| layout.has(*cell) && layout.locking(*cell).are_some())
            .nth(place);
        drop(cells);
        Ok(locked)
    }
}

/// The place, from 0, of the first of these uses with one of the others on the same lock, one of the two alone. Both
/// are by the numbers of their locks.
fn first_contended(uses: &[LockUse], others: &[LockUse]) -> Option<usize> {
    let (mut place, mut other): (usize, usize) = (0, 0);
    for _ in 0..uses.len().saturating_add(others.len()) {
        let (Some(used), Some(theirs)) = (uses.get(place), others.get(other)) else {
            return None;
        };
        if used.lock == theirs.lock && (used.alone || theirs.alone) {
            return Some(place);
        }
        if used.lock <= theirs.lock {
            place = place.saturating_add(1);
        } else {
            other = other.saturating_add(1);
        }
    }
    None
}

/// Appends that a message runs in the root, which excludes all others.
fn push_alone(words: &mut Words, tree: &Tree, message: u32, root: AffinityId)
    requires root { root.0 < length tree.now }
{
    let name = tree.name(root);
    say!(words; Why: "message {} runs in {}, the root, and what runs there runs alone",
        message, name);
}

impl<'a> Heard<'a> {
    /// The start that the row tells.
    pub(crate) fn start(&self) -> u64 {
        self.row.start
    }

    /// The start and the cost of the message.
    pub(crate) fn end(&self) -> u64 {
        self.row.start.saturating_add(u64::from(self.message.cost))
    }

    /// Whether the message runs at a tick.
    pub(crate) fn runs_at(&self, tick: u64) -> bool {
        self.start() <= tick && tick < self.end()
    }

    /// From which tick to which the message and another one both run, where they do.
    pub(crate) fn together(&self, other: &Heard<'_>) -> (u64, u64) {
        (self.start().max(other.start()), self.end().min(other.end()))
    }

    /// Appends what there is to tell of the message: where messages have clients, also its client,
    /// and its list unless that is empty.
    pub(crate) fn push_facts(&self, words: &mut Words, version: Version) {
        let (message, row, number) = (self.message, self.row, self.number);
        let (name, client) = (message.name.as_str(), message.client.as_str());
        let (release, cost, think) = (message.release, message.cost, message.think);
        let (affinity, issue) = (self.affinity, self.issue);
        let (start, finish) = (row.start, row.finish);
        let Ok(list) = list_text(words.alloc(), message.after.as_slice()) else {
            return words.refuse();
        };
        let after = list.as_bytes();
        match (version.has_clients(), row.worker) {
            (true, Some(worker)) => say!(words; Message(number):
                "{}, affinity {}, release {}, cost {}, client {}, think {}{}, issue {}, start {}, \
                 finish {}, worker {}",
                name, affinity, release, cost, client, think, after, issue, start, finish, worker),
            (true, None) => say!(words; Message(number):
                "{}, affinity {}, release {}, cost {}, client {}, think {}{}, issue {}, start {}, \
                 finish {}",
                name, affinity, release, cost, client, think, after, issue, start, finish),
            (_, Some(worker)) => say!(words; Message(number):
                "{}, affinity {}, release {}, cost {}, start {}, finish {}, worker {}",
                name, affinity, release, cost, start, finish, worker),
            (_, None) => say!(words; Message(number):
                "{}, affinity {}, release {}, cost {}, start {}, finish {}",
                name, affinity, release, cost, start, finish),
        }
    }
}

/// A list as a trace spells it, behind what it is called; nothing where it is empty.
fn list_text(alloc: Global, list: &[Await]) -> Result<String, AllocError> {
    let mut text = String::new(alloc);
    for awaited in list {
        text.push_str(if text.is_empty() { ", after " } else { " " })?;
        match awaited.gap {
            0 => write!(text, "{}", awaited.message)?,
            gap => write!(text, "{}+{}", awaited.message, gap)?,
        }
    }
    Ok(text)
}

/// Appends why two affinities exclude each other.
fn push_why(words: &mut Words, tree: &Tree, first: AffinityId, second: AffinityId)
    requires first { first.0 < length tree.now }
    requires second { second.0 < length tree.now }
{
    if first == second {
        let name = tree.name(first);
        say!(words; Why: "both run in {}, and an affinity excludes itself", name);
    } else if tree.at_or_above(first, second) {
        push_way(words, tree, second, first);
    } else {
        push_way(words, tree, first, second);
    }
}

/// Appends that an affinity is below another, and the way in the tree from the one up to the other.
fn push_way(words: &mut Words, tree: &Tree, low: AffinityId, high: AffinityId)
    requires low { low.0 < length tree.now }
    requires high { high.0 < length tree.now }
{
    let (below, above) = (tree.name(low), tree.name(high));
    match way(words.alloc(), tree, low, high) {
        Ok(way) => say!(words; Why: "{} and {} exclude each other, as {} is below {}: {}",
            below, above, below, above, way.as_str()),
        Err(_) => words.refuse(),
    }
}

/// The way in the tree from an affinity up to one above it.
fn way(alloc: Global, tree: &Tree, low: AffinityId, high: AffinityId) -> Result<String, AllocError>
    requires low { low.0 < length tree.now }
    requires high { high.0 < length tree.now }
{
    let mut way = String::new(alloc);
    way.push_str(tree.name(low))?;
    for number in (0..low.0).rev() {
        let between = AffinityId(number);
        if tree.at_or_above(between, low) && tree.at_or_above(high, between) {
            way.push_str(" -> ")?;
            way.push_str(tree.name(between))?;
        }
    }
    Ok(way)
}
