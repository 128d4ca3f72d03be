//! Whether of the messages of a plan that exclude each other, one after another in some sequence,
//! the later start when the earlier have finished.

ghost use Rattle.std.specs.Prelude.{◌≡◌, ◌<◌, ◌≤◌, ◌↔◌, ℕ, List, length, option_map, None};
ghost use Rattle.std.specs.Prelude.{IfOk, IfSome, IsTrue};
ghost use Rattle.waff_model.specs.Numbers.{IsAmongFirst};
ghost use Rattle.waff_assign.specs.Case.{pairs_of};
ghost use Rattle.waff_plan.specs.ByStart.{AreMessages, walk_of};
ghost use Rattle.waff_plan.specs.Keeps.{KeepsPairs};
ghost use Rattle.waff_plan.specs.Obeys.{IsAmong, KeepsOrder};
ghost use Rattle.waff_plan.specs.Planned.{planned_starts, planned_work};
ghost use Rattle.waff_plan.specs.Table.{IsLatestExcluding, IsTable};

use crate::Planned;
use crate::latest::Latest;
use crate::sequence::{Started, number_at};
use crate::table::Table;
use std::alloc::{AllocError, Global};

/// Which pairs of messages are looked at, by the numbers of the two.
#[derive(Clone, Copy)]
pub(crate) struct Pairs {
    /// The first number of the earlier one.
    pub from: u32,
    /// Its last number.
    pub to: u32,
    /// The last number of the later one.
    pub last: u32,
}

impl Pairs {
    /// Whether message `m` may be the earlier one.
    fn notes(&self, m: u32) -> bool
        ensures { IsTrue result ↔ (self.now.from ≤ m) × (m ≤ self.now.to) }
    {
        self.from <= m && m <= self.to
    }
}

/// Whether each message starts only when every earlier one of the first `count` that excludes it
/// has finished. Each message is looked at once.
pub fn keeps_order(alloc: Global, planned: &Planned<'_>, count: u32) -> Result<bool, AllocError>
    ensures { IfOk result (λ kept. IsTrue kept
        ↔ KeepsOrder (IsAmong count (pairs_of planned.now.case))
        (planned_work planned.now) (planned_starts planned.now)) }
{
    let pairs = Pairs {
        from: 1,
        to: count,
        last: planned.plan.len(),
    };
    keeps(alloc, planned, &None, pairs)
}

/// Whether of each of these pairs in a sequence of the messages the later starts only when the
/// earlier has finished, where the two exclude each other. Each message is looked at once, with the
/// latest of those that were noted before it.
pub(crate) fn keeps(
    alloc: Global,
    planned: &Planned<'_>,
    sequence: &Option<Vec<Started>>,
    pairs: Pairs,
) -> Result<bool, AllocError>
    requires sequence { AreMessages (planned_work planned.now).count
        (walk_of (planned_work planned.now).count (option_map (λ list. list.items) sequence.now)) }
    ensures { IfOk result (λ kept. IsTrue kept ↔ KeepsPairs planned.now.case.tree.now
        planned.now.case.assigned.now (planned_work planned.now) (planned_starts planned.now)
        (walk_of (planned_work planned.now).count (option_map (λ list. list.items) sequence.now))
        pairs) }
{
    let plan = planned.plan;
    let mut table = Table::new(alloc, planned.case.tree, planned.case.assigned)?;
    for place in 0..plan.len() {
        let m = number_at(sequence, place);
        if !is_finished_by(latest_for(&table, m, pairs.last), plan.start(m)) {
            return Ok(false);
        }
        if pairs.notes(m) {
            let finish = plan.finish(m);
            table.note(Latest { finish, number: m });
        }
    }
    Ok(true)
}

/// The latest message that excludes message `m`, where `m` is one of the first `last`.
fn latest_for(table: &Table<'_>, m: u32, last: u32) -> Option<Latest>
    requires number { IsAmongFirst (length table.now.assigned) m }
    ensures latest { m ≤ last
        → (finish : ℕ → ℕ) (noted : List ℕ) → IsTable finish noted table.now
        → IsLatestExcluding table.now.tree table.now.assigned finish noted m result }
    ensures none { last < m → result ≡ None }
{
    if m <= last { table.latest(m) } else { None }
}

/// Whether the message, where there is one, has finished by a tick.
fn is_finished_by(latest: Option<Latest>, tick: u64) -> bool
    ensures { IsTrue result ↔ IfSome latest (λ l. l.finish ≤ tick) }
{
    match latest {
        Some(latest) => latest.finish <= tick,
        None => true,
    }
}
