//! What the summary of a plan tells.

ghost use Rattle.std.specs.Prelude.{◌≡◌, ◌+◌, ◌*◌, ◌^◌, ◌<◌, ◌≤◌, IfSome, length};
ghost use Rattle.waff_plan.specs.Bound.{IsWorkers};
ghost use Rattle.waff_model.specs.declared.limits.TheConstants.{MAX_MESSAGES, MAX_THINK};
ghost use Rattle.waff_plan.specs.Chain.{IsListed, chain_cost, chain_release, gaps_in};
ghost use Rattle.waff_plan.specs.Totals.{totals_of};
ghost use Rattle.waff_plan.specs.Timetable.{work_in, starts_in};
ghost use Rattle.waff_plan.specs.Work.{IsAmongFirst, gap_of};

use crate::Plan;

/// What the summary of a plan tells of it and of a chain of its messages, in ticks.
#[derive(Clone, Copy, PartialEq)]
pub struct Totals {
    /// The sum of all costs.
    pub total: u64,
    /// The length of the plan.
    pub length: u64,
    /// The release of the chain.
    pub release: u64,
    /// The cost of the chain.
    pub cost: u64,
    /// Of a list plan and its printed chain this is at most `right`: the bound.
    pub left: u64,
    /// What `left` is compared with.
    pub right: u64,
}

impl Plan {
    /// The totals of the plan, for this number of workers or none, with a chain of its messages.
    pub fn totals(&self, workers: Option<u32>, chain: &[u32]) -> Totals
        requires workers { IfSome workers IsWorkers }
        requires listed { IsListed (length self.now.timings) chain.now }
        ensures totals { result
            ≡ totals_of workers (work_in self.now) (starts_in self.now) chain.now }
        ensures small { result.release + result.cost < 2 ^ 53 }
    {
        let total = self.total();
        let length = self.length();
        let release = release_of(self, chain);
        let cost = cost_of(self, chain);
        let (left, right) = match workers {
            None => (length, release + cost),
            Some(k) => {
                let k = u64::from(k);
                (k * length, total + k * release + (k - 1) * cost)
            }
        };
        Totals {
            total,
            length,
            release,
            cost,
            left,
            right,
        }
    }
}

/// The sum of the running times of the messages.
pub(crate) fn cost_of(plan: &Plan, chain: &[u32]) -> u64
    requires { IsListed (length plan.now.timings) chain.now }
    ensures cost { result ≡ chain_cost (work_in plan.now) chain.now }
    ensures small { result ≤ 2 ^ 52 }
{
    let _messages = plan.len();
    let mut cost = 0;
    for message in chain {
        cost += plan.cost(*message);
    }
    cost
}

/// The release of the chain: that of its first message and its gaps, 0 where there is no message.
pub(crate) fn release_of(plan: &Plan, chain: &[u32]) -> u64
    requires { IsListed (length plan.now.timings) chain.now }
    ensures release { result ≡ chain_release (work_in plan.now) chain.now }
    ensures small { result < 2 ^ 44 }
{
    match chain {
        [] => 0,
        [first, ..] => plan.release(*first) + gaps_of(plan, chain),
    }
}

/// The gaps between the messages of a chain.
fn gaps_of(plan: &Plan, chain: &[u32]) -> u64
    requires { IsListed (length plan.now.timings) chain.now }
    ensures gaps { result ≡ gaps_in (work_in plan.now) chain.now }
    ensures small { result ≤ MAX_THINK * MAX_MESSAGES }
{
    let _messages = plan.len();
    let mut gaps = 0;
    for place in 1..chain.len() {
        let gap = gap_between(plan, chain[place - 1], chain[place]);
        gaps += gap;
    }
    gaps
}

/// How many ticks after the finish of message `i` message `m` may start.
pub(crate) fn gap_between(plan: &Plan, i: u32, m: u32) -> u64
    requires some { 1 ≤ i }
    requires number { IsAmongFirst (length plan.now.timings) m }
    ensures gap { result ≡ gap_of (work_in plan.now) i m }
    ensures small { result ≤ MAX_THINK }
{
    let after = plan.after(m);
    let mut gap = 0;
    for k in (0..after.len()).rev() {
        if after[k].message == i {
            gap = u64::from(after[k].gap).max(gap);
        }
    }
    if plan.follows(m) == i {
        plan.think(m).max(gap)
    } else {
        gap
    }
}
