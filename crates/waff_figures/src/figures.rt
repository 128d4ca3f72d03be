//! What is told of one plan.

ghost use Rattle.std.specs.Prelude.{◌≡◌, ◌^◌, ◌<◌, IfOk, IfSome, length, sum_by};
ghost use Rattle.std.specs.List.Sorted.{IsNonDecreasing, IsPermutation};
ghost use Rattle.waff_assign.specs.Case.{instance_of};
ghost use Rattle.waff_assign.specs.Instance.{Instance};
ghost use Rattle.waff_plan.specs.Bound.{IsWorkers};
ghost use Rattle.waff_plan.specs.Planned.{planned_starts, planned_work};
ghost use Rattle.waff_plan.specs.Timetable.{starts_in, work_in};
ghost use Rattle.waff_plan.specs.Work.{IsAmongFirst, Work, greatest, numbers};
ghost use Rattle.waff_figures.specs.Figures.{AreFigures, FiguresAreOne, LatenciesAddUp};
ghost use Rattle.waff_figures.specs.Figures.{latencies_of, latency_of, waits_of};
ghost use Rattle.waff_figures.specs.Least.{LeastIsLowerBound, OneIsShortest, OverIsUpperBound};
ghost use Rattle.waff_figures.specs.Least.{least_in, least_of};

use crate::limit::number_of;
use crate::percentile::percentile;
use std::alloc::{AllocError, Global};
use waff_plan::laws::{least_is_shortest, none_is_shorter};
use waff_plan::lower_bound::{lower_bound, none_is_below};
use waff_plan::{Plan, Planned, Workers};
use waff_plan_text::laws::ratio_up_is_upper_bound;

/// What is told of a plan, in ticks.
#[derive(Clone, Copy)]
pub struct Figures {
    /// The number of workers, none in a plan without a limit on them.
    pub workers: Option<u32>,
    /// How many messages there are.
    pub messages: u32,
    /// The sum of all costs.
    pub total: u64,
    pub length: u64,
    /// No plan that obeys is shorter, for as many workers; where messages are of clients, none that
    /// obeys in whatever order.
    pub least: u64,
    /// The sum over all messages of the time from the issue to the start. It may pass 64 bits, as
    /// 1,048,576 starts may be up to 10^15.
    pub waits: u128,
    /// The sum of the latencies: of the times from the issues to the finishes. It may pass 64
    /// bits too.
    pub latencies: u128,
    /// At least half of the messages have a latency of at most this.
    pub p50: u64,
    /// And 99 of 100.
    pub p99: u64,
    /// The greatest latency, 0 for no message.
    pub latency: u64,
}

/// The figures of a plan of a case for this number of workers or without a limit, where the unlimited
/// plan of the case is `shortest` long.
pub fn figures_of(
    alloc: Global,
    planned: &Planned<'_>,
    workers: Option<Workers>,
    shortest: u64,
) -> Result<Figures, AllocError>
    ensures { IfOk result (AreFigures workers (planned_work planned.now)
        (least_in workers (instance_of planned.now.case) shortest)
        (planned_starts planned.now)) }
{
    let workers = number_of(workers);
    let least = least(alloc, planned, workers, shortest)?;
    let plan = planned.plan;
    let sorted = sorted_latencies(alloc, plan)?;
    Ok(Figures {
        workers,
        messages: plan.len(),
        total: plan.total(),
        length: plan.length(),
        least,
        waits: sum_of_waits(plan),
        latencies: sum_of_latencies(plan),
        p50: percentile(sorted.as_slice(), 50),
        p99: percentile(sorted.as_slice(), 99),
        latency: greatest_latency(plan),
    })
}

/// A number of ticks that no plan of the case for as many workers is shorter than. The starts of the
/// plan at hand count for nothing.
fn least(
    alloc: Global,
    planned: &Planned<'_>,
    workers: Option<u32>,
    shortest: u64,
) -> Result<u64, AllocError>
    requires { IfSome workers IsWorkers }
    ensures { IfOk result (λ least.
        least ≡ least_in workers (instance_of planned.now.case) shortest) }
{
    let plan = planned.plan;
    if plan.version().has_clients() {
        lower_bound(alloc, planned, workers)
    } else {
        Ok(least_in_order(workers, plan.total(), shortest))
    }
}

/// The same of plans that obey the order of the trace.
fn least_in_order(workers: Option<u32>, total: u64, shortest: u64) -> u64
    requires { IfSome workers IsWorkers }
    ensures { result ≡ least_of workers total shortest }
{
    match workers {
        Some(k) => shortest.max(total.div_ceil(u64::from(k))),
        None => shortest,
    }
}

/// How long the messages wait in all, from their issues to their starts.
fn sum_of_waits(plan: &Plan) -> u128
    ensures { result ≡ waits_of (work_in plan.now) (starts_in plan.now) }
{
    let mut waits = 0;
    for n in 1..plan.len() + 1 {
        waits += u128::from(plan.start(n).saturating_sub(plan.issue(n)));
    }
    waits
}

/// How long message `n` takes from its issue to its finish, 0 where it finishes before that.
pub(crate) fn latency(plan: &Plan, n: u32) -> u64
    requires number { IsAmongFirst (length plan.now.timings) n }
    ensures latency { result ≡ latency_of (work_in plan.now) (starts_in plan.now) n }
    ensures small { result < 2 ^ 64 }
{
    plan.finish(n).saturating_sub(plan.issue(n))
}

/// The sum of the latencies.
fn sum_of_latencies(plan: &Plan) -> u128
    ensures { result ≡ sum_by
        (latency_of (work_in plan.now) (starts_in plan.now)) (numbers (work_in plan.now)) }
{
    let mut sum = 0;
    for n in 1..plan.len() + 1 {
        sum += u128::from(latency(plan, n));
    }
    sum
}

/// The greatest latency, 0 for no message.
fn greatest_latency(plan: &Plan) -> u64
    ensures { result ≡ greatest (latencies_of (work_in plan.now) (starts_in plan.now)) }
{
    let mut greatest = 0;
    for n in 1..plan.len() + 1 {
        greatest = latency(plan, n).max(greatest);
    }
    greatest
}

/// The latencies of all messages, from the least to the greatest.
fn sorted_latencies(alloc: Global, plan: &Plan) -> Result<Vec<u64>, AllocError>
    ensures same { IfOk result (λ sorted.
        IsPermutation (latencies_of (work_in plan.now) (starts_in plan.now)) sorted.items) }
    ensures sorted { IfOk result (λ sorted. IsNonDecreasing sorted.items) }
    ensures few { IfOk result (λ sorted. length sorted.items < 2 ^ 32) }
{
    let mut latencies = Vec::with_capacity(alloc, plan.len() as usize)?;
    for n in 1..plan.len() + 1 {
        latencies.push_reserved(latency(plan, n));
    }
    latencies.sort_unstable();
    Ok(latencies)
}

/// Where no message starts before its issue, the latencies are the waits and the costs: a function that
/// does nothing and whose contract is the law.
pub fn latencies_add_up()
    ensures sum { (work : Work) → LatenciesAddUp work }
{}

/// Two figures of plans with the same starts are equal. The laws below only call others.
pub fn figures_are_one()
    ensures equal { (work : Work) → FiguresAreOne work }
{}

/// No plan that obeys, for as many workers, is shorter than `least`.
pub fn least_is_lower_bound()
    ensures bound { (instance : Instance) → LeastIsLowerBound instance }
{
    least_is_shortest();
    none_is_shorter();
    none_is_below();
}

/// A plan is at most `over` times as long as any plan that obeys, for as many workers, where `over` is
/// as printed.
pub fn over_is_upper_bound()
    ensures bound { (instance : Instance) → OverIsUpperBound instance }
{
    ratio_up_is_upper_bound();
}

/// Where `over` is `1.00`, no plan that obeys, for as many workers, is shorter.
pub fn one_is_shortest()
    ensures shortest { (instance : Instance) → OneIsShortest instance }
{
    over_is_upper_bound();
}
