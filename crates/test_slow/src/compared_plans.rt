//! Plans of random traces, beside those of the plain slow programs.

use crate::compared_clients::{listed, unlimited};
use crate::dice::Dice;
use crate::lists::{Started, finished};
use crate::pairs::{depth, needed, ordered, paths};
use crate::plans::{Work, times_of};
use crate::same::{are_same, are_same_numbers, is_at_most, is_same};
use crate::traces::{HIERARCHIES, MESSAGES, TRACES, random_trace};
use crate::{lists, plans};
use std::alloc::{AllocError, Global};
use std::process::Abort;
use waff_assign::{Case, assign};
use waff_list::{Rule, WorkerPlan};
use waff_model::Tree;
use waff_order::predecessors::needs;
use waff_plan::{Chain, Plan};
use waff_read::{read_hierarchy, read_trace};

/// Numbers of workers.
pub const WORKERS: [u32; 4] = [1, 2, 3, 64];

pub const RULES: [Rule; 2] = [Rule::Arrival, Rule::Longest];

/// When each message of the plan starts.
pub fn starts(alloc: Global, plan: &Plan) -> Result<Vec<u64>, AllocError> {
    let mut starts = Vec::new(alloc);
    for m in 1..plan.len() + 1 {
        starts.push(plan.start(m))?;
    }
    Ok(starts)
}

/// The plan has to be that of these starts, and the chain the printed one.
fn is_of(rt: &impl Abort, alloc: Global, work: &Work, wanted: &[u64], plan: &Plan, chain: &Chain) {
    let found = starts(alloc, plan).expect(rt, "starts");
    are_same(rt, work.number, "starts", &found, wanted);
    let finishes = plans::finishes(alloc, &work.times, wanted).expect(rt, "finishes");
    let length = finishes
        .iter()
        .fold(0, |most: u64, finish| most.max(*finish));
    is_same(rt, work.number, "length", plan.length(), length);
    let wanted = plans::chain(alloc, work, wanted).expect(rt, "a chain");
    are_same_numbers(rt, work.number, "chain", chain.messages(), &wanted);
    let (cost, release) = plans::cost_and_release(work, &wanted);
    is_same(rt, work.number, "cost", chain.cost(), cost);
    is_same(rt, work.number, "release", chain.release(), release);
}

/// The messages in the order in which k workers start them by this rule.
fn started(alloc: Global, work: &Work, rule: Rule, k: u32) -> Result<Vec<Started>, AllocError> {
    let priorities = match rule {
        Rule::Arrival => lists::arrivals(alloc, work)?,
        Rule::Longest => lists::tails(alloc, work)?,
    };
    lists::list(alloc, work, &priorities, k)
}

/// The plan has to be the list plan of the work by this rule, and that of the work with needs for
/// pairs, and the chain that of all ordered pairs.
fn is_list(
    rt: &impl Abort,
    alloc: Global,
    works: (&Work, &Work),
    rule: Rule,
    made: &WorkerPlan,
    chain: &Chain,
) {
    let (work, needed) = works;
    let started_by_all = started(alloc, work, rule, made.workers()).expect(rt, "a plan");
    let starts = lists::starts(alloc, &started_by_all, work.times.len()).expect(rt, "starts");
    let again = started(alloc, needed, rule, made.workers()).expect(rt, "a plan");
    let again = lists::starts(alloc, &again, work.times.len()).expect(rt, "starts");
    are_same(rt, work.number, "starts by needs", &again, &starts);
    is_of(rt, alloc, work, &starts, made.plan(), chain);
    is_filled(rt, alloc, work.number, made, &started_by_all);
    obeys(rt, work, &started_by_all, made.workers());
    let total = work
        .times
        .iter()
        .fold(0, |sum: u64, it| sum.saturating_add(it.cost));
    is_within_bound(rt, work.number, made, total, chain);
}

/// The messages have to start in this order, each on its worker.
pub fn is_filled(
    rt: &impl Abort,
    alloc: Global,
    number: u32,
    made: &WorkerPlan,
    started: &[Started],
) {
    let order = lists::order(alloc, started).expect(rt, "an order");
    are_same_numbers(rt, number, "order", made.order(), &order);
    let seats = lists::seats(alloc, started, started.len()).expect(rt, "seats");
    are_same_numbers(rt, number, "workers", made.seats(), &seats);
}

/// No message may start before its release or before one for which it waits has finished, and no
/// more than k may run at once.
fn obeys(rt: &impl Abort, work: &Work, started: &[Started], k: u32) {
    for it in started {
        assert!(rt;
            waits(work, started, *it),
            "trace {}: {}",
            work.number,
            it.message
        );
        is_at_most(
            rt,
            work.number,
            "running",
            running(started, it.start),
            u64::from(k),
        );
    }
}

/// Whether a message starts at its release or later, when all for which it waits have finished.
fn waits(work: &Work, started: &[Started], it: Started) -> bool {
    let at = it.message.wrapping_sub(1) as usize;
    match (work.pairs.get(at), work.times.get(at)) {
        (Some(set), Some(times)) => {
            *set & !finished(started, it.start) == 0 && times.release <= it.start
        }
        _ => false,
    }
}

/// How many messages run at this tick.
fn running(started: &[Started], tick: u64) -> u64 {
    started
        .iter()
        .filter(|it| it.start <= tick && tick < it.finish)
        .count() as u64
}

/// The plan of messages of this total has to be within the bound of its chain.
pub fn is_within_bound(rt: &impl Abort, number: u32, made: &WorkerPlan, total: u64, chain: &Chain) {
    let k = u64::from(made.workers());
    let right = total
        .saturating_add(k.saturating_mul(chain.release()))
        .saturating_add(k.saturating_sub(1).saturating_mul(chain.cost()));
    let left = k.saturating_mul(made.plan().length());
    is_at_most(rt, number, "bound", left, right);
}

/// The messages from which paths through the needs lead to a message have to be those from which
/// paths of all ordered pairs do, and the needs have to be few.
fn lead_as_far(rt: &impl Abort, alloc: Global, work: &Work, needed: &[u64], tree: &Tree) {
    let found = paths(alloc, needed).expect(rt, "paths");
    let wanted = paths(alloc, &work.pairs).expect(rt, "paths");
    are_same(rt, work.number, "paths", &found, &wanted);
    let count = needed
        .iter()
        .fold(0, |sum: u32, set| sum.saturating_add(set.count_ones()));
    let most = u64::from(MESSAGES) * (u64::from(depth(tree)) + 1);
    is_at_most(rt, work.number, "needs", u64::from(count), most);
}

/// The plan without a limit has to be the least one.
fn is_least(rt: &impl Abort, alloc: Global, work: &Work, case: &Case<'_>) {
    let found = unlimited(alloc, case).expect(rt, "a plan");
    let starts = plans::least(alloc, work).expect(rt, "starts");
    is_of(rt, alloc, work, &starts, &found.plan, &found.chain);
}

/// All plans of the trace have to be those of the slow programs.
fn agree(rt: &impl Abort, alloc: Global, number: u32, hierarchy: &str, trace: &str) {
    let layout = read_hierarchy(alloc, hierarchy.as_bytes()).expect(rt, "a hierarchy");
    let trace = read_trace(alloc, &layout, trace.as_bytes()).expect(rt, "a trace");
    assert!(rt; !trace.version().has_clients());
    let assigned = assign(alloc, &layout, &trace).expect(rt, "affinities");
    let needs = needs(alloc, layout.tree(), &assigned).expect(rt, "needs");
    let pairs = ordered(alloc, layout.tree(), &assigned).expect(rt, "pairs");
    let work = Work {
        number,
        pairs,
        times: times_of(alloc, &trace).expect(rt, "times"),
    };
    let needed = Work {
        number,
        pairs: needed(alloc, &needs).expect(rt, "pairs"),
        times: times_of(alloc, &trace).expect(rt, "times"),
    };
    lead_as_far(rt, alloc, &work, &needed.pairs, layout.tree());
    let case = Case {
        tree: layout.tree(),
        assigned: &assigned,
        trace: &trace,
    };
    is_least(rt, alloc, &work, &case);
    for k in WORKERS {
        assert!(rt; 1 <= k && k <= 64);
        for rule in RULES {
            let found = listed(alloc, &case, rule, k).expect(rt, "a plan");
            is_list(rt, alloc, (&work, &needed), rule, &found.made, &found.chain);
        }
    }
    drop(needs);
    drop(assigned);
    drop(trace);
    drop(layout);
}

#[test]
fn are_those_of_all_pairs(rt: HostRuntime) {
    let mut dice = Dice::new(1);
    for number in 0..TRACES {
        let trace = random_trace(rt.alloc(), &mut dice, number % 3 == 0).expect(&rt, "a trace");
        for hierarchy in HIERARCHIES {
            agree(&rt, rt.alloc(), number, hierarchy, trace.as_str());
        }
    }
}
