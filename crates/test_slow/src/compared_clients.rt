//! Plans of random traces of clients, beside those of the plain slow programs.

ghost use Rattle.std.specs.Prelude.{◌≡◌, IfOk, length};
ghost use Rattle.waff_plan.specs.Bound.{IsWorkers};

use crate::by_issue::{Request, requests};
use crate::compared_plans::{RULES, WORKERS, is_filled, is_within_bound, starts};
use crate::dice::Dice;
use crate::plans::greatest;
use crate::same::{are_same, are_same_numbers, is_same};
use crate::traces::{HIERARCHIES, TRACES, random_clients};
use crate::{by_issue, lists};
use std::alloc::{AllocError, Global};
use std::process::Abort;
use waff_assign::{Case, assign};
use waff_list::{Rule, WorkerPlan, list_plan_of};
use waff_plan::printed::chain;
use waff_plan::unlimited::plan;
use waff_plan::{Chain, Plan};
use waff_read::{read_hierarchy, read_trace};

/// A plan without a limit, with its printed chain.
#[derive(Drop)]
pub struct ShownPlan {
    pub plan: Plan,
    pub chain: Chain,
}

/// A plan for k workers, with its printed chain.
#[derive(Drop)]
pub struct ShownListPlan {
    pub made: WorkerPlan,
    pub chain: Chain,
}

pub fn unlimited(alloc: Global, case: &Case<'_>) -> Result<ShownPlan, AllocError> {
    let plan = plan(alloc, case.tree, case.assigned, case.trace)?;
    let chain = chain(alloc, case.tree, case.assigned, &plan)?;
    Ok(ShownPlan { plan, chain })
}

pub fn listed(
    alloc: Global,
    case: &Case<'_>,
    rule: Rule,
    k: u32,
) -> Result<ShownListPlan, AllocError>
    requires { IsWorkers k }
    ensures { IfOk result (λ found. found.made.workers ≡ k) }
{
    let made = list_plan_of(alloc, *case, rule, k)?;
    let plan = made.plan();
    let chain = chain(alloc, case.tree, case.assigned, plan)?;
    Ok(ShownListPlan { made, chain })
}

/// The plan has to be that of these starts, and the chain the printed one.
fn is_of(
    rt: &impl Abort,
    alloc: Global,
    number: u32,
    requests: &[Request],
    wanted: &[u64],
    plan: &Plan,
    chain: &Chain,
) {
    let found = starts(alloc, plan).expect(rt, "starts");
    are_same(rt, number, "starts", &found, wanted);
    let (last, length) = end(alloc, requests, wanted).expect(rt, "finishes");
    is_same(rt, number, "length", plan.length(), length);
    let wanted = by_issue::chain(alloc, requests, wanted, last).expect(rt, "a chain");
    are_same_numbers(rt, number, "chain", chain.messages(), &wanted);
    let (cost, release) = by_issue::cost_and_release(requests, &wanted);
    is_same(rt, number, "cost", chain.cost(), cost);
    is_same(rt, number, "release", chain.release(), release);
}

/// The first message that finishes last, and its finish, where the messages start at these ticks.
fn end(
    alloc: Global,
    requests: &[Request],
    starts: &[u64],
) -> Result<(Option<u32>, u64), AllocError> {
    let mut finishes = Vec::new(alloc);
    for (it, start) in requests.iter().zip(starts) {
        finishes.push(start.saturating_add(it.cost))?;
    }
    match greatest(&finishes, u64::MAX) {
        Some((last, finish)) => Ok((Some(last), finish)),
        None => Ok((None, 0)),
    }
}

/// The plan without a limit is that for as many workers as messages, and its chain is as long.
fn is_unlimited(
    rt: &impl Abort,
    alloc: Global,
    number: u32,
    case: &Case<'_>,
    requests: &[Request],
) {
    let found = unlimited(alloc, case).expect(rt, "a plan");
    let started = by_issue::list(alloc, requests, &[], 64).expect(rt, "a plan");
    let wanted = lists::starts(alloc, &started, requests.len()).expect(rt, "starts");
    is_of(
        rt,
        alloc,
        number,
        requests,
        &wanted,
        &found.plan,
        &found.chain,
    );
    let length = found.chain.release().saturating_add(found.chain.cost());
    is_same(rt, number, "chain", found.plan.length(), length);
}

/// The plan has to be the list plan by this rule, within the bound of its chain.
fn is_listed(
    rt: &impl Abort,
    alloc: Global,
    number: u32,
    case: &Case<'_>,
    requests: &[Request],
    rule: Rule,
    k: u32,
)
    requires { IsWorkers k }
{
    let found = listed(alloc, case, rule, k).expect(rt, "a plan");
    let made = &found.made;
    let priorities = match rule {
        Rule::Arrival => Vec::new(alloc),
        Rule::Longest => by_issue::tails(alloc, requests).expect(rt, "tails"),
    };
    let started = by_issue::list(alloc, requests, &priorities, k).expect(rt, "a plan");
    let starts = lists::starts(alloc, &started, requests.len()).expect(rt, "starts");
    is_of(
        rt,
        alloc,
        number,
        requests,
        &starts,
        made.plan(),
        &found.chain,
    );
    is_filled(rt, alloc, number, made, &started);
    let total = requests
        .iter()
        .fold(0, |sum: u64, it| sum.saturating_add(it.cost));
    is_within_bound(rt, number, made, total, &found.chain);
}

/// All plans of the trace have to be those of the slow programs.
fn agree(rt: &impl Abort, alloc: Global, number: u32, hierarchy: &str, trace: &str) {
    let layout = read_hierarchy(alloc, hierarchy.as_bytes()).expect(rt, "a hierarchy");
    let trace = read_trace(alloc, &layout, trace.as_bytes()).expect(rt, "a trace");
    let assigned = assign(alloc, &layout, &trace).expect(rt, "affinities");
    let case = Case {
        tree: layout.tree(),
        assigned: &assigned,
        trace: &trace,
    };
    let all = requests(alloc, case.tree, case.assigned, case.trace).expect(rt, "messages");
    is_unlimited(rt, alloc, number, &case, &all);
    for k in WORKERS {
        assert!(rt; 1 <= k && k <= 64);
        for rule in RULES {
            is_listed(rt, alloc, number, &case, &all, rule, k);
        }
    }
    drop(all);
    drop(assigned);
    drop(trace);
    drop(layout);
}

#[test]
fn are_those_of_each_tick(rt: HostRuntime) {
    let mut dice = Dice::new(3);
    for number in 0..TRACES {
        let trace = random_clients(rt.alloc(), &mut dice).expect(&rt, "a trace");
        for hierarchy in HIERARCHIES {
            agree(&rt, rt.alloc(), number, hierarchy, trace.as_str());
        }
    }
}
