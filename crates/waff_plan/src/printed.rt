//! The printed chain of a plan.

ghost use Rattle.std.specs.Prelude.{◌≡◌, ◌+◌, ◌<◌, true, length, All, IfOk, MatchOption, OnOk};
ghost use Rattle.waff_model.specs.Versions.{has_clients};
ghost use Rattle.waff_plan.specs.Chain.{IsChain, IsLatest, IsListed, IsPrinted};
ghost use Rattle.waff_plan.specs.Chain.{chain_cost, chain_release};
ghost use Rattle.waff_plan.specs.Links.{AreLinks};
ghost use Rattle.waff_plan.specs.Obeys.{IsLeast, Obeys};
ghost use Rattle.waff_plan.specs.Work.{IsNumber, finish_of, length_of};
ghost use Rattle.waff_plan.specs.ServesAs.{ObeysApart};
ghost use Rattle.waff_plan.specs.Serving.{served_in, started_in};
ghost use Rattle.waff_plan.specs.Timetable.{IsTimetable, work_in, starts_in};
ghost use Rattle.waff_assign.specs.Held.{AreKnown};

use crate::latest::{Found, Latest};
use crate::totals::{cost_of, release_of};
use crate::waits::{Since, waits};
use crate::{Chain, Plan};
use std::alloc::{AllocError, Global};
use waff_assign::Assigned;
use waff_model::Tree;
use waff_model::spans::Later;

/// The printed chain of the plan: it ends with the latest message, and before each message stands
/// the latest of those that it waited for, until one waited for its release alone. In the unlimited
/// plan its release plus its cost is the length. A plan of a trace with clients has to obey.
pub fn chain(
    alloc: Global,
    tree: &Tree,
    assigned: &Assigned,
    plan: &Plan,
) -> Result<Chain, AllocError>
    requires lengths { length plan.now.timings ≡ length assigned.now }
    requires known { AreKnown tree.now assigned.now }
    requires served { has_clients plan.now.version ≡ true → Obeys (served_in tree.now assigned.now plan.now)
        (work_in plan.now) (starts_in plan.now) }
    ensures printed { IfOk result (λ chain. IsPrinted (started_in tree.now assigned.now plan.now)
        (work_in plan.now) (starts_in plan.now) chain.messages) }
    ensures chain { IfOk result (λ chain.
        IsChain (started_in tree.now assigned.now plan.now) (work_in plan.now)
        chain.messages) }
    ensures listed { IfOk result (λ chain. IsListed (length plan.now.timings) chain.messages) }
    ensures cost { IfOk result (λ chain.
        chain.cost ≡ chain_cost (work_in plan.now) chain.messages) }
    ensures release { IfOk result (λ chain.
        chain.release ≡ chain_release (work_in plan.now) chain.messages) }

    // The certificate of the unlimited plan.
    ensures as_long { IfOk result (λ chain.
        IsLeast (started_in tree.now assigned.now plan.now)
        (work_in plan.now) (starts_in plan.now)
        → chain.release + chain.cost
        ≡ length_of (work_in plan.now) (starts_in plan.now)) }
{
    let _messages = plan.len();
    let links = waits(alloc, tree, assigned, plan, Since::Release)?;
    linked_chain(alloc, tree, assigned, plan, links.as_slice())
}

/// The messages of the same chain, of a plan that obeys in some order: where the trace has clients that need not be the
/// order in which it issues them.
pub fn started_chain(
    alloc: Global,
    tree: &Tree,
    assigned: &Assigned,
    plan: &Plan,
) -> Result<Vec<u32>, AllocError>
    requires lengths { length plan.now.timings ≡ length assigned.now }
    requires known { AreKnown tree.now assigned.now }
    requires apart { has_clients plan.now.version ≡ true → ObeysApart tree.now assigned.now
        (work_in plan.now) (starts_in plan.now) }
    ensures printed { IfOk result (λ chain. IsPrinted (started_in tree.now assigned.now plan.now)
        (work_in plan.now) (starts_in plan.now) chain.items) }
    ensures chain { IfOk result (λ chain.
        IsChain (started_in tree.now assigned.now plan.now) (work_in plan.now) chain.items) }
    ensures listed { IfOk result (λ chain. IsListed (length plan.now.timings) chain.items) }
{
    let links = waits(alloc, tree, assigned, plan, Since::Release)?;
    walk(alloc, tree, assigned, plan, links.as_slice())
}

/// The same chain, where the links of the plan are known.
pub fn linked_chain(
    alloc: Global,
    tree: &Tree,
    assigned: &Assigned,
    plan: &Plan,
    links: &[Option<u32>],
) -> Result<Chain, AllocError>
    requires lengths { length plan.now.timings ≡ length assigned.now }
    requires served { has_clients plan.now.version ≡ true → Obeys (served_in tree.now assigned.now plan.now)
        (work_in plan.now) (starts_in plan.now) }
    requires count { length links.now ≡ length plan.now.timings }
    requires links { AreLinks (started_in tree.now assigned.now plan.now)
        (work_in plan.now) (starts_in plan.now) (length plan.now.timings) links.now }
    ensures printed { IfOk result (λ chain. IsPrinted (started_in tree.now assigned.now plan.now)
        (work_in plan.now) (starts_in plan.now) chain.messages) }
    ensures chain { IfOk result (λ chain.
        IsChain (started_in tree.now assigned.now plan.now) (work_in plan.now)
        chain.messages) }
    ensures listed { IfOk result (λ chain. IsListed (length plan.now.timings) chain.messages) }
    ensures cost { IfOk result (λ chain.
        chain.cost ≡ chain_cost (work_in plan.now) chain.messages) }
    ensures release { IfOk result (λ chain.
        chain.release ≡ chain_release (work_in plan.now) chain.messages) }
    ensures as_long { IfOk result (λ chain.
        IsLeast (started_in tree.now assigned.now plan.now)
        (work_in plan.now) (starts_in plan.now)
        → chain.release + chain.cost
        ≡ length_of (work_in plan.now) (starts_in plan.now)) }
{
    let _messages = plan.len();
    let messages = walk(alloc, tree, assigned, plan, links)?;
    let cost = cost_of(plan, messages.as_slice());
    let release = release_of(plan, messages.as_slice());
    Ok(Chain::new(messages, cost, release))
}

/// The messages of the chain: from the latest one back by the links.
fn walk(
    alloc: Global,
    tree: &Tree,
    assigned: &Assigned,
    plan: &Plan,
    links: &[Option<u32>],
) -> Result<Vec<u32>, AllocError>
    requires lengths { length plan.now.timings ≡ length assigned.now }
    requires apart { has_clients plan.now.version ≡ true → ObeysApart tree.now assigned.now
        (work_in plan.now) (starts_in plan.now) }
    requires count { length links.now ≡ length plan.now.timings }
    requires links { AreLinks (started_in tree.now assigned.now plan.now)
        (work_in plan.now) (starts_in plan.now) (length plan.now.timings) links.now }
    ensures printed { IfOk result (λ chain. IsPrinted (started_in tree.now assigned.now plan.now)
        (work_in plan.now) (starts_in plan.now) chain.items) }
    ensures chain { IfOk result (λ chain.
        IsChain (started_in tree.now assigned.now plan.now) (work_in plan.now) chain.items) }
    ensures listed { IfOk result (λ chain. IsListed (length plan.now.timings) chain.items) }
{
    let _messages = plan.len();
    let mut messages = Vec::new(alloc);
    let mut next = last(plan);
    while let Some(message) = next {
        messages.push(message)?;
        next = links[message as usize - 1];
    }
    messages.reverse();
    Ok(messages)
}

/// The latest message of the plan.
fn last(plan: &Plan) -> Option<u32>
    ensures { MatchOption result (length plan.now.timings ≡ 0)
        (IsLatest (IsNumber (work_in plan.now))
        (finish_of (work_in plan.now) (starts_in plan.now))) }
{
    let mut last = Found::none();
    for m in 1..plan.len() + 1 {
        let finish = plan.finish(m);
        last = last.later(Found::one(Latest { finish, number: m }));
    }
    match last.message() {
        Some(latest) => Some(latest.number),
        None => None,
    }
}
