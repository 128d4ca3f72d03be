//! Plain slow programs, each written from a definition alone, and comparisons with what plans and
//! runs fast, on random traces.
//! - `dice`, `traces`: random traces, the same in each run, and the hierarchies.
//! - `pairs`: for each message the earlier ones that exclude it, by all pairs; paths.
//! - `plans`: the least plan and the printed chain; `lists`: the list plan by any priority, and tails.
//! - `by_issue`: plans of clients' messages, found anew at each tick, with their chains and tails.
//! - `machine`: the core machine; `cells`: what operations do.
//! - `compared_plans`, `compared_clients`, `compared_machines`: the comparisons, by `same`.
#![tactic(auto)]

#[cfg(test)]
mod by_issue;
#[cfg(test)]
mod cells;
#[cfg(test)]
mod compared_clients;
#[cfg(test)]
mod compared_machines;
#[cfg(test)]
mod compared_plans;
#[cfg(test)]
mod dice;
#[cfg(test)]
mod lists;
#[cfg(test)]
mod machine;
#[cfg(test)]
mod pairs;
#[cfg(test)]
mod plans;
#[cfg(test)]
mod same;
#[cfg(test)]
mod traces;
