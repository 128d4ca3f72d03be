//! Worked cases of what is read, made and planned: known answers from outside, for the samples and
//! for files and parts made by hand.
#![tactic(auto)]

#[cfg(test)]
mod affinities;
#[cfg(test)]
mod building;
#[cfg(test)]
mod changes;
#[cfg(test)]
mod clients;
#[cfg(test)]
mod faults;
#[cfg(test)]
mod hierarchies;
#[cfg(test)]
mod layouts;
#[cfg(test)]
mod limits;
#[cfg(test)]
mod long_traces;
#[cfg(test)]
mod parts;
#[cfg(test)]
mod paths;
#[cfg(test)]
mod plan_texts;
#[cfg(test)]
mod plans;
#[cfg(test)]
mod reading;
#[cfg(test)]
mod refinements;
#[cfg(test)]
mod running;
#[cfg(test)]
mod same;
#[cfg(test)]
mod traces;
#[cfg(test)]
mod trees;
#[cfg(test)]
mod words;
#[cfg(test)]
mod worker_plans;
#[cfg(test)]
mod writing;
