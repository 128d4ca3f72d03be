//! One line of a summary, by kind.

ghost use Rattle.std.specs.Prelude.{◌≡◌, IfOk, IfSome};
ghost use Rattle.csv.specs.Records.{fields_of};
ghost use Rattle.waff_parse.specs.Fields.{two_of, three_of};
ghost use Rattle.waff_parse.specs.Stopping.{Gives};
ghost use Rattle.waff_plan.specs.Bound.{IsWorkers};
ghost use Rattle.waff_plan.specs.Chain.{IsListed};
ghost use Rattle.waff_plan_text.specs.Summaries as summaries;

use crate::field::{is_number, read_number};
use crate::refusal::Refusal;
use csv::StringRecord;
use std::alloc::Global;
use waff_model::limits::MAX_WORKERS;
use waff_parse::{Stop, cut, number_within, three_fields, two_fields};

/// Whether a record begins the summary.
pub(crate) fn begins_summary(row: &StringRecord) -> bool
    ensures { result ≡ summaries.begins_summary (fields_of row.now) }
{
    match row.get(0) {
        Some(first) => first == "workers",
        None => false,
    }
}

// The value of the line with this name.
fn value<'a>(name: &str, row: &'a StringRecord) -> Result<&'a str, Refusal>
    ensures { summaries.text_of result ≡ summaries.value_of name.now (two_of (fields_of row.now)) }
{
    match two_fields(row) {
        Some((first, value)) => {
            if first == name {
                Ok(value)
            } else {
                Err(Refusal::Summary)
            }
        }
        None => Err(Refusal::Summary),
    }
}

/// The number of workers, if the plan has workers.
pub(crate) fn workers(row: &StringRecord) -> Result<Option<u32>, Stop<Refusal>>
    ensures value { Gives (λ workers. workers) result
        (summaries.workers_line (fields_of row.now)) }
    ensures within { IfOk result (λ workers. IfSome workers IsWorkers) }
{
    let text = match value("workers", row) {
        Ok(text) => text,
        Err(refusal) => return Err(Stop::Fault(refusal)),
    };
    if text == "-" {
        return Ok(None);
    }
    match number_within(text, 1, u64::from(MAX_WORKERS)) {
        Some(workers) => Ok(Some(workers as u32)),
        None => Err(Stop::Fault(Refusal::Summary)),
    }
}

/// The number of the line with this name.
pub(crate) fn tick(name: &str, row: &StringRecord) -> Result<u64, Stop<Refusal>>
    ensures { Gives (λ n. n) result (summaries.tick_line name.now (fields_of row.now)) }
{
    let text = match value(name, row) {
        Ok(text) => text,
        Err(refusal) => return Err(Stop::Fault(refusal)),
    };
    if !is_number(text) {
        return Err(Stop::Fault(Refusal::Summary));
    }
    match read_number(text) {
        Ok(n) => Ok(n),
        Err(refusal) => Err(Stop::Fault(refusal)),
    }
}

// The numbers of a chain's messages, of which there are as many; there is at least one.
fn links(alloc: Global, messages: u32, text: &str) -> Result<Vec<u32>, Stop<Refusal>>
    ensures value { Gives (λ chain. chain.items) result (summaries.links_of messages text.now) }
    ensures within { IfOk result (λ chain. IsListed messages chain.items) }
{
    let mut chain = Vec::new(alloc);
    for link in text.split(' ') {
        match number_within(link, 1, u64::from(messages)) {
            Some(message) => chain.push(message as u32)?,
            None => return Err(Stop::Fault(Refusal::Summary)),
        }
    }
    if (messages as usize) < chain.len() {
        return Err(Stop::Fault(Refusal::Summary));
    }
    Ok(chain)
}

/// The messages of the chain, of as many messages.
pub(crate) fn chain(
    alloc: Global,
    messages: u32,
    row: &StringRecord,
) -> Result<Vec<u32>, Stop<Refusal>>
    ensures value { Gives (λ chain. chain.items) result
        (summaries.chain_line messages (fields_of row.now)) }
    ensures within { IfOk result (λ chain. IsListed messages chain.items) }
{
    let text = match value("chain", row) {
        Ok(text) => text,
        Err(refusal) => return Err(Stop::Fault(refusal)),
    };
    if text.is_empty() {
        return Ok(Vec::new(alloc));
    }
    links(alloc, messages, text)
}

/// The two sides of the bound.
pub(crate) fn bound(row: &StringRecord) -> Result<(u64, u64), Stop<Refusal>>
    ensures { Gives (λ sides. sides) result (summaries.bound_line (fields_of row.now)) }
{
    let Some((name, left, right)) = three_fields(row) else {
        return Err(Stop::Fault(Refusal::Summary));
    };
    if !is_bound(name, left, right) {
        return Err(Stop::Fault(Refusal::Summary));
    }
    let left = match read_number(left) {
        Ok(left) => left,
        Err(refusal) => return Err(Stop::Fault(refusal)),
    };
    match read_number(right) {
        Ok(right) => Ok((left, right)),
        Err(refusal) => Err(Stop::Fault(refusal)),
    }
}

fn is_bound(name: &str, left: &str, right: &str) -> bool
    ensures { result ≡ summaries.is_bound name.now left.now right.now }
{
    name == "bound" && is_number(left) && is_number(right)
}
