//! What can be told of a trace under a hierarchy.

use crate::grouping::{Columns, Grouping, Label};
use waff_list::Rule;
use waff_model::Locking;
use waff_plan::Workers;

/// What is asked of a trace under a hierarchy. Where a command takes a number of workers, none means
/// that there is no limit on them.
#[derive(Drop)]
pub enum Told {
    /// In which affinity each message runs.
    Assign,
    /// When each message starts and finishes, in the plan for this number of workers by this rule.
    Plan(Option<Workers>, Rule),
    /// For which earlier messages each message has to wait.
    Needs,
    /// How long the trace takes by this rule, for each of these numbers of workers, or for the usual
    /// ones.
    Sweep(Option<Vec<Workers>>, Rule),
    /// What limits the trace, also for each of these numbers of workers, by this rule.
    Limits(Option<Vec<Workers>>, Rule),
    /// Where the time goes, in the plan for this number of workers by this rule, by the names or the
    /// clients of messages, or without either by affinity.
    Where(Option<Workers>, Rule, Option<Label>, Columns),
    /// Who waits for whom, in the plan for this number of workers by this rule, by affinity or by the
    /// names of messages too.
    Waits(Option<Workers>, Rule, Grouping),
    /// So many messages of the greatest latency, in the plan for this number of workers by this rule.
    Worst(Option<Workers>, Rule, u32),
    /// Why messages run high in the tree, by their names too or not.
    Why(Grouping),
    /// Which spaces are worth locks of this kind, by the plan for this number of workers by this rule, in at most so
    /// many steps.
    Locks(Option<Workers>, Rule, Locking, u32),
}
