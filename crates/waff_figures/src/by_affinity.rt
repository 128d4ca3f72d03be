//! Where the time goes, by affinity.

ghost use Rattle.std.specs.Prelude.{◌≡◌, ◌<◌, ◌+◌, ◌∷◌, ◌++◌, ℕ, List, IfOk, OnOk, count_by, length, map};
ghost use Rattle.std.specs.Prelude.{slice_index_or, string_bytes};
ghost use Rattle.std.specs.List.{range_with_len};
ghost use Rattle.waff_model.specs.Tree.{parent_of};
ghost use Rattle.waff_plan.specs.Chain.{IsListed};
ghost use Rattle.waff_plan.specs.Planned.{planned_starts, planned_work};
ghost use Rattle.waff_plan.specs.Timetable.{starts_in, work_in};
ghost use Rattle.waff_plan.specs.Work.{length_of, numbers};
ghost use Rattle.waff_plan_text.specs.Lines.{Adds, line_text, text_of};
ghost use Rattle.waff_figures.specs.ByAffinity.{AreCostsBelow, affinities_header, affinity_numbers};
ghost use Rattle.waff_figures.specs.ByAffinity.{affinities_lines, none_figures_row, none_row};
ghost use Rattle.waff_figures.specs.ByAffinity.{parent_field, row_where, runs_in};
ghost use Rattle.waff_figures.specs.ByAffinity.{tallied_figures_row, tallied_row, tally_row};
ghost use Rattle.waff_figures.specs.Parts.{AreOfParts, AreTheParts, no_part, part_fields};
ghost use Rattle.waff_figures.specs.Parts.{part_names};
ghost use Rattle.waff_figures.specs.Tally.{is_in, no_tally};

use crate::below::costs_below;
use crate::fields::{PART, PartFields};
use crate::grouped::Grouped;
use crate::grouping::Columns;
use crate::parts::{PartFigures, parts};
use crate::tally::{Tally, tallies};
use std::alloc::{AllocError, Global};
use waff_model::{AffinityId, Tree};
use waff_plan::Planned;

/// The text that tells for each affinity how many messages run in it, and the sums of their costs;
/// with figures also how long they wait and take. Under a hierarchy with locks the last line tells it of the
/// messages that have no affinity.
pub fn affinities_text(
    alloc: Global,
    planned: &Planned<'_>,
    chain: &[u32],
    columns: Columns,
    has_locks: bool,
) -> Result<String, AllocError>
    requires chain { IsListed (planned_work planned.now).count chain.now }
    ensures { IfOk result (λ text. (below : List ℕ) × (parts : List PartFigures)
        × AreCostsBelow planned.now.case.tree.now planned.now.case.assigned.now
        (planned_work planned.now) below
        × AreTheParts columns (planned_work planned.now) (planned_starts planned.now)
        (runs_in planned.now.case.tree.now planned.now.case.assigned.now)
        (affinity_numbers planned.now.case.tree.now) parts
        × (string_bytes text ≡ text_of (affinities_lines columns has_locks planned.now.case.tree.now
        planned.now.case.assigned.now (planned_work planned.now) (planned_starts planned.now)
        chain.now below parts))) }
{
    let tree = planned.case.tree;
    let _total = planned.plan.total();
    let none = tree.len();
    let affinities = planned.case.assigned.numbers(alloc, none)?;
    let grouped = Grouped {
        plan: planned.plan,
        groups: affinities.as_slice(),
        count: none as usize + 1,
    };
    let tallies = tallies(alloc, &grouped, chain)?;
    let below = costs_below(alloc, tree, &tallies.as_slice()[..none as usize])?;
    match columns {
        Columns::Costs => {
            tallied_text(alloc, tree, tallies.as_slice(), below.as_slice(), has_locks)
        }
        Columns::Figures => figures_text(
            alloc,
            tree,
            &grouped,
            tallies.as_slice(),
            below.as_slice(),
            has_locks,
        ),
    }
}

/// The text of the affinities with the tally of each and the costs below it, and of none, where there are locks.
fn tallied_text(
    alloc: Global,
    tree: &Tree,
    tallies: &[Tally],
    below: &[u64],
    has_locks: bool,
) -> Result<String, AllocError>
    requires tallies { length tallies.now ≡ length tree.now + 1 }
    requires below { length below.now ≡ length tree.now }
    ensures { IfOk result (λ text. string_bytes text ≡ text_of (affinities_header
        ∷ map (tallied_row tree.now tallies.now below.now) (range_with_len 0 (length tree.now))
        ++ row_where has_locks (none_row (slice_index_or tallies.now (length tree.now) no_tally)))) }
{
    let mut text = String::new(alloc);
    text.push_str("affinity,parent,messages,cost,below,chain\n")?;
    push_rows(&mut text, tree, tallies, below)?;
    push_none(&mut text, &tallies[tree.len() as usize], has_locks)?;
    Ok(text)
}

/// Appends the line of the messages of no affinity, where there are locks.
fn push_none(text: &mut String, tally: &Tally, has_locks: bool) -> Result<(), AllocError>
    ensures { OnOk result (Adds text.old text.new
        (text_of (row_where has_locks (none_row tally.now)))) }
{
    if has_locks {
        push_row(text, "-", "-", tally.cost, tally)?;
    }
    Ok(())
}

/// Appends the lines of all affinities.
fn push_rows(
    text: &mut String,
    tree: &Tree,
    tallies: &[Tally],
    below: &[u64],
) -> Result<(), AllocError>
    requires tallies { length tallies.now ≡ length tree.now + 1 }
    requires below { length below.now ≡ length tree.now }
    ensures { OnOk result (Adds text.old text.new
        (text_of (map (tallied_row tree.now tallies.now below.now)
        (range_with_len 0 (length tree.now))))) }
{
    for a in 0..tree.len() {
        let affinity = AffinityId(a as u16);
        let name = tree.name(affinity);
        let parent = parent_name(tree, affinity);
        push_row(text, name, parent, below[a as usize], &tallies[a as usize])?;
    }
    Ok(())
}

/// The name of the parent, `-` for the root.
fn parent_name(tree: &Tree, affinity: AffinityId) -> &str
    requires { affinity.0 < length tree.now }
    ensures { result.now ≡ parent_field tree.now (parent_of tree.now affinity.0) }
{
    let _affinities = tree.len();
    match tree.parent(affinity) {
        Some(parent) => tree.name(parent),
        None => "-",
    }
}

/// Appends the line of one affinity.
fn push_row(
    text: &mut String,
    name: &str,
    parent: &str,
    below: u64,
    tally: &Tally,
) -> Result<(), AllocError>
    ensures { OnOk result (Adds text.old text.new
        (line_text (tally_row name.now parent.now below tally.now))) }
{
    let Tally {
        messages,
        cost,
        chain,
    } = *tally;
    writeln!(text, "{name},{parent},{messages},{cost},{below},{chain}")
}

/// The text of the affinities with the figures of each too, by its tally and the costs below it, and of none, where
/// there are locks.
fn figures_text(
    alloc: Global,
    tree: &Tree,
    grouped: &Grouped<'_>,
    tallies: &[Tally],
    below: &[u64],
    has_locks: bool,
) -> Result<String, AllocError>
    requires count { grouped.now.count ≡ length tree.now + 1 }
    requires tallies { length tallies.now ≡ length tree.now + 1 }
    requires each { (g : ℕ) → g < grouped.now.count
        → (slice_index_or tallies.now g no_tally).messages
        ≡ count_by (is_in grouped.now.groups.now g) (numbers (work_in grouped.now.plan.now)) }
    requires below { length below.now ≡ length tree.now }
    ensures { IfOk result (λ text. (parts : List PartFigures)
        × AreOfParts (work_in grouped.now.plan.now) (starts_in grouped.now.plan.now)
        (is_in grouped.now.groups.now) (affinity_numbers tree.now) parts
        × (string_bytes text ≡ text_of ((affinities_header ++ part_names)
        ∷ map (tallied_figures_row tree.now
        (length_of (work_in grouped.now.plan.now) (starts_in grouped.now.plan.now))
        tallies.now below.now parts) (range_with_len 0 (length tree.now))
        ++ row_where has_locks (none_figures_row
        (length_of (work_in grouped.now.plan.now) (starts_in grouped.now.plan.now))
        (slice_index_or tallies.now (length tree.now) no_tally)
        (slice_index_or parts (length tree.now) no_part))))) }
{
    let plan_length = grouped.plan.length();
    let parts = parts(alloc, grouped, tallies)?;
    let mut text = String::new(alloc);
    push_figures_header(&mut text)?;
    push_figures_rows(
        &mut text,
        tree,
        plan_length,
        tallies,
        below,
        parts.as_slice(),
    )?;
    let none = tree.len() as usize;
    let fields = PartFields {
        plan_length,
        tally: tallies[none],
        figures: parts[none],
    };
    push_no_figures(&mut text, &fields, has_locks)?;
    Ok(text)
}

/// Appends the line of the messages of no affinity with their figures, where there are locks.
fn push_no_figures(
    text: &mut String,
    fields: &PartFields,
    has_locks: bool,
) -> Result<(), AllocError>
    ensures { OnOk result (Adds text.old text.new (text_of (row_where has_locks
        (none_figures_row fields.now.plan_length fields.now.tally fields.now.figures)))) }
{
    if has_locks {
        push_figures_row(text, "-", "-", fields.tally.cost, fields)?;
    }
    Ok(())
}

/// Appends the first line with the names of the figures.
fn push_figures_header(text: &mut String) -> Result<(), AllocError>
    ensures { OnOk result (Adds text.old text.new (line_text (affinities_header ++ part_names))) }
{
    writeln!(text, "affinity,parent,messages,cost,below,chain,{PART}")
}

/// Appends the lines of all affinities with their figures, in a plan of this length.
fn push_figures_rows(
    text: &mut String,
    tree: &Tree,
    plan_length: u64,
    tallies: &[Tally],
    below: &[u64],
    parts: &[PartFigures],
) -> Result<(), AllocError>
    requires tallies { length tallies.now ≡ length tree.now + 1 }
    requires below { length below.now ≡ length tree.now }
    requires parts { length parts.now ≡ length tree.now + 1 }
    ensures { OnOk result (Adds text.old text.new
        (text_of (map (tallied_figures_row tree.now plan_length tallies.now below.now parts.now)
        (range_with_len 0 (length tree.now))))) }
{
    for a in 0..tree.len() {
        let affinity = AffinityId(a as u16);
        let name = tree.name(affinity);
        let parent = parent_name(tree, affinity);
        let fields = PartFields {
            plan_length,
            tally: tallies[a as usize],
            figures: parts[a as usize],
        };
        push_figures_row(text, name, parent, below[a as usize], &fields)?;
    }
    Ok(())
}

/// Appends the line of one affinity with its figures.
fn push_figures_row(
    text: &mut String,
    name: &str,
    parent: &str,
    below: u64,
    fields: &PartFields,
) -> Result<(), AllocError>
    ensures { OnOk result (Adds text.old text.new
        (line_text (tally_row name.now parent.now below fields.now.tally
        ++ part_fields fields.now.plan_length fields.now.tally fields.now.figures))) }
{
    let Tally {
        messages,
        cost,
        chain,
    } = fields.tally;
    let figures = *fields;
    writeln!(
        text,
        "{name},{parent},{messages},{cost},{below},{chain},{figures}"
    )
}
