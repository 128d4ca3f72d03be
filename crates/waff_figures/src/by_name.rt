//! Where the time goes, by the labels of messages: their names, or their clients.

ghost use Rattle.std.specs.Prelude.{◌≡◌, ◌<◌, ◌∷◌, ◌++◌, ℕ, List, IfOk, OnOk, count_by, length, map};
ghost use Rattle.std.specs.Prelude.{slice_index_or, string_bytes};
ghost use Rattle.std.specs.List.{range_with_len};
ghost use Rattle.waff_plan.specs.Chain.{IsListed};
ghost use Rattle.waff_plan.specs.Planned.{planned_starts, planned_work};
ghost use Rattle.waff_plan.specs.Timetable.{starts_in, work_in};
ghost use Rattle.waff_plan.specs.Work.{length_of, numbers};
ghost use Rattle.waff_plan_text.specs.Lines.{Adds, line_text, text_of};
ghost use Rattle.waff_figures.specs.ByName.{first_messages, has_label, label_header, label_lines};
ghost use Rattle.waff_figures.specs.ByName.{labels_of, named_row, tallied_name_row};
ghost use Rattle.waff_figures.specs.ByName.{tallied_name_figures_row};
ghost use Rattle.waff_figures.specs.Parts.{AreOfParts, AreTheParts, part_fields, part_names};
ghost use Rattle.waff_figures.specs.Tally.{is_in, no_tally};

use crate::fields::{PART, PartFields};
use crate::grouped::Grouped;
use crate::grouping::{Columns, Label};
use crate::names::names_of;
use crate::parts::{PartFigures, parts};
use crate::tally::{Tally, tallies};
use std::alloc::{AllocError, Global};
use waff_model::DistinctNames;
use waff_plan::Planned;

/// The text that tells for each label of messages how many have it, and the sums of their costs; with
/// figures also how long they wait and take.
pub fn names_text(
    alloc: Global,
    planned: &Planned<'_>,
    chain: &[u32],
    label: Label,
    columns: Columns,
) -> Result<String, AllocError>
    requires chain { IsListed (planned_work planned.now).count chain.now }
    ensures { IfOk result (λ text. (parts : List PartFigures)
        × AreTheParts columns (planned_work planned.now) (planned_starts planned.now)
        (has_label (labels_of label planned.now.case.trace.now.messages))
        (first_messages (labels_of label planned.now.case.trace.now.messages)) parts
        × (string_bytes text ≡ text_of (label_lines columns label
        planned.now.case.trace.now.messages (planned_work planned.now)
        (planned_starts planned.now) chain.now parts))) }
{
    let found = names_of(alloc, planned.case.trace, label)?;
    let grouped = Grouped {
        plan: planned.plan,
        groups: found.places.as_slice(),
        count: found.names.len(),
    };
    let tallies = tallies(alloc, &grouped, chain)?;
    match columns {
        Columns::Costs => tallied_text(alloc, label, &found.names, tallies.as_slice()),
        Columns::Figures => figures_text(alloc, label, &found.names, &grouped, tallies.as_slice()),
    }
}

/// The text of these labels with the tally of each.
fn tallied_text(
    alloc: Global,
    label: Label,
    names: &DistinctNames<'_>,
    tallies: &[Tally],
) -> Result<String, AllocError>
    requires { length tallies.now ≡ length names.now }
    ensures { IfOk result (λ text. string_bytes text ≡ text_of (label_header label
        ∷ map (tallied_name_row names.now tallies.now)
        (range_with_len 0 (length names.now)))) }
{
    let mut text = String::new(alloc);
    push_header(&mut text, label)?;
    push_rows(&mut text, names, tallies)?;
    Ok(text)
}

/// Appends the first line.
fn push_header(text: &mut String, label: Label) -> Result<(), AllocError>
    ensures { OnOk result (Adds text.old text.new (line_text (label_header label))) }
{
    match label {
        Label::Name => text.push_str("name,messages,cost,chain\n"),
        Label::Client => text.push_str("client,messages,cost,chain\n"),
    }
}

/// Appends the lines of all labels.
fn push_rows(
    text: &mut String,
    names: &DistinctNames<'_>,
    tallies: &[Tally],
) -> Result<(), AllocError>
    requires { length tallies.now ≡ length names.now }
    ensures { OnOk result (Adds text.old text.new
        (text_of (map (tallied_name_row names.now tallies.now)
        (range_with_len 0 (length names.now))))) }
{
    for place in 0..tallies.len() {
        push_row(text, names.name(place), &tallies[place])?;
    }
    Ok(())
}

/// Appends the line of one label.
fn push_row(text: &mut String, name: &str, tally: &Tally) -> Result<(), AllocError>
    ensures { OnOk result (Adds text.old text.new
        (line_text (named_row name.now tally.now))) }
{
    let Tally {
        messages,
        cost,
        chain,
    } = *tally;
    writeln!(text, "{name},{messages},{cost},{chain}")
}

/// The text of these labels with the figures of each too, by its tally.
fn figures_text(
    alloc: Global,
    label: Label,
    names: &DistinctNames<'_>,
    grouped: &Grouped<'_>,
    tallies: &[Tally],
) -> Result<String, AllocError>
    requires count { grouped.now.count ≡ length names.now }
    requires tallies { length tallies.now ≡ length names.now }
    requires each { (g : ℕ) → g < grouped.now.count
        → (slice_index_or tallies.now g no_tally).messages
        ≡ count_by (is_in grouped.now.groups.now g) (numbers (work_in grouped.now.plan.now)) }
    ensures { IfOk result (λ text. (parts : List PartFigures)
        × AreOfParts (work_in grouped.now.plan.now) (starts_in grouped.now.plan.now)
        (is_in grouped.now.groups.now) (range_with_len 0 (length names.now)) parts
        × (string_bytes text ≡ text_of ((label_header label ++ part_names)
        ∷ map (tallied_name_figures_row names.now
        (length_of (work_in grouped.now.plan.now) (starts_in grouped.now.plan.now))
        tallies.now parts) (range_with_len 0 (length names.now))))) }
{
    let plan_length = grouped.plan.length();
    let parts = parts(alloc, grouped, tallies)?;
    let mut text = String::new(alloc);
    push_figures_header(&mut text, label)?;
    push_figures_rows(&mut text, names, plan_length, tallies, parts.as_slice())?;
    Ok(text)
}

/// Appends the first line with the names of the figures.
fn push_figures_header(text: &mut String, label: Label) -> Result<(), AllocError>
    ensures { OnOk result (Adds text.old text.new
        (line_text (label_header label ++ part_names))) }
{
    match label {
        Label::Name => writeln!(text, "name,messages,cost,chain,{PART}"),
        Label::Client => writeln!(text, "client,messages,cost,chain,{PART}"),
    }
}

/// Appends the lines of all labels with their figures, in a plan of this length.
fn push_figures_rows(
    text: &mut String,
    names: &DistinctNames<'_>,
    plan_length: u64,
    tallies: &[Tally],
    parts: &[PartFigures],
) -> Result<(), AllocError>
    requires tallies { length tallies.now ≡ length names.now }
    requires parts { length parts.now ≡ length names.now }
    ensures { OnOk result (Adds text.old text.new
        (text_of (map (tallied_name_figures_row names.now plan_length tallies.now parts.now)
        (range_with_len 0 (length names.now))))) }
{
    for place in 0..tallies.len() {
        let fields = PartFields {
            plan_length,
            tally: tallies[place],
            figures: parts[place],
        };
        push_figures_row(text, names.name(place), &fields)?;
    }
    Ok(())
}

/// Appends the line of one label with its figures.
fn push_figures_row(text: &mut String, name: &str, fields: &PartFields) -> Result<(), AllocError>
    ensures { OnOk result (Adds text.old text.new
        (line_text (named_row name.now fields.now.tally
        ++ part_fields fields.now.plan_length fields.now.tally fields.now.figures))) }
{
    let Tally {
        messages,
        cost,
        chain,
    } = fields.tally;
    let figures = *fields;
    writeln!(text, "{name},{messages},{cost},{chain},{figures}")
}
