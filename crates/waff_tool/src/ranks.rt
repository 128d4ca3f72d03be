//! The command that ranks several hierarchies on one trace.
ghost use Rattle.std.specs.Prelude.{◌≡◌, ◌≢◌, ◌<◌, ◌≤◌, ◌+◌, ◌++◌, ◌∷◌, ◌↔◌, Ok, ℕ, All, List, IfOk, IfErr};
ghost use Rattle.std.specs.Prelude.{[], IfSome, IsTrue, OnOk, Some, length, map, slice_get, string_bytes};
ghost use Rattle.std.specs.List.{AllZip};
ghost use Rattle.std.specs.Thread.{IsSync};
ghost use Rattle.waff_model.specs.Layout.{Hierarchy};
ghost use Rattle.waff_model.specs.Messages.{sizes_of};
ghost use Rattle.waff_model.specs.Unique.{AtMostOne};
ghost use Rattle.waff_read.specs.Hierarchies.{hierarchy_of};
ghost use Rattle.waff_assign.specs.Case.{instance_of};
ghost use Rattle.waff_plan_text.specs.Lines.{Adds, line_text, text_of};
ghost use Rattle.waff_inputs.specs.Deliveries.{Delivers, Makes};
ghost use Rattle.waff_inputs.specs.Inputs.{Refuses, TellsOfFiles};
ghost use Rattle.waff_tool.specs.Ranks.{AreRead, AreReadings, HasSpacesOf, IsRanked, IsRankedAsSwept};
ghost use Rattle.waff_tool.specs.Ranks.{IsReading, file_at};
ghost use Rattle.waff_tool.specs.Ranks.{IsRankedOver, IsRankedUnder};
ghost use Rattle.waff_tool.specs.Ranks.{IsRankText, RankedIsNotRefused, RefusesRank};
ghost use Rattle.waff_tool.specs.Ranks.{rank_header, rank_row, rank_rows};

use crate::measures::kind_name;
use std::alloc::{AllocError, Global};
use std::io::Write;
use std::thread;
use std::thread::Threads;
use waff_assign::{Case, assign_by_threads};
use waff_figures::{Figures, QUALITY, QualityFields, all_made, list_figures_for, sides};
use waff_inputs::{MAX_RANKED, ToolError, deliver, read_numbered, read_trace_by_threads};
use waff_list::Rule;
use waff_model::{Kind, Layout, Trace};
use waff_plan::unlimited::plan;
use waff_plan::{Planned, Workers};

/// Hierarchies of which none has so many bytes are read by one thread.
const LONG: usize = 16 * 1024;

/// What is told of a trace under one of several hierarchies.
#[derive(Clone, Copy)]
pub struct Ranked {
    pub kind: Kind,
    /// How many affinities the hierarchy has.
    pub affinities: u32,
    /// How long the unlimited plan is.
    pub length: u64,
    /// The figures of the list plan.
    pub listed: Figures,
}

/// Writes what the trace comes to under each of these hierarchies, for this number of workers by
/// this rule. Nothing is written before the whole text is made.
pub fn rank_text<R: Threads + Sync, W: Write>(
    rt: &R,
    alloc: Global,
    hierarchies: &[Vec<u8>],
    trace: &[u8],
    workers: Workers,
    rule: Rule,
    writer: &mut W,
) -> Result<(), ToolError>
    requires files { length hierarchies.now ≤ MAX_RANKED }
    ensures { Delivers (λ _ text.
        IsRankText rule (map (λ file. file.items) hierarchies.now) trace.now workers text)
        (RefusesRank (map (λ file. file.items) hierarchies.now) trace.now)
        (W.contents writer.old) (W.contents writer.new) result }
{
    deliver(
        writer,
        made_rank_text(rt, alloc, hierarchies, trace, workers, rule),
    )
}

fn made_rank_text<R: Threads + Sync>(
    rt: &R,
    alloc: Global,
    hierarchies: &[Vec<u8>],
    trace: &[u8],
    workers: Workers,
    rule: Rule,
) -> Result<String, ToolError>
    requires files { length hierarchies.now ≤ MAX_RANKED }
    ensures { Makes (λ text. IsRankText rule
        (map (λ file. file.items) hierarchies.now) trace.now workers (string_bytes text))
        (RefusesRank (map (λ file. file.items) hierarchies.now) trace.now) result }
{
    let layouts = read_hierarchies(rt, alloc, hierarchies)?;
    let text = text_under_all(rt, alloc, layouts.as_slice(), trace, workers, rule);
    drop(layouts);
    text
}

/// The hierarchies of these files, in their order, read side by side.
fn read_hierarchies<R: Threads + Sync>(
    rt: &R,
    alloc: Global,
    files: &[Vec<u8>],
) -> Result<Vec<Layout>, ToolError>
    requires { length files.now ≤ MAX_RANKED }
    ensures read { IfOk result (λ layouts.
        AreRead (map (λ file. file.items) files.now) layouts.items) }
    ensures refused { IfErr result (λ e. (trace_file : List ℕ)
        → RefusesRank (map (λ file. file.items) files.now) trace_file e) }
    ensures nothing { IfErr result (λ e. e ≢ ToolError.Write) }
{
    let mut slots = empty_slots(alloc, files.len())?;
    let one = move |place: usize, slot: &mut Option<Result<Layout, ToolError>>|
        requires place { place < length files.now }
        requires few { length files.now ≤ MAX_RANKED }
        ensures { IfSome slot.new (IsReading (place + 1)
            (file_at (map (λ file. file.items) files.entry.now) place)) }
    { *slot = Some(read_numbered(alloc, place as u8 + 1, &files[place])) };
    let threads = readers(rt, files);
    thread::for_each_mut(rt, slots.as_mut_slice(), threads, &one);
    in_order(alloc, slots)
}

/// Room for what so many files are read as.
fn empty_slots(
    alloc: Global,
    count: usize,
) -> Result<Vec<Option<Result<Layout, ToolError>>>, AllocError>
    ensures { IfOk result (λ slots. length slots.items ≡ count) }
{
    let mut slots = Vec::with_capacity(alloc, count)?;
    for _ in 0..count {
        slots.push(None)?;
    }
    Ok(slots)
}

/// How many threads read these files.
fn readers<R: Threads>(rt: &R, files: &[Vec<u8>]) -> usize
    ensures { 1 ≤ result }
{
    if files.iter().any(|file| LONG <= file.len()) {
        sides(rt, u32::MAX)
    } else {
        1
    }
}

/// The hierarchies that were read, or why the first that is refused is.
fn in_order(
    alloc: Global,
    slots: Vec<Option<Result<Layout, ToolError>>>,
) -> Result<Vec<Layout>, ToolError>
    ensures read { IfOk result (λ layouts. (files : List (List ℕ)) → AreReadings files slots.items
        → AreRead files layouts.items) }
    ensures refused { IfErr result (λ e. (files : List (List ℕ)) → AreReadings files slots.items
        → (trace_file : List ℕ) → RefusesRank files trace_file e) }
    ensures nothing { IfErr result (λ e. (files : List (List ℕ)) → AreReadings files slots.items
        → e ≢ ToolError.Write) }
{
    let mut layouts = Vec::with_capacity(alloc, slots.len())?;
    for slot in slots {
        match slot {
            Some(Ok(layout)) => keep(&mut layouts, layout)?,
            Some(Err(error)) => return Err(error),
            None => return Err(ToolError::Memory),
        }
    }
    Ok(layouts)
}

/// Appends a hierarchy.
fn keep(layouts: &mut Vec<Layout>, layout: Layout) -> Result<(), AllocError>
    ensures { OnOk result (layouts.new.items ≡ layouts.old.items ++ layout ∷ []) }
{
    layouts.push(layout)?;
    Ok(())
}

/// The text of the trace under these hierarchies.
fn text_under_all<R: Threads + Sync>(
    rt: &R,
    alloc: Global,
    layouts: &[Layout],
    trace: &[u8],
    k: Workers,
    rule: Rule,
) -> Result<String, ToolError>
    ensures made { IfOk result (λ text. (files : List (List ℕ)) → AreRead files layouts.now
        → IsRankText rule files trace.now k (string_bytes text)) }
    ensures refused { IfErr result (λ e. (files : List (List ℕ)) → AreRead files layouts.now
        → RefusesRank files trace.now e) }
    ensures nothing { IfErr result (λ e. e ≢ ToolError.Write) }
{
    let ranks = rank_all(rt, alloc, layouts, trace, k, rule)?;
    let text = ranks_text(alloc, ranks.as_slice());
    drop(ranks);
    text.map_err(ToolError::from)
}

/// What is told of the trace under each of these hierarchies. Where all have the same spaces the trace
/// is read once.
fn rank_all<R: Threads + Sync>(
    rt: &R,
    alloc: Global,
    layouts: &[Layout],
    trace: &[u8],
    k: Workers,
    rule: Rule,
) -> Result<Vec<Ranked>, ToolError>
    ensures made { IfOk result (λ ranks. (files : List (List ℕ)) → AreRead files layouts.now
        → AllZip (IsRanked rule trace.now k) files ranks.items) }
    ensures refused { IfErr result (λ e. (files : List (List ℕ)) → AreRead files layouts.now
        → RefusesRank files trace.now e) }
    ensures nothing { IfErr result (λ e. e ≢ ToolError.Write) }
{
    match layouts.first() {
        Some(first) if all_have_spaces_of(first, layouts) => rank_over_one(
            rt, alloc, first, layouts, trace, k, rule,
        ),
        _ => rank_in_turn(rt, alloc, layouts, trace, k, rule),
    }
}

/// Whether all of these hierarchies have the spaces of this one.
fn all_have_spaces_of(layout: &Layout, others: &[Layout]) -> bool
    ensures { IsTrue result ↔ All (HasSpacesOf layout.now) others.now }
{
    others.iter().all(|other| layout.same_spaces(other))
}

/// What `rank_all` tells where all of these hierarchies have the spaces of the first.
fn rank_over_one<R: Threads + Sync>(
    rt: &R,
    alloc: Global,
    first: &Layout,
    layouts: &[Layout],
    trace: &[u8],
    k: Workers,
    rule: Rule,
) -> Result<Vec<Ranked>, ToolError>
    requires first { slice_get layouts.now 0 ≡ Some first.now }
    requires same_spaces { All (HasSpacesOf first.now) layouts.now }
    ensures made { IfOk result (λ ranks. (files : List (List ℕ)) → AreRead files layouts.now
        → AllZip (IsRanked rule trace.now k) files ranks.items) }
    ensures refused { IfErr result (λ e. (files : List (List ℕ)) → AreRead files layouts.now
        → RefusesRank files trace.now e) }
    ensures nothing { IfErr result (λ e. e ≢ ToolError.Write) }
{
    let trace = read_trace_by_threads(rt, alloc, first, trace)?;
    let ranks = rank_side_by_side(rt, alloc, layouts, &trace, k, rule);
    drop(trace);
    ranks.map_err(ToolError::from)
}

/// What is told of the trace that was read under each of these hierarchies, side by side.
fn rank_side_by_side<R: Threads + Sync>(
    rt: &R,
    alloc: Global,
    layouts: &[Layout],
    trace: &Trace,
    k: Workers,
    rule: Rule,
) -> Result<Vec<Ranked>, AllocError>
    requires fits { All (λ layout. trace.now.sizes ≡ sizes_of layout.spaces) layouts.now }
    ensures { IfOk result (λ ranks. AllZip (IsRankedOver rule trace.now k) layouts.now ranks.items) }
{
    let k = &k;
    let mut made = vec![in alloc; None; layouts.len()]?;
    let one = move |place: usize, made: &mut Option<Ranked>|
        requires threads { IsSync R.row }
        requires place { place < length layouts.now }
        requires fits { All (λ layout. trace.now.sizes ≡ sizes_of layout.spaces) layouts.now }
        ensures { IfSome made.new (λ ranked. (layout : Hierarchy)
            → slice_get layouts.entry.now place ≡ Some layout
            → IsRankedOver rule trace.entry.now k.entry.now layout ranked) }
    { *made = rank_assigned(rt, alloc, &layouts[place], trace, *k, rule).ok() };
    let threads = sides(rt, trace.len());
    thread::for_each_mut(rt, made.as_mut_slice(), threads, &one);
    all_made(alloc, made.as_slice())
}

/// What `rank_all` tells. The trace is read under each of these hierarchies in turn.
fn rank_in_turn<R: Threads + Sync>(
    rt: &R,
    alloc: Global,
    layouts: &[Layout],
    trace: &[u8],
    k: Workers,
    rule: Rule,
) -> Result<Vec<Ranked>, ToolError>
    ensures made { IfOk result (λ ranks. (files : List (List ℕ)) → AreRead files layouts.now
        → AllZip (IsRanked rule trace.now k) files ranks.items) }
    ensures refused { IfErr result (λ e. (files : List (List ℕ)) → AreRead files layouts.now
        → RefusesRank files trace.now e) }
    ensures nothing { IfErr result (λ e. e ≢ ToolError.Write) }
{
    let mut ranks = Vec::with_capacity(alloc, layouts.len())?;
    for layout in layouts {
        let ranked = rank(rt, alloc, layout, trace, k, rule)?;
        keep_rank(&mut ranks, ranked)?;
    }
    Ok(ranks)
}

/// Appends what is told of one.
fn keep_rank(ranks: &mut Vec<Ranked>, ranked: Ranked) -> Result<(), AllocError>
    ensures { OnOk result (ranks.new.items ≡ ranks.old.items ++ ranked ∷ []) }
{
    ranks.push(ranked)?;
    Ok(())
}

/// What is told of the trace under a hierarchy.
fn rank<R: Threads + Sync>(
    rt: &R,
    alloc: Global,
    layout: &Layout,
    trace: &[u8],
    k: Workers,
    rule: Rule,
) -> Result<Ranked, ToolError>
    ensures made { IfOk result (λ ranked. (file : List ℕ) → hierarchy_of file ≡ Ok layout.now
        → IsRanked rule trace.now k file ranked) }
    ensures refused { IfErr result (λ e. (file : List ℕ) → hierarchy_of file ≡ Ok layout.now
        → Refuses file trace.now e) }
    ensures nothing { IfErr result (λ e. e ≢ ToolError.Write) }
{
    match read_trace_by_threads(rt, alloc, layout, trace) {
        Ok(trace) => {
            let ranked = rank_assigned(rt, alloc, layout, &trace, k, rule);
            drop(trace);
            ranked.map_err(ToolError::from)
        }
        Err(fault) => Err(ToolError::from(fault)),
    }
}

/// What is told of the trace that was read under a hierarchy.
fn rank_assigned<R: Threads + Sync>(
    rt: &R,
    alloc: Global,
    layout: &Layout,
    trace: &Trace,
    k: Workers,
    rule: Rule,
) -> Result<Ranked, AllocError>
    requires fits { trace.now.sizes ≡ sizes_of layout.now.spaces }
    ensures { IfOk result (IsRankedOver rule trace.now k layout.now) }
{
    let assigned = assign_by_threads(rt, alloc, layout, trace)?;
    let case = Case {
        tree: layout.tree(),
        assigned: &assigned,
        trace,
    };
    let ranked = rank_planned(alloc, layout, &case, k, rule);
    drop(assigned);
    ranked
}

/// What is told of the trace with its affinities under the tree of a hierarchy.
fn rank_planned(
    alloc: Global,
    layout: &Layout,
    case: &Case<'_>,
    k: Workers,
    rule: Rule,
) -> Result<Ranked, AllocError>
    ensures { IfOk result (IsRankedUnder rule layout.now.kind k (instance_of case.now)) }
{
    let plan = plan(alloc, case.tree, case.assigned, case.trace)?;
    let planned = Planned {
        case: *case,
        plan: &plan,
    };
    let listed = list_figures_for(alloc, &planned, rule, k);
    let length = plan.length();
    drop(plan);
    Ok(Ranked {
        kind: layout.kind(),
        affinities: case.tree.len(),
        length,
        listed: listed?,
    })
}

/// The lines of hierarchies.
fn ranks_text(alloc: Global, ranks: &[Ranked]) -> Result<String, AllocError>
    ensures { IfOk result (λ text.
        string_bytes text ≡ text_of (rank_header ∷ rank_rows 1 ranks.now)) }
{
    let mut text = String::new(alloc);
    writeln!(text, "hierarchy,model,affinities,length,list,{QUALITY}")?;
    push_ranks(&mut text, ranks)?;
    Ok(text)
}

/// Appends the lines of these hierarchies, numbered from 1.
fn push_ranks(text: &mut String, ranks: &[Ranked]) -> Result<(), AllocError>
    ensures { OnOk result (Adds text.old text.new
        (text_of (rank_rows 1 ranks.now))) }
{
    for i in 0..ranks.len() {
        push_ranked(text, i + 1, &ranks[i])?;
    }
    Ok(())
}

/// Appends the line of the hierarchy of this number.
fn push_ranked(text: &mut String, number: usize, ranked: &Ranked) -> Result<(), AllocError>
    ensures { OnOk result (Adds text.old text.new
        (line_text (rank_row number ranked.now))) }
{
    let Ranked {
        affinities,
        length,
        listed,
        ..
    } = *ranked;
    let kind = kind_name(ranked.kind);
    let list = listed.length;
    let quality = QualityFields(listed);
    writeln!(
        text,
        "{number},{kind},{affinities},{length},{list},{quality}"
    )
}

/// The text of hierarchies that are ranked on a trace by a rule is one.
pub fn rank_text_is_one()
    ensures equal { (rule : Rule) (files : List (List ℕ)) (trace_file : List ℕ) (k : ℕ)
        → AtMostOne (IsRankText rule files trace_file k) }
{}

/// The error that tells why hierarchies and a trace are refused is one.
pub fn rank_refusal_is_one()
    ensures equal { (files : List (List ℕ)) (trace_file : List ℕ)
        → AtMostOne (λ e. TellsOfFiles e × RefusesRank files trace_file e) }
{}

/// Hierarchies that are ranked on a trace are not refused, but for an allocation failure or a writer's
/// fault.
pub fn ranked_is_not_refused()
    ensures none { (rule : Rule) (files : List (List ℕ)) (trace_file : List ℕ)
        → RankedIsNotRefused rule files trace_file }
{}

/// What is told of the list plan under a hierarchy is what a sweep for as many workers by the same
/// rule tells of it.
pub fn is_ranked_as_swept()
    ensures equal { (rule : Rule) (hierarchy_file trace_file : List ℕ)
        → IsRankedAsSwept rule hierarchy_file trace_file }
{}
