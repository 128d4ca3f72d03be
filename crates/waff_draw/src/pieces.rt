//! The pieces of the document.

ghost use Rattle.std.specs.Prelude.{◌≡◌, ◌≤◌, OnOk, Some};
ghost use Rattle.waff_plan_text.specs.Lines.{Adds};
ghost use Rattle.waff_draw.specs.Pieces as pieces;

use crate::bars::Bar;
use crate::runs::Run;
use crate::xml::Xml;
use std::alloc::AllocError;
use std::fmt;
use waff_plan_text::Ratio;

/// The colours, for light and for dark. Names are in letters of one width, so that their room is known.
pub(crate) const STYLE: &str = "\
<style>svg{background:#fff;font:12px sans-serif}text{fill:#222}.ground{fill:#fff}\
.heading{font-size:16px;font-weight:bold}.tick{text-anchor:middle}.key,.lane{font-family:monospace}\
.lane rect{fill:#fff}.lane:nth-child(even) rect{fill:#f0f2f5}.rule{stroke:#222}\
.plan rect{stroke:#333;stroke-width:75}.n0{fill:#999}.n1{fill:#56b4e9}.n2{fill:#009e73}\
.n3{fill:#cc79a7}.n4{fill:#f0e442}.n5{fill:#0072b2}.n6{fill:#8c564b}.n7{fill:#882255}\
.n8{fill:#999933}.n9{fill:#7b6fd0}.n10{fill:#88d8b0}.n11{fill:#cc6677}.n12{fill:#aa4499}\
.n13{fill:#5b8c2a}.n14{fill:#ddcc77}.n15{fill:#a8c8f0}.n16{fill:#f4b6c2}.plan .thin{stroke:none}\
.plan .run{fill:none;stroke:#000;stroke-width:200;pointer-events:none}\
.plan .run.thin{fill:#e69f00;stroke:none}.plan path{stroke:#c8ccd2;stroke-width:100}\
@media(prefers-color-scheme:dark){svg{background:#16181c}text{fill:#e8e8e8}.ground{fill:#16181c}\
.lane rect{fill:#16181c}.lane:nth-child(even) rect{fill:#22262c}.rule{stroke:#e8e8e8}\
.plan rect{stroke:#ccc}.plan .run{stroke:#fff}.plan path{stroke:#454b54}}</style>\n";

/// What the bars are.
pub(crate) const LEGEND: &str = "\
<text x='8' y='48'>A bar is a message from its start to its finish, in the colour of its name, or \
grey. The plan's chain is outlined run by run; a narrow run is orange, as high as its lane.</text>\n";

/// Appends the end of the lanes, of the axis, or of the bars.
pub(crate) fn push_group_end(text: &mut String) -> Result<(), AllocError>
    ensures { OnOk result (Adds text.old text.new pieces.group_end) }
{
    text.push_str("</g>\n")
}

/// Appends the top of the document, of this width and height in pixels, and its ground.
#[tactic(auto, unfolding(crate::specs::Pieces::top_start))]
pub(crate) fn push_top_start(text: &mut String, width: u128, height: u128) -> Result<(), AllocError>
    ensures { OnOk result (Adds text.old text.new (pieces.top_start width height)) }
{
    writeln!(
        text,
        "<svg xmlns='http://www.w3.org/2000/svg' width='{width}' height='{height}' viewBox='0 0 {width} {height}'>\n<rect class='ground' width='100%' height='100%'/>"
    )
}

/// So many of a thing.
#[derive(Clone, Copy)]
struct Counted(u128, &'static str);

impl fmt::Display for Counted {
    ghost output = { λ it. Some (pieces.counted it.0 it.1.now) };

    #[tactic(auto, unfolding(crate::specs::Pieces::counted))]
    fn fmt<W: fmt::Write>(&self, f: &mut fmt::Formatter<W>) -> fmt::Result {
        let Counted(count, thing) = *self;
        let ending = ending(count);
        write!(f, "{count} {thing}{ending}")
    }
}

/// How the name of a thing ends of which there are so many.
fn ending(count: u128) -> &'static str
    ensures { result.now ≡ pieces.ending count }
{
    if count == 1 { "" } else { "s" }
}

/// For how many workers a plan is.
#[derive(Clone, Copy)]
struct OnWorkers(Option<u32>);

impl fmt::Display for OnWorkers {
    ghost output = { λ workers. Some (pieces.on_workers workers.0) };

    fn fmt<W: fmt::Write>(&self, f: &mut fmt::Formatter<W>) -> fmt::Result {
        match self.0 {
            Some(k) => write!(f, " on {}", Counted(u128::from(k), "worker")),
            None => write!(f, " on any number of workers"),
        }
    }
}

/// Appends what is told of the plan: its speed-up is its total by its length.
pub(crate) fn push_heading(
    text: &mut String,
    messages: u32,
    speedup: Ratio,
    workers: Option<u32>,
) -> Result<(), AllocError>
    ensures { OnOk result (Adds text.old text.new
        (pieces.heading_line messages speedup.1 speedup.0 workers)) }
{
    push_heading_start(text, messages, workers)?;
    push_heading_end(text, speedup)
}

/// Appends of how many messages the plan is, and for how many workers.
#[tactic(auto, unfolding(crate::specs::Pieces::heading_start))]
fn push_heading_start(
    text: &mut String,
    messages: u32,
    workers: Option<u32>,
) -> Result<(), AllocError>
    ensures { OnOk result (Adds text.old text.new (pieces.heading_start messages workers)) }
{
    let messages = Counted(u128::from(messages), "message");
    let workers = OnWorkers(workers);
    write!(
        text,
        "<text class='heading' x='8' y='28'>{messages}{workers}: "
    )
}

/// Appends how long it is.
#[tactic(auto, unfolding(crate::specs::Pieces::heading_end))]
fn push_heading_end(text: &mut String, speedup: Ratio) -> Result<(), AllocError>
    ensures { OnOk result (Adds text.old text.new (pieces.heading_end speedup.1 speedup.0)) }
{
    let Ratio(total, length) = speedup;
    writeln!(
        text,
        "length {length}, total work {total} (in ticks), speed-up {speedup}</text>"
    )
}

/// Appends the beginning of the lanes.
#[tactic(auto, unfolding(crate::specs::Pieces::lanes_start))]
pub(crate) fn push_lanes_start(text: &mut String, top: u128) -> Result<(), AllocError>
    ensures { OnOk result (Adds text.old text.new (pieces.lanes_start top)) }
{
    writeln!(text, "<g transform='translate(0 {top})'>")
}

/// The name of a lane: that of an affinity, or that of the worker of this number.
#[derive(Clone, Copy)]
pub enum LaneName<'a> {
    Affinity(&'a str),
    Worker(u32),
}

impl fmt::Display for LaneName<'_> {
    ghost output = { λ name. Some (pieces.lane_name name) };

    #[tactic(auto, unfolding(crate::specs::Pieces::worker_name))]
    fn fmt<W: fmt::Write>(&self, f: &mut fmt::Formatter<W>) -> fmt::Result {
        match *self {
            LaneName::Affinity(name) => write!(f, "{}", Xml(name)),
            LaneName::Worker(worker) => write!(f, "worker {worker}"),
        }
    }
}

/// Appends a lane.
#[tactic(auto, unfolding(crate::specs::Pieces::lane_line))]
pub(crate) fn push_lane(
    text: &mut String,
    top: u64,
    left: u64,
    base: u64,
    name: LaneName<'_>,
) -> Result<(), AllocError>
    ensures { OnOk result (Adds text.old text.new
        (pieces.lane_line top left base (pieces.lane_name name.entry))) }
{
    writeln!(
        text,
        "<g class='lane'><rect y='{top}' width='100%' height='20'/><text x='{left}' y='{base}'>{name}</text></g>"
    )
}

/// Appends a rule at this height, between the lanes of affinities and those of workers.
#[tactic(auto, unfolding(crate::specs::Pieces::rule_line))]
pub(crate) fn push_rule_line(text: &mut String, top: u64) -> Result<(), AllocError>
    ensures { OnOk result (Adds text.old text.new (pieces.rule_line top)) }
{
    writeln!(text, "<line class='rule' x2='100%' y1='{top}' y2='{top}'/>")
}

/// Appends the beginning of the axis where the plan begins, and what its numbers are, above the lanes
/// and below.
#[tactic(auto, unfolding(crate::specs::Pieces::axis_start))]
pub(crate) fn push_axis_start(
    text: &mut String,
    left: u128,
    top: u128,
    bottom: u64,
) -> Result<(), AllocError>
    ensures { OnOk result (Adds text.old text.new (pieces.axis_start left top bottom)) }
{
    writeln!(
        text,
        "<g transform='translate({left} {top})'>\n<text x='-88' y='-8'>ticks</text><text x='-88' y='{bottom}'>ticks</text>"
    )
}

/// Appends a number of ticks, above the lanes and below.
#[tactic(auto, unfolding(crate::specs::Pieces::tick_label))]
pub(crate) fn push_tick_label(
    text: &mut String,
    place: u128,
    bottom: u64,
    tick: u128,
) -> Result<(), AllocError>
    ensures { OnOk result (Adds text.old text.new (pieces.tick_label place bottom tick)) }
{
    writeln!(
        text,
        "<text class='tick' x='{place}' y='-8'>{tick}</text><text class='tick' x='{place}' y='{bottom}'>{tick}</text>"
    )
}

/// Appends the beginning of the lines and bars where the plan begins; their units are hundredths of a
/// pixel.
#[tactic(auto, unfolding(crate::specs::Pieces::plan_start))]
pub(crate) fn push_plan_start(text: &mut String, left: u128, top: u128) -> Result<(), AllocError>
    ensures { OnOk result (Adds text.old text.new (pieces.plan_start left top)) }
{
    writeln!(
        text,
        "<g class='plan' transform='translate({left} {top}) scale(.01)'>"
    )
}

/// Appends a line through all lanes.
#[tactic(auto, unfolding(crate::specs::Pieces::grid_line))]
pub(crate) fn push_grid_line(text: &mut String, place: u128, height: u64) -> Result<(), AllocError>
    ensures { OnOk result (Adds text.old text.new (pieces.grid_line place height)) }
{
    writeln!(text, "<path d='M{place} 0v{height}'/>")
}

/// Appends what a colour stands for: messages of this name.
#[tactic(auto, unfolding(crate::specs::Pieces::colour_line))]
pub(crate) fn push_colour_line(
    text: &mut String,
    left: u128,
    top: u128,
    colour: u64,
    name: &str,
) -> Result<(), AllocError>
    ensures { OnOk result (Adds text.old text.new (pieces.colour_line left top colour name.now)) }
{
    writeln!(
        text,
        "<g class='key' transform='translate({left} {top})'><rect class='n{colour}' y='2' width='12' height='12'/><text x='18' y='12'>{}</text></g>",
        Xml(name)
    )
}

/// What is told of the client of a message, where it is of one.
#[derive(Clone, Copy)]
struct ForClient<'a>(&'a str);

impl fmt::Display for ForClient<'_> {
    ghost output = { λ client. Some (pieces.for_client client.0.now) };

    fn fmt<W: fmt::Write>(&self, f: &mut fmt::Formatter<W>) -> fmt::Result {
        if self.0 == "-" {
            Ok(())
        } else {
            write!(f, " for {}", Xml(self.0))
        }
    }
}

/// How a bar of the chain is marked, and a thin one.
fn mark_of(is_link: bool, is_thin: bool) -> &'static str
    ensures { result.now ≡ pieces.mark_of is_link is_thin }
{
    match (is_link, is_thin) {
        (true, true) => " chain thin",
        (true, false) => " chain",
        (false, true) => " thin",
        (false, false) => "",
    }
}

/// How much of its lane is free above a bar and below, in hundredths of a pixel, or above a run, which
/// may be narrow.
fn margin_of(is_narrow: bool) -> u32
    ensures margin { result ≡ pieces.margin_of is_narrow }
    ensures small { result ≤ 200 }
{
    if is_narrow { 0 } else { 200 }
}

/// Appends a bar in its row, with what it tells of its message: its name, and those of its affinity
/// and its client.
pub(crate) fn push_bar_line(
    text: &mut String,
    bar: &Bar,
    name: &str,
    affinity: &str,
    client: &str,
) -> Result<(), AllocError>
    ensures { OnOk result (Adds text.old text.new
        (pieces.bar_line bar.now name.now affinity.now client.now)) }
{
    push_bar_start(text, bar)?;
    push_bar_title(text, bar, name, affinity, client)
}

/// Appends a bar in its row.
#[tactic(auto, unfolding(crate::specs::Pieces::bar_start))]
fn push_bar_start(text: &mut String, bar: &Bar) -> Result<(), AllocError>
    ensures { OnOk result (Adds text.old text.new (pieces.bar_start bar.now)) }
{
    let mark = mark_of(bar.is_link, bar.is_thin);
    let margin = margin_of(false);
    let top = u128::from(bar.row) * 2000 + u128::from(margin);
    let height = 2000 - 2 * margin;
    let (colour, left, width) = (bar.colour, bar.left, bar.width);
    write!(
        text,
        "<rect class='n{colour}{mark}' x='{left}' y='{top}' width='{width}' height='{height}'>"
    )
}

/// Appends what it tells of its message.
#[tactic(auto, unfolding(crate::specs::Pieces::bar_title))]
fn push_bar_title(
    text: &mut String,
    bar: &Bar,
    name: &str,
    affinity: &str,
    client: &str,
) -> Result<(), AllocError>
    ensures { OnOk result (Adds text.old text.new
        (pieces.bar_title bar.now name.now affinity.now client.now)) }
{
    let (message, start, finish) = (bar.message, bar.start, bar.finish);
    let (name, affinity, client) = (Xml(name), Xml(affinity), ForClient(client));
    writeln!(
        text,
        "<title>{message} {name} in {affinity}: {start} to {finish}{client}</title></rect>"
    )
}

/// How a run of the chain is marked, and one that is narrower than four pixels, which has no outline.
fn run_mark(is_thin: bool) -> &'static str
    ensures { result.now ≡ pieces.run_mark is_thin }
{
    if is_thin { "run thin" } else { "run" }
}

/// Appends a run of the chain.
#[tactic(auto, unfolding(crate::specs::Pieces::run_line))]
pub(crate) fn push_run_line(text: &mut String, run: Run) -> Result<(), AllocError>
    ensures { OnOk result (Adds text.old text.new (pieces.run_line run)) }
{
    let Run { row, left, right } = run;
    let width = right.saturating_sub(left);
    let is_thin = width < 400;
    let mark = run_mark(is_thin);
    let margin = margin_of(is_thin);
    let top = u128::from(row) * 2000 + u128::from(margin);
    let height = 2000 - 2 * margin;
    writeln!(
        text,
        "<rect class='{mark}' x='{left}' y='{top}' width='{width}' height='{height}'/>"
    )
}
