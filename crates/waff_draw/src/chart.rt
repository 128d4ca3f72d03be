//! What a picture shows, made ready for drawing.

ghost use Rattle.std.specs.Prelude.{◌≡◌, ◌^◌, ◌<◌, ◌≤◌, [], All, IfOk, IfSome, length};
ghost use Rattle.std.specs.Prelude.{◌+◌, slice_index, slice_index_or};
ghost use Rattle.waff_assign.specs.Case.{instance_of};
ghost use Rattle.waff_assign.specs.Order.{affinity_name, held_of, number_or};
ghost use Rattle.waff_plan.specs.Bound.{IsWorkers};
ghost use Rattle.waff_plan.specs.Work.{IsNumber, total_of};
ghost use Rattle.waff_plan_text.specs.Given.{row_at};
ghost use Rattle.waff_draw.specs.Colours.{colour_of};
ghost use Rattle.waff_draw.specs.Kinds.{row_in, shown_row, worker_row};
ghost use Rattle.waff_draw.specs.Lanes.{is_among, lane_label, lane_of, row_of};
ghost use Rattle.waff_draw.specs.Scene.{after_in, client_in, coloured_in, end_in, finish_in, from_in};
ghost use Rattle.waff_draw.specs.Scene.{lanes_in, length_in, loose_in};
ghost use Rattle.waff_draw.specs.Scene.{name_in, place_in, release_in, rows_in, scene_with};
ghost use Rattle.waff_draw.specs.Scene.{shown_start, shown_ticks, span_in, start_in};
ghost use Rattle.waff_draw.specs.Scene.{work_of_scene, workers_in};
ghost use Rattle.waff_draw.specs.Svg.{line_in};

use crate::axis::line_at;
use crate::colours::Colours;
use crate::lanes::{Lane, LaneKind, lanes, push_loose_lanes, rows};
use crate::loose::{LooseLanes, loose_lanes};
use crate::marks::marks;
use crate::parts::Part;
use std::alloc::{AllocError, Global};
use std::marker::Model;
use waff_assign::Case;
use waff_model::limits::{MAX_MESSAGES, MAX_WORKERS};
use waff_model::{AffinityId, Await, Version};
use waff_plan::Plan;
use waff_plan_text::GivenPlan;

/// A scene made ready for drawing: a plan that is given for the messages of a trace with their
/// affinities, which part of it is shown, and whether the affinities above those that have a message
/// have lanes too; the lanes of these and the row of each, the plan of
/// its starts and its length in ticks, where the part ends, the lanes of messages that have no affinity,
/// whether each message is on the chain, by its number, and the names that have a colour.
pub(crate) struct Chart<'a> {
    case: Case<'a>,
    given: &'a GivenPlan,
    part: Part,
    is_tree: bool,
    lanes: Vec<Lane>,
    plan: Plan,
    ticks: u64,
    end: u128,
    rows: Vec<u64>,
    loose: LooseLanes,
    links: Vec<bool>,
    colours: Colours<'a>,
}

impl<'a> Model for Chart<'a> {
    ghost use Rattle.std.specs.Coded.{codes};
    ghost use Rattle.waff_assign.specs.Case.{instance_of};
    ghost use Rattle.waff_draw.specs.Scene.{Scene, scene_with};
    ghost use Rattle.waff_draw.specs.Charts.{IsChart};
    ghost use Rattle.waff_draw.specs.contracts.parts.Part.{the_row};

    ghost Value = { Scene };

    // A part has a fact, so that its code has to be named.
    ghost coded = { Prim.hlevel (codes, the_row.coded) };

    ghost view = { λ c. scene_with (instance_of c.case) c.given.now c.part c.is_tree };

    ghost invariant = { λ c. IsChart (scene_with (instance_of c.case) c.given.now c.part c.is_tree)
        c.lanes.items c.plan c.ticks c.end c.rows.items c.loose.places.items c.links.items c.colours };
}

// Written out, so that it is proved once for all that draw.
impl<'a> Drop for Chart<'a> {
    fn drop(self) {
        let Chart {
            case: _,
            given: _,
            part: _,
            is_tree: _,
            lanes,
            plan,
            ticks: _,
            end: _,
            rows,
            loose,
            links,
            colours,
        } = self;
        drop(lanes);
        drop(plan);
        drop(rows);
        drop(loose);
        drop(links);
        drop(colours);
    }
}

impl<'a> Chart<'a> {
    /// The chart of this part of a plan that is given, with the lanes of the tree or those of messages
    /// alone.
    pub(crate) fn new(
        alloc: Global,
        case: &Case<'a>,
        given: &'a GivenPlan,
        part: Part,
        is_tree: bool,
    ) -> Result<Self, AllocError>
        requires rows { length given.now.rows ≡ length case.now.trace.now.messages }
        ensures { IfOk result (λ chart.
            chart ≡ scene_with (instance_of case.now) given.now part is_tree) }
    {
        let links = marks(alloc, case.trace.len() as usize + 1, given.chain())?;
        let plan = given.plan(alloc, case.trace)?;
        let loose = loose_lanes(alloc, case, &plan)?;
        let none = case.tree.len();
        let mut lanes = lanes(alloc, case, is_tree)?;
        push_loose_lanes(&mut lanes, none, loose.ends.len())?;
        let rows = rows(alloc, none as usize + 1, lanes.as_slice())?;
        let ticks = plan.length();
        let colours = Colours::new(alloc, case.trace)?;
        Ok(Chart {
            case: *case,
            given,
            part,
            is_tree,
            lanes,
            plan,
            ticks,
            end: part.end(ticks),
            rows,
            loose,
            links,
            colours,
        })
    }

    /// How many messages there are.
    pub(crate) fn len(&self) -> u32
        ensures count { result ≡ (work_of_scene self.now).count }
        ensures few { result ≤ MAX_MESSAGES }
    {
        self.plan.len()
    }

    /// The name of message `n`.
    pub(crate) fn name(&self, n: u32) -> &str
        requires { IsNumber (work_of_scene self.now) n }
        ensures { result.now ≡ name_in self.now n }
    {
        let trace = self.case.trace;
        trace.message(n).name.as_str()
    }

    /// The number of the colour of its name, 0 where it has none.
    pub(crate) fn colour(&self, n: u32) -> u32
        requires { IsNumber (work_of_scene self.now) n }
        ensures { result ≡ colour_of (coloured_in self.now) (name_in self.now n) }
    {
        self.colours.of(self.name(n))
    }

    /// How many names have a colour.
    pub(crate) fn colour_count(&self) -> u64
        ensures count { result ≡ length (coloured_in self.now) }
        ensures few { result ≤ 16 }
    {
        self.colours.len() as u64
    }

    /// The name that has the colour at this place, from 0.
    pub(crate) fn coloured_name(&self, place: u64) -> &str
        requires { place < length (coloured_in self.now) }
        ensures { result.now ≡ slice_index_or (coloured_in self.now) place [] }
    {
        self.colours.name(place as usize)
    }

    /// The name of its client, `-` where it is of none.
    pub(crate) fn client(&self, n: u32) -> &str
        requires { IsNumber (work_of_scene self.now) n }
        ensures { result.now ≡ client_in self.now n }
    {
        let trace = self.case.trace;
        trace.message(n).client.as_str()
    }

    /// The messages that it awaits by its list.
    pub(crate) fn after(&self, n: u32) -> &[Await]
        requires { IsNumber (work_of_scene self.now) n }
        ensures { result.now ≡ after_in self.now n }
    {
        let trace = self.case.trace;
        trace.message(n).after.as_slice()
    }

    /// The version of its trace.
    pub(crate) fn version(&self) -> Version
        ensures { result ≡ self.now.instance.trace.version }
    {
        self.case.trace.version()
    }

    /// The name of its affinity.
    pub(crate) fn affinity_name(&self, n: u32) -> &str
        requires { IsNumber (work_of_scene self.now) n }
        ensures { result.now ≡ affinity_name self.now.instance.tree self.now.instance.assigned n }
    {
        self.case.affinity_name(n)
    }

    /// The tick at which it starts.
    pub(crate) fn start(&self, n: u32) -> u64
        requires { IsNumber (work_of_scene self.now) n }
        ensures { result ≡ start_in self.now n }
    {
        self.plan.start(n)
    }

    /// The tick at which it has finished.
    pub(crate) fn finish(&self, n: u32) -> u64
        requires { IsNumber (work_of_scene self.now) n }
        ensures { result ≡ finish_in self.now n }
    {
        self.plan.finish(n)
    }

    /// Its release, as the trace has it.
    pub(crate) fn release(&self, n: u32) -> u32
        requires { IsNumber (work_of_scene self.now) n }
        ensures { result ≡ release_in self.now n }
    {
        let trace = self.case.trace;
        trace.message(n).release
    }

    /// Whether it is on the chain of the plan.
    pub(crate) fn is_link(&self, n: u32) -> bool
        requires { IsNumber (work_of_scene self.now) n }
        ensures { result ≡ is_among self.now.plan.summary.chain n }
    {
        self.links[n as usize]
    }

    /// The messages of the chain.
    pub(crate) fn chain(&self) -> &[u32]
        ensures chain { result.now ≡ self.now.plan.summary.chain }
        ensures numbers { All (IsNumber (work_of_scene self.now)) result.now }
    {
        let given = self.given;
        given.chain()
    }

    /// The tick from which it is shown.
    pub(crate) fn shown_start(&self, n: u32) -> u64
        requires { IsNumber (work_of_scene self.now) n }
        ensures start { result ≡ shown_start self.now n }
        ensures from { from_in self.now ≤ result }
    {
        self.start(n).max(self.from())
    }

    /// How many of its ticks are shown.
    pub(crate) fn shown_ticks(&self, n: u32) -> u64
        requires { IsNumber (work_of_scene self.now) n }
        ensures { result ≡ shown_ticks self.now n }
    {
        let finish = self.finish(n);
        let end = if u128::from(finish) <= self.end {
            finish
        } else {
            self.end as u64
        };
        end.saturating_sub(self.shown_start(n))
    }

    /// Its row among the lanes of this kind, if it is shown and has one there.
    pub(crate) fn shown_row(&self, kind: LaneKind, n: u32) -> Option<u64>
        requires { IsNumber (work_of_scene self.now) n }
        ensures { result ≡ shown_row self.now kind n }
    {
        if self.shown_ticks(n) > 0 {
            self.row(kind, n)
        } else {
            None
        }
    }

    /// Its row among the lanes of this kind, if it has one there.
    fn row(&self, kind: LaneKind, n: u32) -> Option<u64>
        requires { IsNumber (work_of_scene self.now) n }
        ensures { result ≡ row_in self.now kind n }
    {
        match kind {
            LaneKind::Affinity => Some(self.affinity_row(n)),
            LaneKind::Worker => self.worker_row(n),
        }
    }

    /// The row of its affinity, or that of the lane that it takes among those of none.
    fn affinity_row(&self, n: u32) -> u64
        requires { IsNumber (work_of_scene self.now) n }
        ensures { result ≡ row_of (lanes_in self.now) (number_or (length self.now.instance.tree)
            (held_of self.now.instance.assigned n)) + slice_index (loose_in self.now).places n }
    {
        let assigned = self.case.assigned;
        let none = self.case.tree.len();
        self.rows[assigned.number(n, none) as usize] + u64::from(self.place_of(n))
    }

    /// Which of the lanes of no affinity it takes, from 0.
    fn place_of(&self, n: u32) -> u32
        ensures { result ≡ slice_index (loose_in self.now).places n }
    {
        match self.loose.places.get(n as usize) {
            Some(place) => *place,
            None => 0,
        }
    }

    /// The row of its worker, if it has one of the plan's.
    fn worker_row(&self, n: u32) -> Option<u64>
        requires { IsNumber (work_of_scene self.now) n }
        ensures { result ≡ worker_row (length (lanes_in self.now)) (workers_in self.now)
            (row_at self.now.plan.rows n).worker }
    {
        let given = self.given;
        let first = self.lane_count();
        let k = u64::from(self.worker_count());
        match given.row(n).worker {
            Some(worker) if 1 <= worker && worker <= k => Some(first + worker - 1),
            _ => None,
        }
    }

    /// How many lanes of affinities and of none there are.
    pub(crate) fn lane_count(&self) -> u64
        ensures count { result ≡ length (lanes_in self.now) }
        ensures few { result ≤ 65600 }
    {
        self.lanes.len() as u64
    }

    /// How deep in the tree the affinity is whose lane is in this row.
    pub(crate) fn lane_depth(&self, row: u64) -> u64
        requires { row < length (lanes_in self.now) }
        ensures { result ≡ (slice_index_or (lanes_in self.now) row (lane_of 0 0)).depth }
    {
        self.lanes[row as usize].depth
    }

    /// The name of its affinity, and a hyphen where it has none.
    pub(crate) fn lane_name(&self, row: u64) -> &str
        requires { row < length (lanes_in self.now) }
        ensures { result.now ≡ lane_label self.now.instance.tree
            (slice_index_or (lanes_in self.now) row (lane_of 0 0)) }
    {
        let tree = self.case.tree;
        let affinity = self.lanes[row as usize].affinity;
        if affinity < tree.len() {
            tree.name(AffinityId(affinity as u16))
        } else {
            "-"
        }
    }

    /// The number of workers, if the plan has workers.
    pub(crate) fn workers(&self) -> Option<u32>
        ensures workers { result ≡ self.now.plan.summary.workers }
        ensures few { IfSome result IsWorkers }
    {
        let given = self.given;
        let _messages = given.len();
        given.workers()
    }

    /// The number of workers, 0 for a plan without them.
    pub(crate) fn worker_count(&self) -> u32
        ensures count { result ≡ workers_in self.now }
        ensures few { result ≤ MAX_WORKERS }
    {
        match self.workers() {
            Some(k) => k,
            None => 0,
        }
    }

    /// How many lanes there are.
    pub(crate) fn row_count(&self) -> u64
        ensures count { result ≡ rows_in self.now }
        ensures few { result < 2 ^ 32 }
    {
        self.lane_count() + u64::from(self.worker_count())
    }

    /// The length of the plan.
    pub(crate) fn length(&self) -> u64
        ensures { result ≡ length_in self.now }
    {
        self.ticks
    }

    /// The sum of all running times.
    pub(crate) fn total(&self) -> u64
        ensures { result ≡ total_of (work_of_scene self.now) }
    {
        self.plan.total()
    }

    /// The first tick that is shown.
    pub(crate) fn from(&self) -> u64
        ensures { result ≡ from_in self.now }
    {
        self.part.from
    }

    /// Where the part ends that is shown.
    pub(crate) fn end(&self) -> u128
        ensures end { result ≡ end_in self.now }
        ensures some { from_in self.now < result }
        ensures small { result ≤ 2 ^ 64 }
    {
        self.end
    }

    /// How many ticks are shown.
    pub(crate) fn span(&self) -> u128
        ensures span { result ≡ span_in self.now }
        ensures some { 0 < result }
        ensures small { result ≤ 2 ^ 64 }
    {
        self.end() - u128::from(self.from())
    }

    /// How wide so many ticks are in hundredths of a pixel, rounded down.
    pub(crate) fn place(&self, ticks: u128) -> u128
        requires { ticks ≤ 2 ^ 66 }
        ensures { result ≡ place_in self.now ticks }
    {
        ticks * 100_000 / self.span()
    }

    /// Where line `i` of the axis is, counted from 0.
    pub(crate) fn line(&self, i: u32) -> u128
        ensures line { result ≡ line_in self.now i }
        ensures from { from_in self.now ≤ result }
    {
        line_at(self.from(), self.span(), i)
    }
}
