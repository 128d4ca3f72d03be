//! What holds of the data that messages use, whatever the hierarchy, and of all that limits a workload. Each law is a function that
//! does nothing and whose contract is the law.

ghost use Rattle.std.specs.Prelude.{◌≡◌, ℕ, List, Option};
ghost use Rattle.waff_model.specs.Layout.{Hierarchy, Space};
ghost use Rattle.waff_model.specs.declared.cell.Cell.{Cell};
ghost use Rattle.waff_model.specs.declared.message.Message.{Message};
ghost use Rattle.waff_assign.specs.Instance.{Instance};
ghost use Rattle.waff_limits.specs.Data.{IsMostOf};
ghost use Rattle.waff_plan.specs.Work.{Work};
ghost use Rattle.waff_limits.specs.Laws.{AfterIsNotBelow, ClientsFinish, DataBoundsTree};
ghost use Rattle.waff_limits.specs.Laws.{LimitsAreLowerBound, LimitsAreOne, NoListsAddNothing};
ghost use Rattle.waff_limits.specs.Laws.{NoneIsBelowLimits, OrderIsNotBelow};
ghost use Rattle.waff_limits.specs.Laws.{OrderIsShortest, PathIsReached, WritesBoundData};
ghost use Rattle.waff_limits.specs.declared.data.CellUse.{CellUse};
ghost use Rattle.waff_assign.specs.Held.{Held};

use waff_plan::lower_bound::tree_is_reached;

/// There is one cell that is used most.
pub fn most_used_is_one()
    ensures equal { (used : Cell → ℕ) (found other : Option CellUse) → IsMostOf used found
        → IsMostOf used other → found ≡ other }
{}

/// No hierarchy that lets messages share no more makes of them less work in one affinity and above it, or with one lock, than they have with
/// one cell: where it has no lock they all run at or above its owner, else they use its lock.
pub fn data_bounds_every_tree()
    ensures { (spaces : List Space) (layout : Hierarchy) (messages : List Message) (assigned : List Held)
        → DataBoundsTree spaces layout messages assigned }
{}

/// Whatever the hierarchy, messages need some cell for as many ticks as they need any cell where those that only read it share it. So this
/// is what no tree and no locks make less.
pub fn writes_bound_data()
    ensures { (spaces : List Space) (messages : List Message) → WritesBoundData spaces messages }
{}

/// No plan that obeys, for as many workers or without a limit on them, is shorter than the greatest of a worker's share, of what a client
/// needs, of what messages need that await one another, of a cell and of a lock, and of what runs on a path of affinities, in whatever order
/// it serves.
pub fn none_is_below_limits()
    ensures { (instance : Instance) → NoneIsBelowLimits instance }
{}

/// This greatest is the lower bound that figures of plans with clients tell.
pub fn limits_are_lower_bound()
    ensures { (instance : Instance) → LimitsAreLowerBound instance }
{}

/// What messages need that await one another, by their lists too, is no less than what a client needs.
pub fn after_is_not_below()
    ensures { (instance : Instance) → AfterIsNotBelow instance }
{}

/// Where all lists are empty it is just that.
pub fn no_lists_add_nothing()
    ensures { (instance : Instance) → NoListsAddNothing instance }
{}

/// No plan that keeps the order of the unlimited plan is shorter than that one.
pub fn order_is_shortest()
    ensures { (instance : Instance) → OrderIsShortest instance }
{}

/// The unlimited plan is no shorter than what limits in whatever order.
pub fn order_is_not_below()
    ensures { (instance : Instance) → OrderIsNotBelow instance }
{}

/// Where no message has a release, a think time, a client or a list or uses a lock, a plan that obeys in some order is as long as what runs on the longest
/// path of affinities.
pub fn path_is_reached()
    ensures { (instance : Instance) → PathIsReached instance }
{
    tree_is_reached();
}

/// What messages need that await one another, by their clients or by their lists: each has finished its cost after its issue, which is its
/// floor, or where that is later the latest finish of a message that it awaits, with its gap.
pub fn clients_finish()
    ensures { (work : Work) → ClientsFinish work }
{}

/// What limits a workload is one.
pub fn limits_are_one()
    ensures { (instance : Instance) → LimitsAreOne instance }
{}
