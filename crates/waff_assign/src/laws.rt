//! Laws of what messages hold. Each law is a function that does nothing and whose contract is the law.

ghost use Rattle.std.specs.Prelude.{◌≡◌, ◌↔◌, ◌⊎◌, ◌-◌, ◌<◌, ◌≤◌, ℕ, List, [], length, false};
ghost use Rattle.std.specs.Prelude.{slice_get, Contains, Some};
ghost use Rattle.waff_model.specs.Cells.{cells_written};
ghost use Rattle.waff_model.specs.Layout.{Hierarchy, IsLayout, has_locks, locking_of};
ghost use Rattle.waff_model.specs.Messages.{Arrivals, IsTrace, sizes_of};
ghost use Rattle.waff_model.specs.Tree.{Excludes, IsTree, Node};
ghost use Rattle.waff_model.specs.declared.cell.Cell.{Cell};
ghost use Rattle.waff_model.specs.declared.locking.Locking.TheVariants.{Shared};
ghost use Rattle.waff_model.specs.declared.message.Message.{Message};
ghost use Rattle.waff_assign.specs.Held.{AreKnown, AreUnlocked, ExcludeEachOther, Held, IsInRoot};
ghost use Rattle.waff_assign.specs.Held.{UsesAlone, UsesLock};
ghost use Rattle.waff_assign.specs.Lowest.{IsAssignment, IsInFootprint};
ghost use Rattle.waff_assign.specs.MoreLocks.{AreAllLocked, HasMoreLocks, Meet};
ghost use Rattle.waff_assign.specs.Order.{held_of};

/// Two messages exclude each other either way.
pub fn exclusion_is_mutual()
    ensures both { (tree : List Node) (one other : Held) → ExcludeEachOther tree one other
        → ExcludeEachOther tree other one }
{}

/// A message that runs in the root excludes every one.
pub fn root_excludes()
    ensures every { (tree : List Node) (one other : Held) → IsInRoot one
        → ExcludeEachOther tree one other }
{}

/// A message that uses a lock alone excludes every one that uses it.
pub fn alone_excludes()
    ensures every { (tree : List Node) (one other : Held) (lock : ℕ) → UsesAlone one lock
        → UsesLock other lock → ExcludeEachOther tree one other }
{}

/// Where one of two messages uses no lock, they exclude each other exactly where their affinities do.
pub fn exclusion_without_locks()
    ensures affinities { (tree : List Node) (one other : Held) (a b : ℕ) → IsTree tree
        → a < length tree → b < length tree → one.affinity ≡ Some a → other.affinity ≡ Some b
        → one.uses ≡ [] → ExcludeEachOther tree one other ↔ Excludes tree a b }
{}

/// Without spaces that have locks no message uses one.
pub fn unlocked_without_locks()
    ensures unlocked { (layout : Hierarchy) (messages : List Message) (assigned : List Held)
        → has_locks layout.spaces ≡ false → IsAssignment layout messages assigned → AreUnlocked assigned }
{}

/// What messages hold is of the tree, and each holds something.
pub fn assignment_is_known()
    ensures known { (layout : Hierarchy) → IsLayout layout → (trace : Arrivals) (assigned : List Held)
        → IsTrace trace → trace.sizes ≡ sizes_of layout.spaces
        → IsAssignment layout trace.messages assigned → AreKnown layout.tree assigned }
{}

/// Two messages with a common cell exclude each other, unless its space has shared locks and both only read it.
pub fn common_cell_excludes()
    ensures excludes { (layout : Hierarchy) (messages : List Message) (assigned : List Held)
        → IsAssignment layout messages assigned → (i j : ℕ) (one other : Message) (cell : Cell) → 1 ≤ i → 1 ≤ j
        → slice_get messages (i - 1) ≡ Some one → slice_get messages (j - 1) ≡ Some other
        → IsInFootprint one.ops cell → IsInFootprint other.ops cell
        → (locking_of layout.spaces cell ≡ Shared
        → Contains (cells_written one.ops) cell ⊎ Contains (cells_written other.ops) cell)
        → ExcludeEachOther layout.tree (held_of assigned i) (held_of assigned j) }
{}

/// Where all spaces have locks two messages exclude each other exactly where they have a common cell, of shared locks
/// one that one of them writes, whatever the tree.
pub fn locks_exclude_by_cells()
    ensures meet { (layout : Hierarchy) → AreAllLocked layout.spaces → (trace : Arrivals)
        (assigned : List Held) → IsTrace trace → trace.sizes ≡ sizes_of layout.spaces
        → IsAssignment layout trace.messages assigned → (i j : ℕ) (one other : Message) → 1 ≤ i → 1 ≤ j
        → slice_get trace.messages (i - 1) ≡ Some one → slice_get trace.messages (j - 1) ≡ Some other
        → ExcludeEachOther layout.tree (held_of assigned i) (held_of assigned j)
        ↔ Meet layout one.ops other.ops }
{}

/// More locks exclude no more: two messages that exclude each other where spaces have got locks, or shared ones in
/// place of exclusive ones, did so before.
pub fn more_locks_exclude_no_more()
    ensures before { (layout more : Hierarchy) → IsTree layout.tree → HasMoreLocks layout more
        → (messages : List Message) (assigned others : List Held) → IsAssignment layout messages assigned
        → IsAssignment more messages others → (i j : ℕ) → 1 ≤ i → i ≤ length messages → 1 ≤ j
        → j ≤ length messages → ExcludeEachOther more.tree (held_of others i) (held_of others j)
        → ExcludeEachOther layout.tree (held_of assigned i) (held_of assigned j) }
{}
