//! What holds of the lanes of every picture, of what is shown in them, and of the axis. Each law is
//! a function that does nothing and whose contract is the law.

ghost use Rattle.std.specs.Prelude.{◌≡◌, ℕ, List};
ghost use Rattle.waff_model.specs.Tree.{IsTree, Node};
ghost use Rattle.waff_draw.specs.Lanes.{lanes_of};
ghost use Rattle.waff_draw.specs.Laws.{DepthIsSteps, HasLines, IsPreorder, LaneIsOne};
ghost use Rattle.waff_draw.specs.Laws.{LanesAreOfTree, RowIsOfLane, ShowsAll, ShowsTicksInPart};
ghost use Rattle.waff_draw.specs.Laws.{whole_part};
ghost use Rattle.waff_draw.specs.Scene.{Scene};

/// The affinities that are to have a lane of the tree are those that have a message in them or below
/// them.
pub fn lanes_are_of_tree()
    ensures { (tree : List Node) (assigned : List ℕ)
        → IsTree tree → LanesAreOfTree tree assigned }
{}

/// An affinity that is to have a lane has one, and no other affinity has any.
pub fn lane_is_one()
    ensures one { (tree : List Node) (assigned : List ℕ) → IsTree tree → LaneIsOne tree assigned }
{}

/// The row in which the messages of an affinity are drawn is that of its lane.
pub fn row_is_of_lane()
    ensures row { (tree : List Node) (assigned : List ℕ) → IsTree tree → RowIsOfLane tree assigned }
{}

/// A lane is set in by the number of steps from its affinity to the root.
pub fn depth_is_steps()
    ensures { (tree : List Node) (assigned : List ℕ)
        → IsTree tree → DepthIsSteps tree assigned }
{}

/// The lanes stand in preorder: what is below an affinity follows right behind it, and children in
/// their order.
pub fn lanes_in_preorder()
    ensures { (tree : List Node) (assigned : List ℕ)
        → IsTree tree → IsPreorder tree (lanes_of tree assigned) }
{}

/// What is shown of a message are those of its ticks that are in the part.
pub fn shows_ticks_in_part()
    ensures { (scene : Scene) → ShowsTicksInPart scene }
{}

/// Of the whole plan each message is shown whole.
pub fn whole_shows_all()
    ensures { (scene : Scene) → scene.part ≡ whole_part → ShowsAll scene }
{}

/// The lines of the axis stand at the multiples of its step that are in the part or at its end, and
/// at no other tick.
pub fn axis_has_lines()
    ensures { (scene : Scene) → HasLines scene }
{}
