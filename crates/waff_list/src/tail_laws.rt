//! What holds of the tails of messages. Each law is a function that does nothing and whose contract
//! is the law, for the ordered pairs of a tree of affinities and what the messages hold.

ghost use Rattle.std.specs.Prelude.{◌≡◌, ℕ, ◌↔◌, List, length};
ghost use Rattle.waff_model.specs.Tree.{Node};
ghost use Rattle.waff_assign.specs.Order.{IsOrdered, Path};
ghost use Rattle.waff_plan.specs.Obeys.{AwaitsNone};
ghost use Rattle.waff_plan.specs.Work.{Work};
ghost use Rattle.waff_order.specs.Needs.{IsNeed, AreNeeds};
ghost use Rattle.waff_list.specs.Tails.{AreTails, TailsAreOne, TailIsGreatestChain, TailsAreShared};
ghost use Rattle.waff_assign.specs.Held.{Held};

/// The tail of each message, in ticks, is one.
pub fn tails_are_one()
    ensures { (tree : List Node) (assigned : List Held) (work : Work) → length assigned ≡ work.count
        → TailsAreOne (IsOrdered tree assigned) work }
{}

/// The tail of a message, in ticks, is the greatest cost of a chain that begins with it.
pub fn tail_is_greatest_chain()
    ensures { (tree : List Node) (assigned : List Held) (work : Work) → length assigned ≡ work.count
        → AwaitsNone work → TailIsGreatestChain (IsOrdered tree assigned) work }
{}

/// Pairs with the same paths have the same tails, in ticks: any two sets of pairs, each given as
/// lists of needs, and those of two hierarchies.
pub fn same_paths_have_the_same_tails()
    ensures sets { (needs others : List (List ℕ)) (work : Work)
        → TailsAreShared (IsNeed needs) (IsNeed others) work }
    ensures hierarchies { (tree other_tree : List Node)
        (assigned other_assigned : List Held) (work : Work)
        → TailsAreShared (IsOrdered tree assigned) (IsOrdered other_tree other_assigned) work }
{}

/// The tails over the needs of messages, in ticks, are those over the paths through the needs and
/// those over their ordered pairs.
pub fn needs_have_the_same_tails()
    ensures pairs { (tree : List Node) (assigned : List Held) (needs : List (List ℕ)) (work : Work)
        (tail : ℕ → ℕ) → AreNeeds tree assigned needs
        → AreTails (IsNeed needs) work tail ↔ AreTails (IsOrdered tree assigned) work tail }
    ensures paths { (tree : List Node) (assigned : List Held) (needs : List (List ℕ)) (work : Work)
        (tail : ℕ → ℕ) → AreNeeds tree assigned needs
        → AreTails (Path (IsNeed needs)) work tail
        ↔ AreTails (IsOrdered tree assigned) work tail }
{}
