//! That the definitions leave no choice. Each law is a function that does nothing and whose
//! contract is the law, for the ordered pairs of a tree of affinities and of what messages hold under
//! it.

ghost use Rattle.std.specs.Prelude.{◌≡◌, ℕ, List, length};
ghost use Rattle.waff_model.specs.Tree.{Node};
ghost use Rattle.waff_assign.specs.Order.{IsOrdered};
ghost use Rattle.waff_plan.specs.Work.{Work};
ghost use Rattle.waff_plan.specs.Obeys.{AwaitsEarlier};
ghost use Rattle.waff_plan.specs.Unique.{LeastIsOne, LeastServedIsOne, PrintedIsOne};
ghost use Rattle.waff_model.specs.declared.message.Version.{Version};
ghost use Rattle.waff_assign.specs.Held.{Held};

/// The least plan is one.
pub fn least_is_one()
    ensures same { (tree : List Node) (assigned : List Held) (work : Work)
        → LeastIsOne (IsOrdered tree assigned) work }
{}

/// There is one plan that is least in the order in which it is to serve messages.
pub fn least_served_is_one()
    ensures same { (version : Version) (tree : List Node) (assigned : List Held) (work : Work)
        → AwaitsEarlier work → LeastServedIsOne version tree assigned work }
{}

/// A plan has one printed chain.
pub fn printed_is_one()
    ensures equal { (tree : List Node) (assigned : List Held) (work : Work)
        → length assigned ≡ work.count → AwaitsEarlier work
        → PrintedIsOne (IsOrdered tree assigned) work }
{}
